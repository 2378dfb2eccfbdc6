use crate::events::events;
use crate::handmade::{card, logged_card, refreshed_card};
use crate::same::same;
use cardtexts::{Refusal, read_any_card};
use failures::Failure;
use std::alloc::{AllocError, Global};
use std::process::Abort;
use std::test::Fail;

// What is printed of the card in these bytes, or of its refusal.
fn printed(heap: Global, bytes: Vec<u8>) -> Result<String, AllocError> {
    match read_any_card(heap, bytes) {
        Ok(card) => format!(in heap; "{card}"),
        Err(Failure::Because(fault)) => format!(in heap; "{}", Refusal(fault)),
        Err(Failure::Memory) => Err(AllocError),
    }
}

// So much is printed of it.
fn prints(
    rt: &impl Abort,
    heap: Global,
    bytes: Vec<u8>,
    expected: &str,
    case: usize,
) -> Result<(), AllocError> {
    let found = printed(heap, bytes)?;
    same(rt, found.as_str(), expected, case);
    Ok(())
}

// A card is read as of the kind that its head names, and one of events has no mean.
#[test]
fn cards_of_both_kinds_print_their_records(rt: HostRuntime) -> Result<(), Fail> {
    let heap = rt.alloc();
    let of_events =
        "kind event\nslots 2\nseed 0x0000000000000000\ncounted 2\nlogged 0\nslot 0: 7 lost 31\nslot 1: 9 holdover\n";
    prints(&rt, heap, events(heap)?, of_events, 0)?;
    let logged =
        "kind offset\nslots 2\nseed 0x0000000000000000\ncounted 5\nlogged 2\nslot 0: 104 4 40\nslot 1: 103 3 30\nmean 35.000 ns over 2\n";
    prints(&rt, heap, logged_card(heap)?, logged, 1)?;
    let refreshed =
        "kind offset\nslots 2\nseed 0x0000000000000000\ncounted 5\nlogged 0\nslot 0: 104 4 40\nslot 1: 103 3 30\nmean 35.000 ns over 2\n";
    prints(&rt, heap, refreshed_card(heap)?, refreshed, 2)?;
    let no_records =
        "kind offset\nslots 2\nseed 0x0000000000000000\ncounted 0\nlogged 0\nmean none\n";
    prints(&rt, heap, card(heap, 1, 0, 0)?, no_records, 3)?;
    Ok(())
}

// A kind that there is not, one that no head has, a log block with no entry in it, and a file of no block.
#[test]
fn refused_cards_print_why(rt: HostRuntime) -> Result<(), Fail> {
    let heap = rt.alloc();
    let other =
        "refused 26 3 3\nThe records are of kind 3; the kinds known here are 1, offsets, and 2, events.\n";
    prints(&rt, heap, card(heap, 3, 0, 0)?, other, 3)?;
    let no_head =
        "refused 25 3 0\nBlock 0 is no lawful head: a field is out of its limits, a byte after the fields is not zero, or the file has fewer blocks than the head asks for.\n";
    prints(&rt, heap, card(heap, 0, 0, 0)?, no_head, 0)?;
    let no_entry =
        "refused 27 3 0\nEntry 0 of the log, counted from 0, is wrong: its number is 0, not above the one before it, above the count, or of a record that has no slot, or its bytes are those of no record.\n";
    prints(&rt, heap, card(heap, 2, 1, 1)?, no_entry, 2)?;
    let no_event =
        "refused 28 3 0\nSlot 0 is filled, but its bytes are those of no record, and the log has no entry for it.\n";
    prints(&rt, heap, card(heap, 2, 1, 0)?, no_event, 4)?;
    let no_block =
        "refused 1 1 0\nThe file ends before the end of block 0; a block has 504 bytes.\n";
    prints(&rt, heap, Vec::new(heap), no_block, 5)?;
    Ok(())
}
