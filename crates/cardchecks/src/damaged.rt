use crate::handmade::{CARD_BYTES, LOG, SAMPLE, logged_card, put, refreshed_card};
use crate::same::same;
use cardreads::read_card;
use failures::Failure;
use faults::{Fault, Layer, Reason};
use records::{Event, Offset};
use std::alloc::{AllocError, Global};
use std::process::Abort;
use std::test::Fail;
use stores::BLOCK_BYTES;

// A place, the byte that is put there, and what the card is refused for.
type Damage = (usize, u8, Reason, u64);

// One byte of the card with a log.
const LOGGED: [Damage; 38] = [
    // The head: version, length, kind, log blocks, slots, count, log entries, zeros.
    (0, 0, Reason::BadHead, 0),
    (0, 2, Reason::BadHead, 0),
    (1, 1, Reason::BadHead, 0),
    (2, 17, Reason::BadHead, 0),
    (2, 19, Reason::BadHead, 0),
    (3, 0, Reason::BadHead, 0),
    (3, 2, Reason::OtherKind, 2),
    (3, 255, Reason::OtherKind, 255),
    (4, 0, Reason::BadHead, 0),
    (4, 2, Reason::BadHead, 0),
    (4, 65, Reason::BadHead, 0),
    (5, 1, Reason::BadHead, 0),
    (6, 0, Reason::BadHead, 0),
    (6, 43, Reason::BadHead, 0),
    (15, 239, Reason::BadHead, 0),
    (18, 1, Reason::BadHead, 0),
    (19, 1, Reason::BadHead, 0),
    (20, 6, Reason::BadHead, 0),
    (20, 32, Reason::BadHead, 0),
    (21, 1, Reason::BadHead, 0),
    (503, 1, Reason::BadHead, 0),
    // A number that is none, past the count, of no candidate, the same as before or lower.
    (LOG, 1, Reason::BadEntry, 0),
    (LOG + 3, 0, Reason::BadEntry, 0),
    (LOG + 3, 5, Reason::BadEntry, 0),
    (LOG + 3, 6, Reason::BadEntry, 0),
    (LOG + 3, 4, Reason::BadEntry, 1),
    (LOG + 19, 3, Reason::BadEntry, 1),
    (LOG + 19, 2, Reason::BadEntry, 1),
    (LOG + 19, 5, Reason::BadEntry, 1),
    (LOG + 19, 0, Reason::BadEntry, 1),
    (LOG + 17, 1, Reason::BadEntry, 1),
    // A second, a satellite, zeros and nanoseconds of no record.
    (LOG + 4, 255, Reason::BadEntry, 0),
    (LOG + 8, 32, Reason::BadEntry, 0),
    (LOG + 9, 1, Reason::BadEntry, 0),
    (LOG + 12, 127, Reason::BadEntry, 0),
    (LOG + 20, 255, Reason::BadEntry, 1),
    (LOG + 24, 32, Reason::BadEntry, 1),
    (LOG + 27, 1, Reason::BadEntry, 1),
];

// The same of the card without a log.
const REFRESHED: [Damage; 10] = [
    (SAMPLE, 255, Reason::BadSlot, 0),
    (SAMPLE + 4, 32, Reason::BadSlot, 0),
    (SAMPLE + 5, 1, Reason::BadSlot, 0),
    (SAMPLE + 7, 1, Reason::BadSlot, 0),
    (SAMPLE + 8, 127, Reason::BadSlot, 0),
    (SAMPLE + 12, 255, Reason::BadSlot, 1),
    (SAMPLE + 16, 32, Reason::BadSlot, 1),
    (SAMPLE + 18, 1, Reason::BadSlot, 1),
    (SAMPLE + 20, 128, Reason::BadSlot, 1),
    (20, 1, Reason::BadEntry, 0),
];

// These bytes are refused so as a card of offsets; where none is expected they are read.
fn is_refused(rt: &impl Abort, heap: Global, bytes: Vec<u8>, expected: Option<Fault>, case: usize) {
    let (_bytes, read) = read_card::<Offset>(heap, bytes);
    let found = match read {
        Ok(_reading) => None,
        Err(Failure::Because(fault)) => Some(fault),
        Err(Failure::Memory) => panic!(rt; "no memory"),
    };
    same(rt, found, expected, case);
}

fn by_sampler(reason: Reason, place: u64) -> Option<Fault> {
    Some(Layer::Sampler.fault(reason, place))
}

// Each damage of this card is refused as the table has it.
fn are_refused(
    rt: &impl Abort,
    heap: Global,
    card: &[u8],
    damages: &[Damage],
) -> Result<(), AllocError> {
    for (place, byte, reason, found) in damages {
        let mut bytes = card.to_vec(heap)?;
        put(&mut bytes, *place, &[*byte]);
        is_refused(rt, heap, bytes, by_sampler(*reason, *found), *place);
    }
    Ok(())
}

#[test]
fn damage_is_refused_where_it_is(rt: HostRuntime) -> Result<(), Fail> {
    let heap = rt.alloc();
    are_refused(&rt, heap, &logged_card(heap)?, &LOGGED)?;
    are_refused(&rt, heap, &refreshed_card(heap)?, &REFRESHED)?;
    Ok(())
}

// Each of these damages beside the ones before it is told in place of them.
const SEVERAL: [Damage; 4] = [
    (SAMPLE + 12, 255, Reason::BadSlot, 1),
    (LOG + 8, 32, Reason::BadEntry, 0),
    (3, 7, Reason::OtherKind, 7),
    (0, 9, Reason::BadHead, 0),
];

#[test]
fn several_damages_are_told_in_the_order_of_the_checks(rt: HostRuntime) -> Result<(), Fail> {
    let heap = rt.alloc();
    let mut bytes = logged_card(heap)?;
    // The card with no entry for slot 1, for which the sample block is then read.
    put(&mut bytes, 20, &[1]);
    put(&mut bytes, LOG + 3, &[4]);
    for (place, byte, reason, found) in &SEVERAL {
        put(&mut bytes, *place, &[*byte]);
        is_refused(
            &rt,
            heap,
            bytes.to_vec(heap)?,
            by_sampler(*reason, *found),
            *place,
        );
    }
    Ok(())
}

#[test]
fn truncated_memory_is_refused(rt: HostRuntime) -> Result<(), Fail> {
    let heap = rt.alloc();
    for length in [0, 1, 503, 504, 1008, 1511] {
        let mut bytes = logged_card(heap)?;
        bytes.truncate(length);
        let expected = if length < BLOCK_BYTES {
            Some(Layer::Device.fault(Reason::NoSuchBlock, 0))
        } else {
            by_sampler(Reason::BadHead, 0)
        };
        is_refused(&rt, heap, bytes, expected, length);
    }
    Ok(())
}

// Bytes that nothing stands on: the spare ones, the log past its entries, slots that no record has filled or that an
// entry lies over, and memory past the card.
const FREE: [usize; 6] = [
    SAMPLE,
    SAMPLE + 12,
    SAMPLE + 24,
    LOG + 32,
    CARD_BYTES - 9,
    CARD_BYTES - 1,
];

#[test]
fn free_bytes_are_not_looked_at(rt: HostRuntime) -> Result<(), Fail> {
    let heap = rt.alloc();
    for place in FREE {
        let mut bytes = logged_card(heap)?;
        bytes.push(255)?;
        put(&mut bytes, place, &[255]);
        is_refused(&rt, heap, bytes, None, place);
    }
    Ok(())
}

// With an empty log nothing stands on the seed, and with one record nothing on the second slot.
#[test]
fn free_bytes_of_a_card_without_a_log_are_not_looked_at(rt: HostRuntime) -> Result<(), Fail> {
    let heap = rt.alloc();
    let mut bytes = refreshed_card(heap)?;
    put(&mut bytes, 7, &[255]);
    put(&mut bytes, 18, &[1]);
    put(&mut bytes, SAMPLE + 12, &[255]);
    is_refused(&rt, heap, bytes, None, 7);
    Ok(())
}

#[test]
fn card_of_offsets_is_none_of_events(rt: HostRuntime) -> Result<(), Fail> {
    let heap = rt.alloc();
    let (_bytes, read) = read_card::<Event>(heap, logged_card(heap)?);
    let found = match read {
        Err(Failure::Because(fault)) => Some(fault),
        _ => None,
    };
    same(&rt, found, by_sampler(Reason::OtherKind, 1), 0);
    Ok(())
}
