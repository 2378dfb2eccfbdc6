ghost use Rattle.std.specs.Prelude.{◌<◌};

use crate::handmade::{LOG, card, offset_bytes, put, refreshed_card};
use crate::same::same;
use faults::{Fault, Layer, Reason};
use ledgers::{Answer, Call};
use nights::{Played, play};
use records::{Offset, RecordKind};
use script::{Ask, Night, Stack, Steady};
use std::alloc::{AllocError, Global};
use std::process::Abort;
use std::test::Fail;
use stores::BLOCK_BYTES;

// A night of two slots with so many records, a record that cannot exist, a report, and a last call.
fn night(heap: Global, records: u8, last: Call<Offset>) -> Result<Night<Offset>, AllocError> {
    let mut asks = Vec::new(heap);
    asks.push(Ask::Calls(Call::Wake))?;
    for k in 1..=records { // k up to records
        let record = Offset::decode(&offset_bytes(k)).map_err(|_fault| AllocError)?;
        asks.push(Ask::Calls(Call::Insert(record)))?;
    }
    asks.push(Ask::NoSuchRecord(Layer::Record.fault(Reason::NoSuchRecord, 4)))?;
    asks.push(Ask::Report)?;
    asks.push(Ask::Calls(last))?;
    Ok(Night {
        size: 2,
        log_blocks: 1,
        seed: 0,
        asks,
    })
}

// A night whose format asks for more blocks than there are.
fn too_large(heap: Global) -> Result<Night<Offset>, AllocError> {
    Ok(Night {
        size: 2,
        log_blocks: 2,
        seed: 1,
        asks: [Ask::Report].to_vec(heap)?,
    })
}

// The card that a commit of three records leaves: the candidates stand in the log, in the order in which they came.
fn committed_card(heap: Global) -> Result<Vec<u8>, AllocError> {
    let mut expected = card(heap, 1, 3, 3)?;
    for k in 1..4u8 { // k up to 3
        let place = LOG + 16 * usize::from(k - 1);
        put(&mut expected, place, &[0, 0, 0, k]);
        put(&mut expected, place + 4, &offset_bytes(k));
    }
    Ok(expected)
}

// How many calls the first night answered, what its last one did, and why the second was refused.
fn outcome(answers: &[Result<Vec<Answer<Offset>>, Fault>]) -> Option<(usize, u32, Reason)> {
    let [Ok(first), Err(fault)] = answers else {
        return None;
    };
    match first.last() {
        Some(Answer::Committed(count)) => Some((first.len(), *count, fault.reason)),
        Some(Answer::Refreshed(blocks)) => Some((first.len(), *blocks, fault.reason)),
        _ => None,
    }
}

// The blocks that a device has, each of so many bytes: those of the card, and where it is mirrored once more.
fn has_copies(rt: &impl Abort, memory: &[u8], block_bytes: usize, card: &[u8])
    requires { 0 < block_bytes }
{
    let twice = card.chunks(BLOCK_BYTES).chain(card.chunks(BLOCK_BYTES));
    for (case, (found, block)) in memory.chunks(block_bytes).zip(twice).enumerate() {
        same(rt, found.get(0..BLOCK_BYTES), Some(block), case);
    }
}

// A steady store, how many blocks its device has, and how many bytes.
const STACKS: [(Steady, u32, usize); 3] = [
    (Steady::Image, 3, 1512),
    (Steady::MirroredImage, 6, 3024),
    (Steady::MirroredBench, 6, 3030),
];

#[test]
fn nights_leave_their_card_on_every_stack(rt: HostRuntime) -> Result<(), Fail> {
    let heap = rt.alloc();
    let given = [night(heap, 3, Call::Commit)?, too_large(heap)?];
    let expected = committed_card(heap)?;
    for (steady, blocks, bytes) in &STACKS {
        let stack = Stack {
            steady: *steady,
            blocks: *blocks,
        };
        let Played { outcomes, memory } = play(
            heap,
            stack,
            Vec::new(heap),
            Vec::new(heap),
            &given,
        )?;
        same(
            &rt,
            outcome(&outcomes),
            Some((7, 3, Reason::StoreTooSmall)),
            *bytes,
        );
        same(&rt, memory.len(), *bytes, *bytes);
        let block_bytes = if *steady == Steady::MirroredBench {
            BLOCK_BYTES + 1
        } else {
            BLOCK_BYTES
        };
        has_copies(&rt, &memory, block_bytes, &expected);
    }
    Ok(())
}

// The night of the worked example: five records, of which the sample is record 4, record 3, in one sample block. The log
// block has what was written there; nothing else differs from the card made by hand.
#[test]
fn refreshed_card_is_that_made_by_hand(rt: HostRuntime) -> Result<(), Fail> {
    let heap = rt.alloc();
    let given = [night(heap, 5, Call::Refresh)?, too_large(heap)?];
    let stack = Stack {
        steady: Steady::Image,
        blocks: 3,
    };
    let Played { outcomes, memory } = play(heap, stack, Vec::new(heap), Vec::new(heap), &given)?;
    same(
        &rt,
        outcome(&outcomes),
        Some((9, 1, Reason::StoreTooSmall)),
        0,
    );
    let expected = refreshed_card(heap)?;
    same(&rt, memory.get(0..LOG), expected.get(0..LOG), 1);
    Ok(())
}
