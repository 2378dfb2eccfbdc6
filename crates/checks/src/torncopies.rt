use crate::looking::{read_refused, reads, same, starts, writes};
use benches::{Bench, Given};
use faults::{Fault, Layer, Reason};
use mirrors::Mirror;
use std::alloc::{AllocError, Global};
use std::process::Abort;
use std::test::Fail;
use stores::{BLOCK_BYTES, Store};

// A bench's memory: for each block the byte that fills it, and the byte that is zero unless the block is torn.
fn memory(heap: Global, blocks: &[(u8, u8)]) -> Result<Vec<u8>, AllocError> {
    let mut bytes = Vec::new(heap);
    for (value, torn) in blocks {
        bytes.extend_from_slice(&[*value; BLOCK_BYTES])?;
        bytes.push(*torn)?;
    }
    Ok(bytes)
}

// A mirror over a bench with this memory, these fuses and these choices.
fn mirror(
    heap: Global,
    blocks: &[(u8, u8)],
    fuses: &[u32],
    choices: &[u8],
) -> Result<Mirror<Bench>, AllocError> {
    let given = Given {
        bytes: memory(heap, blocks)?,
        fuses: fuses.to_vec(heap)?,
        choices: choices.to_vec(heap)?,
    };
    let bench = Bench::new(heap, given).map_err(|_given| AllocError)?;
    Ok(Mirror::new(bench))
}

// The mirror leaves this memory.
fn leaves(
    rt: &impl Abort,
    heap: Global,
    mirror: Mirror<Bench>,
    blocks: &[(u8, u8)],
    case: usize,
) -> Result<(), AllocError> {
    let left = mirror.into_below().into_bytes();
    let expected = memory(heap, blocks)?;
    same(rt, left.as_slice(), expected.as_slice(), case);
    Ok(())
}

// The copies of block 1 are at the blocks 1 and 3 of the bench. Its fifth block is torn, and no copy of any.
const FIRST_TORN: [(u8, u8); 5] = [(1, 0), (7, 3), (1, 0), (9, 0), (5, 2)];

const MENDED: [(u8, u8); 5] = [(1, 0), (9, 0), (1, 0), (9, 0), (5, 2)];

#[test]
fn torn_first_copy_is_read_from_the_second(rt: HostRuntime) -> Result<(), Fail> {
    let heap = rt.alloc();
    let mut mirror = mirror(heap, &FIRST_TORN, &[], &[])?;
    same(&rt, mirror.size(), 2, 0);
    starts(&rt, &mut mirror);
    reads(&rt, &mut mirror, 0, 1);
    reads(&rt, &mut mirror, 1, 9);
    leaves(&rt, heap, mirror, &MENDED, 0)?;
    Ok(())
}

const SECOND_TORN: [(u8, u8); 2] = [(7, 0), (9, 255)];

const DIFFERENT: [(u8, u8); 2] = [(7, 0), (9, 0)];

const BOTH_ALIKE: [(u8, u8); 2] = [(7, 0), (7, 0)];

#[test]
fn whole_first_copy_goes_over_a_torn_or_different_second(rt: HostRuntime) -> Result<(), Fail> {
    let heap = rt.alloc();
    for blocks in [SECOND_TORN, DIFFERENT] {
        let mut mirror = mirror(heap, &blocks, &[], &[])?;
        starts(&rt, &mut mirror);
        reads(&rt, &mut mirror, 0, 7);
        leaves(&rt, heap, mirror, &BOTH_ALIKE, 0)?;
    }
    Ok(())
}

const SUPPLY_FAILED: Fault = Fault {
    reason: Reason::Off,
    layer: Layer::Device,
    place: 0,
};

const BOTH_TORN: [(u8, u8); 4] = [(1, 0), (7, 3), (1, 0), (9, 255)];

const WRITTEN: [(u8, u8); 4] = [(1, 0), (4, 0), (1, 0), (4, 0)];

#[test]
fn two_torn_copies_stay_torn_and_are_refused(rt: HostRuntime) -> Result<(), Fail> {
    let heap = rt.alloc();
    let torn = Fault {
        reason: Reason::Torn,
        layer: Layer::Mirror,
        place: 1,
    };
    let mut mirror = mirror(heap, &BOTH_TORN, &[], &[])?;
    starts(&rt, &mut mirror);
    read_refused(&rt, &mut mirror, 1, torn);
    reads(&rt, &mut mirror, 0, 1);
    leaves(&rt, heap, mirror, &BOTH_TORN, 0)?;
    Ok(())
}

#[test]
fn write_makes_two_torn_copies_whole(rt: HostRuntime) -> Result<(), Fail> {
    let heap = rt.alloc();
    let mut mirror = mirror(heap, &BOTH_TORN, &[], &[])?;
    starts(&rt, &mut mirror);
    writes(&rt, &mut mirror, 1, 4);
    reads(&rt, &mut mirror, 1, 4);
    leaves(&rt, heap, mirror, &WRITTEN, 0)?;
    Ok(())
}

// Four blocks to mend: a torn first copy, a second that differs, a torn second, and two that are torn. Each but the last
// takes a write and a flush.
const UNLIKE: [(u8, u8); 8] = [
    (7, 3),
    (1, 0),
    (5, 0),
    (4, 1),
    (9, 0),
    (2, 0),
    (6, 8),
    (8, 1),
];

const ALIKE: [(u8, u8); 8] = [
    (9, 0),
    (1, 0),
    (5, 0),
    (4, 1),
    (9, 0),
    (1, 0),
    (5, 0),
    (8, 1),
];

#[test]
fn restart_cut_in_any_place_is_made_good_by_the_next(rt: HostRuntime) -> Result<(), Fail> {
    let heap = rt.alloc();
    for case in 0..18u32 { // case up to 17
        let (fuse, choice) = (case / 3, (case % 3) as u8);
        let mut mirror = mirror(heap, &UNLIKE, &[fuse], &[choice])?;
        same(&rt, mirror.restart(), Err(SUPPLY_FAILED), case as usize);
        same(&rt, mirror.restart(), Ok(()), case as usize);
        leaves(&rt, heap, mirror, &ALIKE, case as usize)?;
    }
    let mut mirror = mirror(heap, &UNLIKE, &[6], &[])?;
    starts(&rt, &mut mirror);
    leaves(&rt, heap, mirror, &ALIKE, 18)?;
    Ok(())
}
