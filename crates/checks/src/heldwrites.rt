use crate::looking::{read_refused, reads, same, starts, writes};
use benches::{Bench, Given};
use faults::{Fault, Layer, Reason};
use std::alloc::{AllocError, Global};
use std::test::Fail;
use stores::{BLOCK_BYTES, Store};

// A bench of two blocks that are zero.
fn bench(heap: Global, fuses: &[u32], choices: &[u8]) -> Result<Bench, AllocError> {
    let given = Given {
        bytes: vec![in heap; 0; 1010]?,
        fuses: fuses.to_vec(heap)?,
        choices: choices.to_vec(heap)?,
    };
    Bench::new(heap, given).map_err(|_given| AllocError)
}

// How many writes are made, of 1 to block 1, of 2 to block 0, of 3 to block 1 and so on; the choices of the restart
// after them, for block 0 and block 1; and what each then reads.
const KEPT: [(u8, [u8; 2], [u8; 2]); 9] = [
    (16, [0, 0], [0, 0]),
    (16, [8, 1], [16, 1]),
    (16, [10, 255], [0, 9]), // with eight held writes, 10 is 0 and 255 is 5
    (17, [0, 0], [16, 15]), // block 1 takes the first choice, since block 0 has no held write
    (17, [1, 0], [16, 17]),
    (17, [3, 1], [16, 15]),
    (32, [0, 0], [16, 15]),
    (33, [0, 0], [32, 31]),
    (34, [1, 1], [34, 33]),
];

#[test]
fn the_17th_write_settles_the_16_before_it(rt: HostRuntime) -> Result<(), Fail> {
    let heap = rt.alloc();
    for (many, choices, values) in &KEPT {
        let mut bench = bench(heap, &[], choices)?;
        starts(&rt, &mut bench);
        for k in 1..=*many { // k up to many
            writes(&rt, &mut bench, u32::from(k % 2), k);
        }
        starts(&rt, &mut bench);
        reads(&rt, &mut bench, 0, values[0]);
        reads(&rt, &mut bench, 1, values[1]);
    }
    Ok(())
}

const OFF: Fault = Fault {
    reason: Reason::Off,
    layer: Layer::Device,
    place: 0,
};

#[test]
fn fuses_and_choices_past_their_ends(rt: HostRuntime) -> Result<(), Fail> {
    let heap = rt.alloc();
    let mut bench = bench(heap, &[1, 1], &[2])?;
    starts(&rt, &mut bench);
    writes(&rt, &mut bench, 0, 5);
    same(&rt, bench.write(0, &[6; BLOCK_BYTES]), Err(OFF), 6); // held all the same
    starts(&rt, &mut bench); // the only choice keeps the second of the two
    reads(&rt, &mut bench, 0, 6);
    writes(&rt, &mut bench, 0, 3);
    same(&rt, bench.flush(), Err(OFF), 3); // settles nothing
    starts(&rt, &mut bench); // past the last fuse, and past the last choice
    reads(&rt, &mut bench, 0, 6);
    for k in 0..100 {
        writes(&rt, &mut bench, 0, k);
        same(&rt, bench.flush(), Ok(()), 0);
    }
    writes(&rt, &mut bench, 0, 7);
    reads(&rt, &mut bench, 0, 7);
    starts(&rt, &mut bench);
    reads(&rt, &mut bench, 0, 99);
    writes(&rt, &mut bench, 0, 8);
    same(&rt, bench.flush(), Ok(()), 0);
    reads(&rt, &mut bench, 0, 8);
    Ok(())
}

#[test]
fn choices_keep_lose_or_tear_a_held_write(rt: HostRuntime) -> Result<(), Fail> {
    let heap = rt.alloc();
    let torn = Fault {
        reason: Reason::Torn,
        layer: Layer::Device,
        place: 1,
    };
    // With one held write, a choice counts modulo 3; 254 is 2.
    for (choice, value) in [
        (0, Some(0)),
        (1, Some(4)),
        (2, None),
        (3, Some(0)),
        (254, None),
    ] {
        let mut bench = bench(heap, &[], &[choice])?;
        starts(&rt, &mut bench);
        writes(&rt, &mut bench, 1, 4);
        starts(&rt, &mut bench);
        match value {
            Some(value) => reads(&rt, &mut bench, 1, value),
            None => read_refused(&rt, &mut bench, 1, torn),
        }
    }
    Ok(())
}
