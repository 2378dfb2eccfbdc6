use crate::looking::{read_refused, reads, same, starts, writes};
use benches::{Bench, Given};
use faults::{Fault, Layer, Reason};
use images::Image;
use mirrors::Mirror;
use std::alloc::{AllocError, Global};
use std::process::Abort;
use std::test::Fail;
use stores::{BLOCK_BYTES, Store};

// A block, a buffer's length, and what a store of two blocks refuses them for, on or off: the block before the buffer.
const WRONG: [(u32, usize, Reason, u64); 6] = [
    (2, 504, Reason::NoSuchBlock, 2),
    (2, 503, Reason::NoSuchBlock, 2),
    (4_294_967_295, 505, Reason::NoSuchBlock, 4_294_967_295),
    (1, 503, Reason::WrongLength, 503),
    (0, 505, Reason::WrongLength, 505),
    (0, 0, Reason::WrongLength, 0),
];

// A read and a write of a block with a buffer of this length are both refused with this fault, and neither writes into
// the buffer.
fn block_refused<S: Store>(
    rt: &impl Abort,
    store: &mut S,
    block: u32,
    length: usize,
    fault: Fault,
) {
    let mut buf = [170; 505];
    let as_it_was = buf;
    let read = match buf.get_mut(0..length) {
        Some(part) => store.read(block, part),
        None => Ok(()),
    };
    same(rt, read, Err(fault), length);
    same(rt, buf.as_slice(), as_it_was.as_slice(), length);
    let written = match buf.get(0..length) {
        Some(part) => store.write(block, part),
        None => Ok(()),
    };
    same(rt, written, Err(fault), length);
}

// What is refused whether the store is on or off.
fn wrong_refused<S: Store>(rt: &impl Abort, store: &mut S, layer: Layer) {
    for (block, length, reason, place) in &WRONG {
        let fault = layer.fault(*reason, *place);
        block_refused(rt, store, *block, *length, fault);
    }
}

// What is refused because the store is off.
fn off_refused<S: Store>(rt: &impl Abort, store: &mut S, layer: Layer) {
    let off = Fault {
        reason: Reason::Off,
        layer,
        place: 0,
    };
    for block in [0, 1] {
        block_refused(rt, store, block, BLOCK_BYTES, off);
    }
    same(rt, store.flush(), Err(off), 0);
}

// A store of two blocks that was just made. It is off: what is wrong with the arguments is said first all the same. Once
// it is on it says the same of them, and serves the rest.
fn refuses_in_order<S: Store>(rt: &impl Abort, store: &mut S, layer: Layer) {
    same(rt, store.size(), 2, 0);
    wrong_refused(rt, store, layer);
    off_refused(rt, store, layer);
    starts(rt, store);
    wrong_refused(rt, store, layer);
    same(rt, store.flush(), Ok(()), 0);
    reads(rt, store, 1, 0);
    writes(rt, store, 1, 6);
    reads(rt, store, 1, 6);
    reads(rt, store, 0, 0);
}

// A bench with this memory and these fuses, and no choices.
fn bench(heap: Global, bytes: Vec<u8>, fuses: &[u32]) -> Result<Bench, AllocError> {
    let given = Given {
        bytes,
        fuses: fuses.to_vec(heap)?,
        choices: Vec::new(heap),
    };
    Bench::new(heap, given).map_err(|_given| AllocError)
}

#[test]
fn every_layer_refuses_in_order(rt: HostRuntime) -> Result<(), Fail> {
    let heap = rt.alloc();
    let mut image = Image::new(vec![in heap; 0; 1008]?);
    refuses_in_order(&rt, &mut image, Layer::Device);
    let mut bench_alone = bench(heap, vec![in heap; 0; 1010]?, &[])?;
    refuses_in_order(&rt, &mut bench_alone, Layer::Device);
    let mut over_image = Mirror::new(Image::new(vec![in heap; 0; 2520]?));
    refuses_in_order(&rt, &mut over_image, Layer::Mirror);
    let mut over_bench = Mirror::new(bench(heap, vec![in heap; 0; 2020]?, &[])?);
    refuses_in_order(&rt, &mut over_bench, Layer::Mirror);
    Ok(())
}

const SUPPLY_FAILED: Fault = Fault {
    reason: Reason::Off,
    layer: Layer::Device,
    place: 0,
};

#[test]
fn failing_supply_is_refused_by_the_device(rt: HostRuntime) -> Result<(), Fail> {
    let heap = rt.alloc();
    let mut bench_alone = bench(heap, vec![in heap; 0; 1010]?, &[0, 0])?;
    starts(&rt, &mut bench_alone);
    same(
        &rt,
        bench_alone.write(0, &[1; BLOCK_BYTES]),
        Err(SUPPLY_FAILED),
        0,
    );
    off_refused(&rt, &mut bench_alone, Layer::Device);
    starts(&rt, &mut bench_alone);
    same(&rt, bench_alone.flush(), Err(SUPPLY_FAILED), 0);
    off_refused(&rt, &mut bench_alone, Layer::Device);
    Ok(())
}

// The fault comes up through the mirror, which then says itself that it is off.
#[test]
fn failing_supply_comes_up_through_a_mirror(rt: HostRuntime) -> Result<(), Fail> {
    let heap = rt.alloc();
    let mut bytes = vec![in heap; 0; 2020]?;
    bytes[2019] = 1; // the second copy of block 1 is torn
    let mut mirror = Mirror::new(bench(heap, bytes, &[0, 2, 0])?);
    same(&rt, mirror.restart(), Err(SUPPLY_FAILED), 0);
    off_refused(&rt, &mut mirror, Layer::Mirror);
    starts(&rt, &mut mirror);
    same(&rt, mirror.flush(), Err(SUPPLY_FAILED), 0);
    off_refused(&rt, &mut mirror, Layer::Mirror);
    starts(&rt, &mut mirror);
    same(
        &rt,
        mirror.write(0, &[1; BLOCK_BYTES]),
        Err(SUPPLY_FAILED),
        0,
    );
    off_refused(&rt, &mut mirror, Layer::Mirror);
    Ok(())
}

#[test]
fn torn_block_is_refused_by_the_bench(rt: HostRuntime) -> Result<(), Fail> {
    let heap = rt.alloc();
    let mut bytes = vec![in heap; 7; 1010]?; // block 0 is torn, as its last byte says
    bytes[1009] = 0;
    let mut bench = bench(heap, bytes, &[])?;
    let torn = Fault {
        reason: Reason::Torn,
        layer: Layer::Device,
        place: 0,
    };
    starts(&rt, &mut bench);
    read_refused(&rt, &mut bench, 0, torn);
    reads(&rt, &mut bench, 1, 7);
    writes(&rt, &mut bench, 0, 5);
    reads(&rt, &mut bench, 0, 5);
    Ok(())
}
