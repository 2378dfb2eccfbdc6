use faults::Fault;
use std::fmt::Debug;
use std::process::Abort;
use stores::{BLOCK_BYTES, Store};

// What is found is what is expected, in the case of this number. One function says it for all, since an assertion costs the check
// some seconds wherever it stands, and a call next to nothing.
pub(crate) fn same<T: PartialEq + Debug + Drop>(
    rt: &impl Abort,
    found: T,
    expected: T,
    case: usize,
) {
    assert_eq!(rt; found, expected, "case {case}");
}

// The store restarts.
pub(crate) fn starts<S: Store>(rt: &impl Abort, store: &mut S) {
    same(rt, store.restart(), Ok(()), 0);
}

// The store takes this byte throughout the block.
pub(crate) fn writes<S: Store>(rt: &impl Abort, store: &mut S, block: u32, value: u8) {
    let taken = store.write(block, &[value; BLOCK_BYTES]);
    same(rt, taken, Ok(()), block as usize);
}

// Every byte of the block is this one.
pub(crate) fn reads<S: Store>(rt: &impl Abort, store: &mut S, block: u32, value: u8) {
    let mut buf = [!value; BLOCK_BYTES];
    let read = store.read(block, &mut buf);
    same(rt, read, Ok(()), block as usize);
    let expected = [value; BLOCK_BYTES];
    same(rt, buf.as_slice(), expected.as_slice(), block as usize);
}

// The read of the block is refused with this fault, and nothing is written into the buffer.
pub(crate) fn read_refused<S: Store>(rt: &impl Abort, store: &mut S, block: u32, fault: Fault) {
    let mut buf = [170; BLOCK_BYTES];
    let read = store.read(block, &mut buf);
    same(rt, read, Err(fault), block as usize);
    let expected = [170; BLOCK_BYTES];
    same(rt, buf.as_slice(), expected.as_slice(), block as usize);
}
