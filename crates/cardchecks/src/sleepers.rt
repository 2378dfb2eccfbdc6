use crate::handmade::{CARD_BYTES, logged_card, offset_bytes, put};
use crate::same::same;
use faults::{Fault, Layer, Reason};
use images::Image;
use records::{Offset, RecordKind};
use samplers::{Asleep, Awake};
use std::process::Abort;
use std::test::Fail;

type Sleeper = Asleep<Image, Offset>;

fn by_sampler(reason: Reason, place: u64) -> Fault {
    Layer::Sampler.fault(reason, place)
}

// A dark sampler refuses every slot, also one that no sample has, before it looks at the number.
fn is_dark(rt: &impl Abort, awake: &Awake<Image, Offset>) {
    for slot in [0, 1, 672, 65_535] {
        let dark = Err(by_sampler(Reason::Off, 0));
        same(rt, awake.slot(slot), dark, usize::from(slot));
    }
}

// A sampler with this many slots, of which none is filled.
fn is_empty(rt: &impl Abort, awake: &Awake<Image, Offset>, size: u16) {
    for slot in 0..size { // slot up to size - 1
        let empty = Err(by_sampler(Reason::EmptySlot, u64::from(slot)));
        same(rt, awake.slot(slot), empty, usize::from(slot));
    }
    let none = Err(by_sampler(Reason::NoSuchSlot, u64::from(size)));
    same(rt, awake.slot(size), none, usize::from(size));
}

#[test]
fn sampler_is_dark_unless_it_wakes_from_a_format_or_mount(rt: HostRuntime) -> Result<(), Fail> {
    let heap = rt.alloc();
    let awake = Sleeper::new(Image::new(logged_card(heap)?)).wake();
    is_dark(&rt, &awake);
    let mut asleep = awake.close();
    same(&rt, asleep.mount(), Ok(5), 0);
    let awake = asleep.wake();
    for (slot, k) in [(0, 4), (1, 3)] {
        let expected = Offset::decode(&offset_bytes(k));
        same(&rt, awake.slot(slot), expected, usize::from(slot));
    }
    let none = Err(by_sampler(Reason::NoSuchSlot, 2));
    same(&rt, awake.slot(2), none, 2);
    is_dark(&rt, &awake.close().wake());
    Ok(())
}

// Slots and log blocks, and what a store of three blocks refuses them for: the slots before the log blocks.
const REFUSED: [(u16, u8, Reason, u64); 6] = [
    (0, 0, Reason::OutOfLimits, 0),
    (673, 65, Reason::OutOfLimits, 673),
    (2, 0, Reason::OutOfLimits, 0),
    (672, 65, Reason::OutOfLimits, 65),
    (43, 1, Reason::StoreTooSmall, 3),
    (42, 2, Reason::StoreTooSmall, 3),
];

#[test]
fn refused_format_changes_nothing_and_wakes_dark(rt: HostRuntime) -> Result<(), Fail> {
    let heap = rt.alloc();
    let before = logged_card(heap)?;
    for (size, log_blocks, reason, place) in &REFUSED {
        let case = usize::from(*size);
        let mut asleep = Sleeper::new(Image::new(before.to_vec(heap)?));
        same(&rt, asleep.mount(), Ok(5), case);
        let refused = Err(by_sampler(*reason, *place));
        same(&rt, asleep.format(*size, *log_blocks, 9), refused, case);
        let awake = asleep.wake();
        is_dark(&rt, &awake);
        let bytes = awake.close().into_store().into_bytes();
        same(&rt, bytes.as_slice(), before.as_slice(), case);
    }
    Ok(())
}

#[test]
fn format_writes_the_head_and_zeros_and_nothing_else(rt: HostRuntime) -> Result<(), Fail> {
    let heap = rt.alloc();
    let mut expected = vec![in heap; 7; CARD_BYTES + 504]?;
    let mut asleep = Sleeper::new(Image::new(expected.to_vec(heap)?));
    same(&rt, asleep.format(42, 1, 0x0102_0304_0506_0708), Ok(()), 0);
    let awake = asleep.wake();
    is_empty(&rt, &awake, 42);
    let head = [1, 0, 18, 1, 1, 0, 42, 1, 2, 3, 4, 5, 6, 7, 8];
    put(&mut expected, 0, &[0; 1008]);
    put(&mut expected, 0, &head);
    let bytes = awake.close().into_store().into_bytes();
    same(&rt, bytes.as_slice(), expected.as_slice(), 0);
    Ok(())
}

#[test]
fn formatted_card_mounts_with_no_records(rt: HostRuntime) -> Result<(), Fail> {
    let heap = rt.alloc();
    let mut asleep = Sleeper::new(Image::new(vec![in heap; 7; CARD_BYTES]?));
    same(&rt, asleep.mount(), Err(by_sampler(Reason::BadHead, 0)), 0);
    let awake = asleep.wake();
    is_dark(&rt, &awake);
    let mut asleep = awake.close();
    same(&rt, asleep.format(2, 1, 0), Ok(()), 1);
    same(&rt, asleep.mount(), Ok(0), 1);
    let awake = asleep.wake();
    is_empty(&rt, &awake, 2);
    // The layers are put together anew, over what the sampler's life left.
    let bytes = awake.close().into_store().into_bytes();
    let mut asleep = Sleeper::new(Image::new(bytes));
    same(&rt, asleep.mount(), Ok(0), 2);
    is_empty(&rt, &asleep.wake(), 2);
    Ok(())
}
