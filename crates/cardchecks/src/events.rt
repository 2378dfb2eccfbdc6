use crate::handmade::{SAMPLE, card, put};
use crate::same::same;
use cardreads::read_card;
use failures::Failure;
use faults::{Fault, Layer, Reason};
use records::Event;
use std::alloc::{AllocError, Global};
use std::test::Fail;

// Two events: a satellite lost at second 7, and a holdover at second 9.
pub(crate) fn events(heap: Global) -> Result<Vec<u8>, AllocError> {
    let mut bytes = card(heap, 2, 2, 0)?;
    put(&mut bytes, SAMPLE, &[0, 0, 0, 7, 1, 31, 0, 0, 0, 0, 0, 0]);
    put(
        &mut bytes,
        SAMPLE + 12,
        &[0, 0, 0, 9, 3, 0, 0, 0, 0, 0, 0, 0],
    );
    Ok(bytes)
}

// One byte of them, and the slot that is refused for it: what happened, which satellite, the zeros.
const DAMAGED: [(usize, u8, u64); 8] = [
    (SAMPLE + 0, 255, 0),
    (SAMPLE + 4, 0, 0),
    (SAMPLE + 4, 4, 0),
    (SAMPLE + 5, 32, 0),
    (SAMPLE + 6, 1, 0),
    (SAMPLE + 11, 1, 0),
    (SAMPLE + 17, 1, 1),
    (SAMPLE + 23, 1, 1),
];

#[test]
fn damaged_event_is_refused_at_its_slot(rt: HostRuntime) -> Result<(), Fail> {
    let heap = rt.alloc();
    for (place, byte, slot) in &DAMAGED {
        let mut bytes = events(heap)?;
        put(&mut bytes, *place, &[*byte]);
        let fault = Fault {
            reason: Reason::BadSlot,
            layer: Layer::Sampler,
            place: *slot,
        };
        let (_bytes, read) = read_card::<Event>(heap, bytes);
        let found = match read {
            Err(Failure::Because(found)) => Some(found),
            _ => None,
        };
        same(&rt, found, Some(fault), *place);
    }
    Ok(())
}
