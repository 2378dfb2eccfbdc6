use crate::looking::same;
use faults::{Fault, Layer, Reason};
use records::{Event, Offset, RecordKind};
use std::process::Abort;
use std::test::Fail;

#[test]
fn fault_reads_with_number_layer_and_place(rt: HostRuntime) -> Result<(), Fail> {
    let fault = Fault {
        reason: Reason::NoSuchRecord,
        layer: Layer::Record,
        place: 8,
    };
    let text = format!(in rt.alloc(); "{fault}")?;
    same(
        &rt,
        text.as_str(),
        "refusal 5 (no such record) of layer 4 (record) at place 8",
        0,
    );
    Ok(())
}

// Twelve bytes or fewer of an offset, and the number and place of what they are refused for; none where they are read.
const OFFSETS: [(&[u8], Option<(u8, u64)>); 6] = [
    (
        &[0, 9, 0x3A, 0x7F, 31, 0, 0, 0, 0xFF, 0xFF, 0xFF, 0xFF],
        None,
    ),
    (
        &[0, 9, 0x3A, 0x7F, 31, 0, 0, 0, 0xFF, 0xFF, 0xFF],
        Some((2, 11)),
    ),
    (&[0, 9, 0x3A, 0x80, 32, 0, 0, 1, 0, 0, 0, 0], Some((5, 0))),
    (&[0, 9, 0x3A, 0x7F, 32, 0, 0, 1, 0, 0, 0, 0], Some((5, 4))),
    (
        &[0, 9, 0x3A, 0x7F, 31, 0, 0, 1, 0x7F, 0, 0, 0],
        Some((5, 5)),
    ),
    (
        &[0, 9, 0x3A, 0x7F, 31, 0, 0, 0, 0x7F, 0, 0, 0],
        Some((5, 8)),
    ),
];

// The same of an event.
const EVENTS: [(&[u8], Option<(u8, u64)>); 4] = [
    (&[0, 0, 0, 1, 3, 0, 0, 0, 0, 0, 0, 0], None),
    (&[0, 0, 0, 1, 4, 32, 0, 0, 0, 0, 0, 1], Some((5, 4))),
    (&[0, 0, 0, 1, 3, 1, 0, 0, 0, 0, 0, 1], Some((5, 5))),
    (&[0, 0, 0, 1, 2, 31, 0, 0, 0, 0, 0, 1], Some((5, 6))),
];

// Bytes are refused at the first wrong field. It is told by its number, since the numbers of the format are what is tested.
fn are_refused<K: RecordKind>(rt: &impl Abort, records: &[(&[u8], Option<(u8, u64)>)]) {
    for (case, (bytes, expected)) in records.iter().enumerate() {
        let fault = K::decode(bytes).err();
        let found = fault.map(|fault| (u8::from(fault.reason), fault.place));
        same(rt, found, *expected, case);
    }
}

#[test]
fn bytes_are_refused_at_the_first_wrong_field(rt: HostRuntime) {
    are_refused::<Offset>(&rt, &OFFSETS);
    are_refused::<Event>(&rt, &EVENTS);
}
