use crate::looking::same;
use faults::{Fault, Layer, Reason};
use ledgers::{Answer, Call};
use nighttexts::{memory, offset_nights};
use records::Offset;
use script::{Ask, Night};
use std::alloc::{AllocError, Global};
use std::test::Fail;

const OFF: Fault = Fault {
    reason: Reason::Off,
    layer: Layer::Device,
    place: 0,
};

const NO_SUCH_SATELLITE: Fault = Fault {
    reason: Reason::NoSuchRecord,
    layer: Layer::Record,
    place: 4,
};

const EMPTY: Fault = Fault {
    reason: Reason::EmptySlot,
    layer: Layer::Sampler,
    place: 1,
};

// A night of two slots whose commit meets a cut, with a report asleep, awake and dark.
fn night(heap: Global, record: Offset) -> Result<Night<Offset>, AllocError> {
    Ok(Night {
        size: 2,
        log_blocks: 1,
        seed: 7,
        asks: vec![in heap;
            Ask::Calls(Call::Mount),
            Ask::Report,
            Ask::Calls(Call::Wake),
            Ask::Calls(Call::Insert(record)),
            Ask::NoSuchRecord(NO_SUCH_SATELLITE),
            Ask::Report,
            Ask::Calls(Call::Commit),
            Ask::Report,
            Ask::Calls(Call::Close),
        ]?,
    })
}

fn answers(heap: Global, record: Offset) -> Result<Vec<Answer<Offset>>, AllocError> {
    Ok(vec![in heap;
        Answer::Mounted(0),
        Answer::OutOfTurn,
        Answer::OutOfTurn,
        Answer::Woken,
        Answer::Inserted(Some(0)),
        Answer::Found(record),
        Answer::Refused(EMPTY),
        Answer::Refused(OFF),
        Answer::Refused(OFF),
        Answer::Refused(OFF),
        Answer::Closed,
    ]?)
}

// The second night's format is refused, so what it asks is skipped.
const LINES: &str = "format ok
mount ok 0
counted 0 settled 0 waiting none open
wake ok
insert ok 0
insert refused 5 4 4
counted 1 settled 0 waiting none open
slot 0: 103 4 -8
mean -8.000 ns over 1
commit refused 21 1 0
counted 1 settled 0 waiting 1 shut
close ok
format refused 21 1 0
mount skipped
report skipped
wake skipped
insert skipped
insert skipped
report skipped
commit skipped
report skipped
close skipped
";

#[test]
fn a_night_with_a_cut_and_a_skipped_one(rt: HostRuntime) -> Result<(), Fail> {
    let heap = rt.alloc();
    let record = Offset::new(103, 4, -8).map_err(|_fault| AllocError)?;
    let nights = vec![in heap; night(heap, record)?, night(heap, record)?]?;
    let outcomes = vec![in heap; Ok(answers(heap, record)?), Err(OFF)]?;
    let mut out = String::new(heap);
    offset_nights(heap, &mut out, nights.as_slice(), outcomes.as_slice())?;
    same(&rt, out.as_str(), LINES, 0);
    Ok(())
}

#[test]
fn memory_is_hexadecimal_a_block_a_line(rt: HostRuntime) -> Result<(), Fail> {
    let heap = rt.alloc();
    let mut out = String::new(heap);
    memory(&mut out, 3, &[0, 10, 255, 16, 1, 160])?;
    same(&rt, out.as_str(), "000aff\n1001a0\n", 0);
    Ok(())
}
