use crate::accounts::{Account, CUT, holds};
use crate::evenings::record;
use benches::{Bench, Given};
use faults::{Layer, Reason};
use laws::Stage;
use ledgers::{Answer, Call};
use mirrors::Mirror;
use records::Offset;
use runs::{Run, work};
use samplers::Asleep;
use std::alloc::{AllocError, Global};
use std::process::Abort;
use std::test::Fail;

type Device = Mirror<Bench>;

// More calls than any run here makes.
const LASTING: u32 = 1000;

// What a format makes of one sample block: three blocks written, each by two writes and two flushes, and three flushes.
const FORMAT_CALLS: u32 = 15;

// The first at which the zero head is settled, so that the old card is gone; and the first at which a new head may stand.
const ZEROED: u32 = 2;

const HEADED: u32 = 10;

// The first at which the new head's first copy is settled.
const SETTLED: u32 = 12;

// The sampler, put to sleep if it is awake.
fn asleep_of(stage: Stage<Device, Offset>) -> Asleep<Device, Offset> {
    match stage {
        Stage::Sleeping(asleep) => asleep,
        Stage::Waking(awake) => awake.close(),
    }
}

fn worked(
    heap: Global,
    asleep: Asleep<Device, Offset>,
    calls: &[Call<Offset>],
) -> Result<Run<Device, Offset>, AllocError> {
    work(heap, asleep, calls).map_err(|_asleep| AllocError)
}

// A sampler over a mirror of a bench of zeros, whose supply fails at this call of its second restart.
fn on_bench(heap: Global, fuse: u32, choice: u8) -> Result<Asleep<Device, Offset>, AllocError> {
    let given = Given {
        bytes: vec![in heap; 0; 3030]?,
        fuses: [LASTING, fuse].to_vec(heap)?,
        choices: [choice].to_vec(heap)?,
    };
    let bench = Bench::new(heap, given).map_err(|_given| AllocError)?;
    Ok(Asleep::new(Mirror::new(bench)))
}

// Whether a cut at this call of a format may leave a card that mounts with so many records, or with none, at this call.
fn may_mount(answer: Option<&Answer<Offset>>, fuse: u32) -> bool {
    match answer {
        Some(Answer::Mounted(0)) => fuse >= HEADED,
        Some(Answer::Mounted(_)) => fuse < ZEROED,
        _ => fuse < SETTLED,
    }
}

// The account of a card of two slots on which three records were settled, and the sampler over it.
fn settled(
    heap: Global,
    asleep: Asleep<Device, Offset>,
) -> Result<(Account<Offset>, Asleep<Device, Offset>), AllocError> {
    let no_head = Layer::Sampler.fault(Reason::BadHead, 0);
    let mut account = Account::opened(heap, 2, 0, Some(no_head));
    let evening = [
        Call::Wake,
        Call::Insert(record(1)?),
        Call::Insert(record(2)?),
        Call::Insert(record(3)?),
        Call::Commit,
        Call::Close,
    ];
    let Run { stage, answers } = worked(heap, asleep, &evening)?;
    account.enter(&evening, &answers)?;
    Ok((account, asleep_of(stage)))
}

// A format of two slots, three records of which all are settled, and a format of three slots that is cut at this call: the card
// is then the one before it, or none, or the new one, and each is that whole.
fn reformatted(rt: &impl Abort, heap: Global, fuse: u32, choice: u8) -> Result<(), AllocError> {
    let then = u32::from(choice);
    let mut asleep = on_bench(heap, fuse, choice)?;
    holds(rt, asleep.format(2, 1, 0) == Ok(()), fuse, then);
    let (mut account, mut asleep) = settled(heap, asleep)?;
    holds(rt, asleep.format(3, 1, 1) == Err(CUT), fuse, then);
    let morning = [
        Call::Mount,
        Call::Wake,
        Call::Slot(0),
        Call::Slot(1),
        Call::Slot(2),
    ];
    let Run { stage: _, answers } = worked(heap, asleep, &morning)?;
    holds(rt, may_mount(answers.first(), fuse), fuse, then);
    if let Some(Answer::Mounted(0)) = answers.first() {
        account = Account::opened(heap, 3, 1, None);
    }
    account.enter(&morning, &answers)?;
    holds(rt, account.fits, fuse, then);
    Ok(())
}

#[test]
fn a_cut_format_leaves_the_old_card_or_none_or_the_new(rt: HostRuntime) -> Result<(), Fail> {
    for case in 0..4 * FORMAT_CALLS { // case up to 4 * FORMAT_CALLS - 1
        reformatted(&rt, rt.alloc(), case / 4, (case % 4) as u8)?;
    }
    Ok(())
}
