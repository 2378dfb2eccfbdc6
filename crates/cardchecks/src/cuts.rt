use crate::accounts::{Account, holds};
use crate::evenings::{Evening, Step};
use faults::{Layer, Reason};
use nights::play;
use records::{Event, Offset, RecordKind};
use script::{Night, Stack, Steady};
use std::alloc::{AllocError, Global};
use std::process::Abort;
use std::test::Fail;

// Three blocks are written by a format of one sample block, and settled before each and after the last.
const FORMAT_CALLS: u32 = 15;

// A commit writes the log block in work and the head, and settles each; with nothing new the head alone.
const COMMIT_CALLS: u32 = 10;

const IDLE_CALLS: u32 = 6;

// After the calls of a commit, a refresh of one block writes it and the head, and settles each.
const REFRESH_CALLS: u32 = 10;

// Insert 31 writes the log's only block, insert 32 is refused, and after a refresh there is room again.
const FULL_LOG: Evening = Evening {
    size: 33,
    log_blocks: 1,
    blocks: 6,
    steps: &[
        Step::Wake,
        Step::Insert(32),
        Step::Refresh,
        Step::Insert(2),
        Step::Commit,
        Step::Morning,
        Step::Insert(1),
        Step::Refresh,
        Step::Morning,
    ],
    calls: FORMAT_CALLS + 4 + IDLE_CALLS + REFRESH_CALLS + COMMIT_CALLS,
    refused: 1,
    counted: 34,
};

const TWO_BLOCKS: Evening = Evening {
    size: 43,
    log_blocks: 2,
    blocks: 10,
    steps: &[
        Step::Wake,
        Step::Insert(43),
        Step::Refresh,
        Step::Morning,
        Step::Insert(3),
        Step::Commit,
        Step::Morning,
    ],
    calls: FORMAT_CALLS + 4 + 4 + COMMIT_CALLS + 4 + REFRESH_CALLS,
    refused: 0,
    counted: 46,
};

// With the seed 0, two slots take record 3 and record 4, and record 5 has no slot.
const FIVE: Evening = Evening {
    size: 2,
    log_blocks: 1,
    blocks: 6,
    steps: &[
        Step::Wake,
        Step::Insert(2),
        Step::Commit,
        Step::Insert(2),
        Step::Refresh,
        Step::Insert(1),
        Step::Commit,
        Step::Morning,
        Step::Insert(3),
        Step::Refresh,
        Step::Morning,
    ],
    calls: FORMAT_CALLS + COMMIT_CALLS + COMMIT_CALLS + REFRESH_CALLS + IDLE_CALLS,
    refused: 0,
    counted: 8,
};

// Commits and refreshes with nothing new between.
const IDLE: Evening = Evening {
    size: 2,
    log_blocks: 1,
    blocks: 6,
    steps: &[
        Step::Wake,
        Step::Commit,
        Step::Insert(2),
        Step::Commit,
        Step::Commit,
        Step::Refresh,
        Step::Refresh,
        Step::Commit,
        Step::Morning,
        Step::Commit,
        Step::Refresh,
        Step::Morning,
    ],
    calls: FORMAT_CALLS + COMMIT_CALLS + REFRESH_CALLS + 5 * IDLE_CALLS,
    refused: 0,
    counted: 2,
};

const EVENINGS: [Evening; 4] = [FULL_LOG, TWO_BLOCKS, FIVE, IDLE];

// What an account says after a night.
#[derive(Clone, Copy)]
struct Outcome {
    fits: bool,
    cuts: u32,
    refused: u32,
    counted: usize,
}

// Plays a night on a stack, and enters what it was answered. A night whose format is cut has no calls to enter.
fn played<K: RecordKind + PartialEq>(
    heap: Global,
    stack: Stack,
    fuses: &[u32],
    choices: &[u8],
    night: &[Night<K>; 1],
) -> Result<Outcome, AllocError> {
    let [asked] = night;
    let full = Layer::Sampler.fault(Reason::LogFull, 31);
    let mut account = Account::opened(heap, asked.size, asked.seed, Some(full));
    let left = play(
        heap,
        stack,
        fuses.to_vec(heap)?,
        choices.to_vec(heap)?,
        night,
    )?;
    match left.outcomes.first() {
        Some(Ok(answers)) => account.enter(&asked.calls(heap)?, answers)?,
        Some(Err(fault)) => account.cut(*fault),
        None => account.fits = false,
    }
    Ok(Outcome {
        fits: account.fits,
        cuts: account.cuts,
        refused: account.refused,
        counted: account.counted(),
    })
}

#[derive(Clone, Copy)]
enum Kind {
    Offsets,
    Events,
}

// An evening of records of a kind. A match of two kinds and no type parameter, so that what calls it has no kind to go through.
fn evening_of(
    heap: Global,
    kind: Kind,
    evening: &Evening,
    steady: Steady,
    fuses: &[u32],
    choices: &[u8],
) -> Result<Outcome, AllocError> {
    let blocks = evening.blocks;
    let stack = Stack { steady, blocks };
    match kind {
        Kind::Offsets => {
            let night = [evening.night::<Offset>(heap)?];
            played(heap, stack, fuses, choices, &night)
        }
        Kind::Events => {
            let night = [evening.night::<Event>(heap)?];
            played(heap, stack, fuses, choices, &night)
        }
    }
}

// An evening on each stack, with a supply that lasts: it does all that it is to do.
fn lasts(rt: &impl Abort, heap: Global, kind: Kind, evening: &Evening) -> Result<(), AllocError> {
    for steady in [Steady::Image, Steady::MirroredImage, Steady::MirroredBench] {
        let outcome = evening_of(heap, kind, evening, steady, &[evening.calls], &[])?;
        let fine = outcome.fits
            && outcome.cuts == 0
            && outcome.refused == evening.refused
            && outcome.counted == evening.counted;
        holds(rt, fine, evening.calls, 0);
    }
    Ok(())
}

// An evening on a bench whose power is cut at each call of the evening, with each of four choices of what the cut leaves.
fn cut_everywhere(
    rt: &impl Abort,
    heap: Global,
    kind: Kind,
    evening: &Evening,
) -> Result<(), AllocError> {
    for case in 0..evening.calls.saturating_mul(4) { // case up to 4 * calls - 1
        let (fuse, choice) = (case / 4, case % 4);
        let bench = Steady::MirroredBench;
        let outcome = evening_of(heap, kind, evening, bench, &[fuse], &[(case % 4) as u8])?;
        holds(rt, outcome.fits && outcome.cuts == 1, fuse, choice);
    }
    Ok(())
}

// An evening of either kind, with a supply that lasts and with one that is cut.
fn holds_of_both_kinds(rt: &impl Abort, heap: Global, evening: &Evening) -> Result<(), AllocError> {
    for kind in [Kind::Offsets, Kind::Events] {
        lasts(rt, heap, kind, evening)?;
        cut_everywhere(rt, heap, kind, evening)?;
    }
    Ok(())
}

// 1664 nights that are cut, and 24 that are not.
#[test]
fn nights_survive_a_cut_at_every_call(rt: HostRuntime) -> Result<(), Fail> {
    for evening in &EVENINGS {
        holds_of_both_kinds(&rt, rt.alloc(), evening)?;
    }
    Ok(())
}

// A commit of two records, and after a morning a refresh of three.
const SHORT: Evening = Evening {
    size: 2,
    log_blocks: 1,
    blocks: 6,
    steps: &[
        Step::Wake,
        Step::Insert(2),
        Step::Commit,
        Step::Morning,
        Step::Insert(1),
        Step::Refresh,
        Step::Morning,
    ],
    calls: FORMAT_CALLS + COMMIT_CALLS,
    refused: 0,
    counted: 3,
};

// A mount after a cut mends one block at most, by a write and a flush; then come the calls of a refresh.
const SECOND_CALLS: u32 = 2 + COMMIT_CALLS + REFRESH_CALLS;

// Cut at each call of the commit, with each of four choices, and then at each call from the mount to the refresh after it, and at
// none, where the block written last is kept or torn: 1840 nights.
#[test]
fn offsets_survive_two_cuts(rt: HostRuntime) -> Result<(), Fail> {
    let seconds = SECOND_CALLS + 1;
    for case in 0..8 * seconds * COMMIT_CALLS { // case up to 1839
        let first = FORMAT_CALLS + case / 8 / seconds;
        let second = case / 8 % seconds;
        let outcome = evening_of(
            rt.alloc(),
            Kind::Offsets,
            &SHORT,
            Steady::MirroredBench,
            &[first, second],
            &[(case % 4) as u8, (case / 4 % 2 + 1) as u8],
        )?;
        let met = (outcome.cuts == 2 && second < SECOND_CALLS)
            || (outcome.cuts == 1 && second >= COMMIT_CALLS + REFRESH_CALLS);
        holds(&rt, outcome.fits && met, first, second);
    }
    Ok(())
}
