ghost use Rattle.runs.specs.Runs.{setup};
ghost use Rattle.laws.specs.Stages.{Went};
ghost use Rattle.laws.specs.declared.stages.Stage.TheVariants.{Sleeping, Waking};

use laws::Stage;
use ledgers::{Answer, Call};
use records::RecordKind;
use samplers::{Asleep, Awake};
use stores::SteadyStore;

// A call of a sampler that sleeps. The calls of a waking one are out of turn, and change nothing. Neither this
// nor the call below is inlined, since LLVM takes a minute longer then for the six samplers of a program that plays nights.
#[inline(never)]
fn of_sleeping<S: SteadyStore, K: RecordKind>(
    mut asleep: Asleep<S, K>,
    call: &Call<K>,
) -> (Stage<S, K>, Answer<K>)
    ensures { Went (setup S.Store.state S.Store.meaning S.Store.does S.Store.own S.Store.source S.Store.steady K.CODE K.bytes K.wrong) (Sleeping asleep) call.now result.1 result.0 }
{
    match call {
        Call::Mount => {
            let answer = match asleep.mount() {
                Ok(count) => Answer::Mounted(count),
                Err(fault) => Answer::Refused(fault),
            };
            (Stage::Sleeping(asleep), answer)
        }
        Call::Wake => (Stage::Waking(asleep.wake()), Answer::Woken),
        Call::Insert(_) | Call::Commit | Call::Refresh | Call::Slot(_) | Call::Close => {
            (Stage::Sleeping(asleep), Answer::OutOfTurn)
        }
    }
}

// A call of a sampler that is awake. Mount and wake are out of turn.
#[inline(never)]
fn of_waking<S: SteadyStore, K: RecordKind>(
    mut awake: Awake<S, K>,
    call: &Call<K>,
) -> (Stage<S, K>, Answer<K>)
    ensures { Went (setup S.Store.state S.Store.meaning S.Store.does S.Store.own S.Store.source S.Store.steady K.CODE K.bytes K.wrong) (Waking awake) call.now result.1 result.0 }
{
    let answer = match call {
        Call::Insert(taken) => match awake.insert(taken) {
            Ok(slot) => Answer::Inserted(slot),
            Err(fault) => Answer::Refused(fault),
        },
        Call::Commit => match awake.commit() {
            Ok(count) => Answer::Committed(count),
            Err(fault) => Answer::Refused(fault),
        },
        Call::Refresh => match awake.refresh() {
            Ok(blocks) => Answer::Refreshed(u32::from(blocks)),
            Err(fault) => Answer::Refused(fault),
        },
        Call::Slot(slot) => match awake.slot(*slot) {
            Ok(found) => Answer::Found(found),
            Err(fault) => Answer::Refused(fault),
        },
        Call::Close => return (Stage::Sleeping(awake.close()), Answer::Closed),
        Call::Mount | Call::Wake => Answer::OutOfTurn,
    };
    (Stage::Waking(awake), answer)
}

// Makes one call of a sampler.
pub(crate) fn step<S: SteadyStore, K: RecordKind>(
    stage: Stage<S, K>,
    call: &Call<K>,
) -> (Stage<S, K>, Answer<K>)
    ensures { Went (setup S.Store.state S.Store.meaning S.Store.does S.Store.own S.Store.source S.Store.steady K.CODE K.bytes K.wrong) stage call.now result.1 result.0 }
{
    match stage {
        Stage::Sleeping(asleep) => of_sleeping(asleep, call),
        Stage::Waking(awake) => of_waking(awake, call),
    }
}
