ghost use Rattle.std.specs.Prelude.{◌≡◌, IfOk, map};
ghost use Rattle.stores.specs.Meanings.{Sound};
ghost use Rattle.laws.specs.Stages.{view};
ghost use Rattle.runs.specs.Runs.{setup};
ghost use Rattle.script.specs.Plans.{night_plan};
ghost use Rattle.nights.specs.Nights.{AfterFormat, NightWent, NightsWent};
ghost use Rattle.script.specs.Outcomes.{outcome_of, outcomes_of};

use faults::Fault;
use laws::Stage;
use ledgers::Answer;
use records::RecordKind;
use runs::{Run, work};
use samplers::Asleep;
use script::Night;
use std::alloc::{AllocError, Global};
use stores::SteadyStore;

// A sampler put to sleep after a night, and what each of the night's calls was answered, or why its format was refused.
#[derive(Drop)]
struct Morning<S: SteadyStore, K: RecordKind> {
    asleep: Asleep<S, K>,
    outcome: Result<Vec<Answer<K>>, Fault>,
}

// The store that nights left, and what each of them came to.
#[derive(Drop)]
pub(crate) struct Remains<S, K> {
    pub store: S,
    pub outcomes: Vec<Result<Vec<Answer<K>>, Fault>>,
}

// The sampler, put to sleep if it is awake.
fn to_sleep<S: SteadyStore, K: RecordKind>(stage: Stage<S, K>) -> Asleep<S, K>
    ensures { result.store ≡ (view stage).store }
{
    match stage {
        Stage::Sleeping(asleep) => asleep,
        Stage::Waking(awake) => awake.close(),
    }
}

// Makes the calls of a night, of the sampler that its format left.
fn after_format<S: SteadyStore + Drop, K: RecordKind>(
    heap: Global,
    asleep: Asleep<S, K>,
    night: &Night<K>,
) -> Result<Morning<S, K>, AllocError>
    ensures { IfOk result (λ m. AfterFormat (setup S.Store.state S.Store.meaning S.Store.does S.Store.own S.Store.source S.Store.steady K.CODE K.bytes K.wrong) asleep (night_plan night.now) (outcome_of m.outcome) m.asleep.store) }
{
    let calls = night.calls(heap)?;
    let Ok(Run { stage, answers }) = work(heap, asleep, &calls) else {
        return Err(AllocError);
    };
    Ok(Morning {
        asleep: to_sleep(stage),
        outcome: Ok(answers),
    })
}

// Formats the sampler and, where that is accepted, makes the night's calls.
fn play_night<S: SteadyStore + Drop, K: RecordKind>(
    heap: Global,
    mut asleep: Asleep<S, K>,
    night: &Night<K>,
) -> Result<Morning<S, K>, AllocError>
    ensures { IfOk result (λ m. Sound (S.Store.meaning (S.Store.state asleep.store)) → NightWent (setup S.Store.state S.Store.meaning S.Store.does S.Store.own S.Store.source S.Store.steady K.CODE K.bytes K.wrong) asleep.store (night_plan night.now) (outcome_of m.outcome) m.asleep.store) }
{
    match asleep.format(night.size, night.log_blocks, night.seed) {
        Ok(()) => after_format(heap, asleep, night),
        Err(fault) => Ok(Morning {
            asleep,
            outcome: Err(fault),
        }),
    }
}

// Plays nights on a store by one sampler, each on the card that the one before left.
pub(crate) fn on_store<S: SteadyStore + Drop, K: RecordKind>(
    heap: Global,
    store: S,
    nights: &[Night<K>],
) -> Result<Remains<S, K>, AllocError>
    ensures { IfOk result (λ l. Sound (S.Store.meaning (S.Store.state store)) → NightsWent (setup S.Store.state S.Store.meaning S.Store.does S.Store.own S.Store.source S.Store.steady K.CODE K.bytes K.wrong) store (map night_plan nights.now) (outcomes_of l.outcomes) l.store) }
{
    let mut asleep = Asleep::new(store);
    let mut outcomes = Vec::with_capacity(heap, nights.len())?;
    for night in nights {
        let morning = play_night(heap, asleep, night)?;
        asleep = morning.asleep;
        outcomes.push_reserved(morning.outcome);
    }
    Ok(Remains {
        store: asleep.into_store(),
        outcomes,
    })
}
