ghost use Rattle.std.specs.Prelude.{◌≡◌, MatchResult};
ghost use Rattle.runs.specs.Runs.{setup, AllWent};
ghost use Rattle.laws.specs.Laws.{Law, FormatLaw};
ghost use Rattle.laws.specs.declared.stages.Stage.TheVariants.{Sleeping};

use crate::steps::step;
use laws::Stage;
use ledgers::{Answer, Call};
use records::RecordKind;
use samplers::Asleep;
use std::alloc::Global;
use stores::SteadyStore;

// A sampler after calls, and what each was answered.
#[derive(Drop)]
pub struct Run<S: SteadyStore, K: RecordKind> {
    pub stage: Stage<S, K>,
    pub answers: Vec<Answer<K>>,
}

// Works a sampler by these calls in order, and answers what each answered. The room for the answers is taken first: where
// there is no memory for them, no call is made, and the sampler comes back.
pub fn work<S: SteadyStore, K: RecordKind>(
    heap: Global,
    asleep: Asleep<S, K>,
    calls: &[Call<K>],
) -> Result<Run<S, K>, Asleep<S, K>>
    ensures law { MatchResult result (λ r. Law (setup S.Store.state S.Store.meaning S.Store.does S.Store.own S.Store.source S.Store.steady K.CODE K.bytes K.wrong) asleep calls.now r.answers.items r.stage) (λ back. back ≡ asleep) }
    ensures went { MatchResult result (λ r. AllWent (setup S.Store.state S.Store.meaning S.Store.does S.Store.own S.Store.source S.Store.steady K.CODE K.bytes K.wrong) (Sleeping asleep) calls.now r.answers.items r.stage) (λ back. back ≡ asleep) }
    ensures format { FormatLaw {K = K} (setup S.Store.state S.Store.meaning S.Store.does S.Store.own S.Store.source S.Store.steady K.CODE K.bytes K.wrong) }
{
    let Ok(mut answers) = Vec::with_capacity(heap, calls.len()) else {
        return Err(asleep);
    };
    let mut stage = Stage::Sleeping(asleep);
    for call in calls {
        let (next, answer) = step(stage, call);
        stage = next;
        answers.push_reserved(answer);
    }
    Ok(Run { stage, answers })
}
