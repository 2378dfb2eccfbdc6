ghost use Rattle.std.specs.Prelude.{◌≡◌, MatchResult};
ghost use Rattle.replays.specs.Answers.{Answered, Replayed};
ghost use Rattle.storescript.specs.declared.calls.Call.TheVariants.{Read};

use crate::answers::Answer;
use faults::Fault;
use std::alloc::{AllocError, Global};
use stores::{BLOCK_BYTES, Store};
use storescript::Call;

// Reads a block, into a buffer that is zero.
fn read<S: Store>(store: &mut S, block: u32) -> Result<Answer, Fault>
    ensures { Answered S.Store.does (S.Store.state store.old) (Read block) result (S.Store.state store.new) }
{
    let mut block_bytes = [0; BLOCK_BYTES];
    store.read(block, &mut block_bytes)?;
    Ok(Answer::of_block(&block_bytes))
}

// Makes one call.
fn make<S: Store>(store: &mut S, call: Call) -> Result<Answer, Fault>
    ensures { Answered S.Store.does (S.Store.state store.old) call result (S.Store.state store.new) }
{
    let done = Ok(Answer::Done);
    match call {
        Call::Restart => store.restart().and(done),
        Call::Flush => store.flush().and(done),
        Call::Read { block } => read(store, block),
        Call::Write { block, value } => store.write(block, &[value; BLOCK_BYTES]).and(done),
    }
}

// Makes these calls in order, each where the one before ended, accepted or refused. Where memory for the answers is
// wanting, no call is made.
pub fn replay<S: Store>(
    heap: Global,
    store: &mut S,
    calls: &[Call],
) -> Result<Vec<Result<Answer, Fault>>, AllocError>
    ensures { MatchResult result (λ answers. Replayed S.Store.does (S.Store.state store.old) calls.now answers.items (S.Store.state store.new)) (λ _. store.new ≡ store.old) }
{
    let mut answers = Vec::with_capacity(heap, calls.len())?;
    for call in calls {
        answers.push_reserved(make(store, *call));
    }
    Ok(answers)
}
