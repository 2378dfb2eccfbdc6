ghost use Rattle.std.specs.Prelude.{IfOk};
ghost use Rattle.languages.specs.Transcripts.{AtMostOne};
ghost use Rattle.replays.specs.Played.{Plays, Played};

use crate::answers::Answer;
use crate::replaying::replay;
use faults::Fault;
use std::alloc::{AllocError, Global};
use stores::Store;
use storescript::{Call, Device, Stack};
use zeros::{mirrored_bench, mirrored_image, zero_bench, zero_image};

// Replays calls on a store.
fn play_on<S: Store + Drop>(
    heap: Global,
    mut store: S,
    calls: &[Call],
) -> Result<Vec<Result<Answer, Fault>>, AllocError>
    ensures { IfOk result (λ answers. Plays S.Store.does (S.Store.state store) calls.now answers.items) }
{
    replay(heap, &mut store, calls)
}

// Builds a stack, makes these calls of it in order, and says what each was answered.
#[tactic(auto, using(crate::proofs::Determinacy::played_one))]
pub fn play(
    heap: Global,
    stack: Stack,
    fuses: Vec<u32>,
    choices: Vec<u8>,
    calls: &[Call],
) -> Result<Vec<Result<Answer, Fault>>, AllocError>
    ensures answers { IfOk result (λ answers. Played stack fuses.items choices.items calls.now answers.items) }
    ensures determined { AtMostOne (Played stack fuses.items choices.items calls.now) }
{
    let blocks = stack.blocks;
    match (stack.device, stack.mirrored) {
        (Device::Image, false) => play_on(heap, zero_image(heap, blocks)?, calls),
        (Device::Image, true) => play_on(heap, mirrored_image(heap, blocks)?, calls),
        (Device::Bench, false) => play_on(heap, zero_bench(heap, blocks, fuses, choices)?, calls),
        (Device::Bench, true) => play_on(
            heap,
            mirrored_bench(heap, blocks, fuses, choices)?,
            calls,
        ),
    }
}
