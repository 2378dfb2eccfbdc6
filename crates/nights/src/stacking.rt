ghost use Rattle.std.specs.Prelude.{◌≡◌, IfOk, map};
ghost use Rattle.zeros.specs.Zeros.{zero_image, zero_bench, off_over};
ghost use Rattle.script.specs.Plans.{night_plan};
ghost use Rattle.script.specs.Outcomes.{outcomes_of};
ghost use Rattle.nights.specs.Stacks.{NightsFrom, on_image, on_mirrored_image, on_mirrored_bench, NightsOn};

use crate::playing::{Remains, on_store};
use faults::Fault;
use ledgers::Answer;
use records::RecordKind;
use script::{Night, Stack, Steady};
use std::alloc::{AllocError, Global};
use zeros::{mirrored_bench, mirrored_image, zero_image};

// What each of the nights came to, and the device's memory after them.
#[derive(Drop)]
pub struct Played<K> {
    pub outcomes: Vec<Result<Vec<Answer<K>>, Fault>>,
    pub memory: Vec<u8>,
}

// Plays nights on an image of zeros.
fn image<K: RecordKind>(
    heap: Global,
    blocks: u32,
    nights: &[Night<K>],
) -> Result<Played<K>, AllocError>
    ensures { IfOk result (λ p. NightsFrom (on_image K.CODE K.bytes K.wrong) (zero_image blocks) (λ v. v.bytes) (map night_plan nights.now) (outcomes_of p.outcomes) p.memory.items) }
{
    let Remains { store, outcomes } = on_store(heap, zero_image(heap, blocks)?, nights)?;
    Ok(Played {
        outcomes,
        memory: store.into_bytes(),
    })
}

// Plays nights on a mirror over an image of zeros.
fn mirror_image<K: RecordKind>(
    heap: Global,
    blocks: u32,
    nights: &[Night<K>],
) -> Result<Played<K>, AllocError>
    ensures { IfOk result (λ p. NightsFrom (on_mirrored_image K.CODE K.bytes K.wrong) (off_over (zero_image blocks)) (λ v. v.below.bytes) (map night_plan nights.now) (outcomes_of p.outcomes) p.memory.items) }
{
    let Remains { store, outcomes } = on_store(heap, mirrored_image(heap, blocks)?, nights)?;
    Ok(Played {
        outcomes,
        memory: store.into_below().into_bytes(),
    })
}

// Plays nights on a mirror over a bench of zeros.
fn mirror_bench<K: RecordKind>(
    heap: Global,
    blocks: u32,
    fuses: Vec<u32>,
    choices: Vec<u8>,
    nights: &[Night<K>],
) -> Result<Played<K>, AllocError>
    ensures { IfOk result (λ p. NightsFrom (on_mirrored_bench K.CODE K.bytes K.wrong) (off_over (zero_bench blocks fuses.items choices.items)) (λ v. v.below.mem) (map night_plan nights.now) (outcomes_of p.outcomes) p.memory.items) }
{
    let store = mirrored_bench(heap, blocks, fuses, choices)?;
    let Remains { store, outcomes } = on_store(heap, store, nights)?;
    Ok(Played {
        outcomes,
        memory: store.into_below().into_bytes(),
    })
}

// Builds a stack of zeros, plays these nights on it in order, and hands out what they came to and what they left.
pub fn play<K: RecordKind>(
    heap: Global,
    stack: Stack,
    fuses: Vec<u32>,
    choices: Vec<u8>,
    nights: &[Night<K>],
) -> Result<Played<K>, AllocError>
    ensures { IfOk result (λ p. NightsOn K.CODE K.bytes K.wrong stack.steady stack.blocks fuses.items choices.items (map night_plan nights.now) (outcomes_of p.outcomes) p.memory.items) }
{
    let blocks = stack.blocks;
    match stack.steady {
        Steady::Image => image(heap, blocks, nights),
        Steady::MirroredImage => mirror_image(heap, blocks, nights),
        Steady::MirroredBench => mirror_bench(heap, blocks, fuses, choices, nights),
    }
}
