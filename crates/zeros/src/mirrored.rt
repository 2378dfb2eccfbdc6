ghost use Rattle.std.specs.Prelude.{◌≡◌, IfOk};
ghost use Rattle.stores.specs.Meanings.{Sound};
ghost use Rattle.images.specs.Images as images;
ghost use Rattle.images.specs.Images.{view_of};
ghost use Rattle.benches.specs.Benches as benches;
ghost use Rattle.benches.specs.Views.{contents_of};
ghost use Rattle.mirrors.specs.Mirrors.{mirror_meaning};
ghost use Rattle.zeros.specs.Zeros.{zero_image, zero_bench, mirror_seen, off_over};

use crate::devices::{zero_bench, zero_image};
use benches::Bench;
use images::Image;
use mirrors::Mirror;
use std::alloc::{AllocError, Global};

// A mirror over an image of zeros. It has half as many blocks.
#[tactic(auto, using(crate::proofs::Soundness::mirror_sound))]
pub fn mirrored_image(heap: Global, blocks: u32) -> Result<Mirror<Image>, AllocError>
    ensures exact { IfOk result (λ m. mirror_seen view_of m ≡ off_over (zero_image blocks)) }
    ensures sound { IfOk result (λ m. Sound (mirror_meaning m.on (images.meaning_of (view_of m.below)))) }
{
    Ok(Mirror::new(zero_image(heap, blocks)?))
}

// A mirror over a bench of zeros. It has half as many blocks.
#[tactic(auto, using(crate::proofs::Soundness::mirror_sound))]
pub fn mirrored_bench(
    heap: Global,
    blocks: u32,
    fuses: Vec<u32>,
    choices: Vec<u8>,
) -> Result<Mirror<Bench>, AllocError>
    ensures exact { IfOk result (λ m. mirror_seen contents_of m ≡ off_over (zero_bench blocks fuses.items choices.items)) }
    ensures sound { IfOk result (λ m. Sound (mirror_meaning m.on (benches.meaning_of (contents_of m.below)))) }
{
    Ok(Mirror::new(zero_bench(heap, blocks, fuses, choices)?))
}
