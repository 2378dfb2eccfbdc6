ghost use Rattle.std.specs.Prelude.{◌≡◌, IfOk};
ghost use Rattle.stores.specs.Meanings.{Sound};
ghost use Rattle.images.specs.Images as images;
ghost use Rattle.images.specs.Images.{view_of};
ghost use Rattle.benches.specs.Benches as benches;
ghost use Rattle.benches.specs.Views.{contents_of};
ghost use Rattle.zeros.specs.Zeros.{zero_image, zero_bench};

use benches::{Bench, Given};
use images::Image;
use std::alloc::{AllocError, Global};
use stores::BLOCK_BYTES;

// How many bytes a bench has for a block: its bytes, and whether it is torn.
const BENCH_BLOCK_BYTES: usize = BLOCK_BYTES + 1;

// An image whose memory is all zero.
#[tactic(auto, using(crate::proofs::Soundness::image_sound))]
pub fn zero_image(heap: Global, blocks: u32) -> Result<Image, AllocError>
    ensures exact { IfOk result (λ s. view_of s ≡ zero_image blocks) }
    ensures sound { IfOk result (λ s. Sound (images.meaning_of (view_of s))) }
{
    Ok(Image::new(vec![in heap; 0; BLOCK_BYTES * blocks as usize]?))
}

// A bench whose memory is all zero. What `Bench::new` gives back where there is no memory to hold writes in is let go.
#[tactic(auto, using(crate::proofs::Soundness::bench_sound))]
pub fn zero_bench(
    heap: Global,
    blocks: u32,
    fuses: Vec<u32>,
    choices: Vec<u8>,
) -> Result<Bench, AllocError>
    ensures exact { IfOk result (λ s. contents_of s ≡ zero_bench blocks fuses.items choices.items) }
    ensures sound { IfOk result (λ s. Sound (benches.meaning_of (contents_of s))) }
{
    let bytes = vec![in heap; 0; BENCH_BLOCK_BYTES * blocks as usize]?;
    Bench::new(
        heap,
        Given {
            bytes,
            fuses,
            choices,
        },
    )
    .map_err(|_given| AllocError)
}
