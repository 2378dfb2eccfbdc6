ghost use Rattle.std.specs.Prelude.{◌≡◌, ⊤, ◌*◌, ◌^◌, ◌<◌, ◌≤◌};

pub mod codec;

use crate::shapes::Shape;
use std::alloc::AllocError;

// The first block of a sample: the code of its records' kind, its shape, the seed of its draws, how many records are
// counted, and how many entries its log has.
#[derive(Copy, PartialEq, Eq, Debug)]
pub struct Head {
    pub kind: u8,
    pub shape: Shape,
    pub seed: u64,
    pub count: u32,
    pub entries: u16,
    ghost coded: { 0 < kind },
    ghost counted: { count ≤ 4000000000 },
    ghost held: { entries ≤ 31 * shape.log_blocks },
    ghost among: { entries ≤ count },
    ghost seeded: { seed < 2 ^ 64 },
}

// By hand, since none can be derived for a struct with a ghost field.
impl Clone for Head {
    ghost is_clone = { λ x y. y ≡ x };

    ghost is_infallible = { λ _. ⊤ };

    fn clone(&self) -> Result<Self, AllocError> {
        Ok(*self)
    }
}
