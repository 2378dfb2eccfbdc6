ghost use Rattle.std.specs.Prelude.{◌≡◌, ⊤, ◌<◌, ◌≤◌};

pub mod making;

use std::alloc::AllocError;

// The most blocks that a log has.
pub const LOG_LIMIT: u8 = 64;

// What decides how many blocks a sample takes: its slots and the blocks of its log, both within their limits.
#[derive(Copy, PartialEq, Eq, Debug)]
pub struct Shape {
    pub size: u16,
    pub log_blocks: u8,
    ghost some: { 0 < size },
    ghost most: { size ≤ 672 },
    ghost logged: { 0 < log_blocks },
    ghost limited: { log_blocks ≤ 64 },
}

// By hand, since none can be derived for a struct with a ghost field.
impl Clone for Shape {
    ghost is_clone = { λ x y. y ≡ x };

    ghost is_infallible = { λ _. ⊤ };

    fn clone(&self) -> Result<Self, AllocError> {
        Ok(*self)
    }
}
