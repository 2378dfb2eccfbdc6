ghost use Rattle.std.specs.Prelude.{◌≡◌, ⊤, pos, neg_ℤ, ◌≤ℤ◌};

pub mod making;

use crate::wholes::Whole;
use std::alloc::AllocError;

// The last second of a week.
pub const LAST_SECOND: u32 = 604_799;

pub const LAST_SATELLITE: u32 = 31;

// Half a second.
pub const MOST_NANOSECONDS: u32 = 500_000_000;

// A number that is at most this far below 0, and at most this far above it.
#[derive(Copy, PartialEq, Eq, Debug)]
pub struct InRange<N: Whole, const BELOW: u32, const ABOVE: u32> {
    number: N,
    ghost low: { neg_ℤ (pos BELOW) ≤ℤ N.whole number },
    ghost high: { N.whole number ≤ℤ pos ABOVE },
}

// By hand: of a derived Clone the check says, "`Clone` cannot be derived for a struct with a ghost field".
impl<N: Whole, const BELOW: u32, const ABOVE: u32> Clone for InRange<N, BELOW, ABOVE> {
    ghost is_clone = { λ x y. y ≡ x };

    ghost is_infallible = { λ _. ⊤ };

    fn clone(&self) -> Result<Self, AllocError> {
        Ok(*self)
    }
}

// A second of the week.
pub type Second = InRange<u32, 0, LAST_SECOND>;

// A satellite's number.
pub type Satellite = InRange<u8, 0, LAST_SATELLITE>;

// A clock's offset from a satellite's, half a second at most to either side.
pub type Nanoseconds = InRange<i32, MOST_NANOSECONDS, MOST_NANOSECONDS>;
