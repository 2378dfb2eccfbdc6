ghost use Rattle.std.specs.Prelude.{◌≡◌, ◌≤◌, ◌==◌, length, filter, slice_get, reverse};
ghost use Rattle.std.specs.List.{find};
ghost use Rattle.std.specs.Option.{option_copied, option_map};
ghost use Rattle.benches.specs.Held.{writes_of};

use crate::held::Held;

// Each takes the held writes and a block: a struct of the two would be made for one call.

// How many writes of a block are held. (The chain stands here and in `nth`, since a function cannot answer an
// `impl Iterator`.)
pub(crate) fn count(held: &[Held], block: u32) -> usize
    ensures value { result ≡ length (filter (λ h. h.block == block) held.now) }
    ensures few { result ≤ length held.now }
{
    held.iter().filter(|h| h.block == block).count()
}

// The held write of a block with this number, from 0.
pub(crate) fn nth(held: &[Held], block: u32, number: usize) -> Option<&Held>
    ensures { option_map (λ h. h.now.bytes) result ≡ slice_get (writes_of held.now block) number }
{
    held.iter().filter(|h| h.block == block).nth(number)
}

// The held write of a block that came last.
pub(crate) fn last(held: &[Held], block: u32) -> Option<&Held>
    ensures { option_copied result ≡ find (λ h. h.block == block) (reverse held.now) }
{
    held.iter().rev().find(|h| h.block == block)
}
