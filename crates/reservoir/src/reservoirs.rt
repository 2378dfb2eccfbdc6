ghost use Rattle.std.specs.Prelude.{◌<◌, ◌≤◌};

pub mod keeping;
pub mod measures;

use sampling::ROWS;

// Algorithm R's sample of the records inserted so far. Its memory is that of a full sample from the start, so that
// an insert allocates nothing and takes the same few steps whatever the size is. Which records it keeps the sample of
// is no part of it, since two lists can have the same sample: contracts speak of each list that it may be (`OfKept`).
#[derive(Drop)]
pub struct Reservoir<K> {
    seed: u64,
    size: u16,
    count: u32,
    rows: [Option<K>; ROWS],
    ghost some: { 0 < size },
    ghost most: { size ≤ 672 },
    ghost counted: { count ≤ 4000000000 },
}
