// Stores that begin with memory that is all zero, where torn may stand at no block.
#![tactic(auto)]

mod devices;
mod mirrored;

pub use devices::{zero_bench, zero_image};
pub use mirrored::{mirrored_bench, mirrored_image};
