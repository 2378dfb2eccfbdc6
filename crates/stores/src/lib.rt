// Stores of blocks: what every call does to what is read now, and to what may be found after a power cut.
#![tactic(auto)]

mod admission;
mod stores;

pub use admission::{admit, powered};
pub use stores::{BLOCK_BYTES, BLOCK_LIMIT, SteadyStore, Store};
