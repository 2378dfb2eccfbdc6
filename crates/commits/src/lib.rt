// Commits a sample to a store, and refreshes it there.
#![tactic(auto)]

mod committing;
mod filling;
mod refreshing;
mod rows;

pub use committing::commit;
pub use filling::write_full_block;
pub use refreshing::refresh;
