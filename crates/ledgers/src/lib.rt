// The calls of a sampler and their answers as values, and the ledger that they feed.
#![tactic(auto)]

mod books;
mod calls;

pub use books::Ledger;
pub use calls::{Answer, Call};
