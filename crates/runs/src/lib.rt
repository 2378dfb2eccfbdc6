// Runs of a sampler: calls in order, each answered, by the law of a sampler.
#![tactic(auto)]

mod running;
mod steps;

pub use running::{Run, work};
