// A sample as a sampler keeps it in memory.
#![tactic(auto)]

mod samples;

pub use samples::Sample;
