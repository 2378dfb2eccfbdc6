// A sample held in memory, of the records inserted so far.
#![tactic(auto)]

mod reservoirs;

pub use reservoirs::Reservoir;
