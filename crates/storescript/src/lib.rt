// The scripts of `faultsim` as values: stacks and their calls, and what a bad line should have had.
#![tactic(auto)]

mod calls;
mod expectations;

pub use calls::{Call, Device, Scenario, Stack};
pub use expectations::{Expected, Unread};
