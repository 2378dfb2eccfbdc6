// Refusals: what every layer answers in place of a result, with the number that the format gives it.
#![tactic(auto)]

mod faults;
mod texts;

pub use faults::{Fault, Layer, Reason};
pub use texts::FaultNumbers;
