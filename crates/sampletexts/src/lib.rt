// What is printed of a sample: its records, its slots and its mean.
#![tactic(auto)]

mod lines;
mod sums;

pub use lines::{EventWords, MeanLine, OffsetNumbers, SlotLine};
pub use sums::mean;
