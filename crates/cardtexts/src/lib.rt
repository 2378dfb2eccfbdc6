// What is printed of a card that was read, and of one that was refused.
#![tactic(auto)]

mod lines;
mod readings;
mod refusals;

pub use readings::{AnyReading, read_any_card};
pub use refusals::Refusal;
