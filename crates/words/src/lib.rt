// How a line is cut into words, and which words are numbers.
#![tactic(auto)]

mod lists;
mod numerals;
mod texts;

pub use lists::numbers;
pub use numerals::{hexadecimal, number, number_within};
pub use texts::words;
