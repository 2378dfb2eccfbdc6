// What the languages of all scripts share: a script is read line by line, and its first bad line is told.
#![tactic(auto)]

mod bad_lines;
mod reading;

pub use bad_lines::{BadLine, Unread};
pub use reading::{Language, parse};
