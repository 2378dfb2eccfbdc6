// What is printed of a command and its answer.
#![tactic(auto)]

mod lines;

pub use lines::{Said, name};
