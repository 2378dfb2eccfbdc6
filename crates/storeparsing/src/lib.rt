// Reads the text of a script of store calls into scenarios, or says which line is bad and what was expected there.
#![tactic(auto)]

mod calls;
mod forms;
mod lines;
mod parser;
mod stacks;

pub use parser::parse;
