// Reads the text of a script into scenarios, or says which line is bad and what was expected there.
#![tactic(auto)]

mod asks;
mod cards;
mod commands;
mod inserts;
mod nights;
mod numerals;
mod parser;
mod starts;

pub use parser::parse;
