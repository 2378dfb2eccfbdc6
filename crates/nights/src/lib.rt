// Plays the nights of a script on its stack, one after another, by the law of a sampler.
#![tactic(auto)]

mod playing;
mod stacking;

pub use stacking::{Played, play};
