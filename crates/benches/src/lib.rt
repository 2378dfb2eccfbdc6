// A store that cuts the power and tears blocks as it is told, to try what is above it.
#![tactic(auto)]

mod benches;
mod disk;
mod finds;
mod held;
mod power;
mod supply;

pub use benches::{Bench, Given};
