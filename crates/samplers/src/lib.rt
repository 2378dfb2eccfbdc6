// A sampler over a store: asleep it is formatted or mounted, awake it is worked.
#![tactic(auto)]

mod asleep;
mod awake;

pub use asleep::Asleep;
pub use awake::Awake;
