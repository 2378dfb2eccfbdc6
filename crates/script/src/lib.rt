// The rack's scripts as values: scenarios with their commands, and what a bad line should have had.
#![tactic(auto)]

mod cards;
mod commands;
mod expectations;
mod nights;
mod scenarios;

pub use cards::{Ask, CardScenario, Night, Nights, Stack, Steady};
pub use commands::{Command, ReservoirScenario};
pub use expectations::{Expected, Unread};
pub use nights::awake_after_call;
pub use scenarios::Scenario;
