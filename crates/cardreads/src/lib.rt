// Reads a card that is in memory.
#![tactic(auto)]

mod reading;
mod readings;

pub use reading::read_card;
pub use readings::Reading;
