// What is printed of the nights of a card, and of the memory of its device.
#![tactic(auto)]

mod calls;
mod kinds;
mod memories;
mod nights;
mod reports;
mod so_far;

pub use memories::memory;
pub use nights::{event_nights, offset_nights};
