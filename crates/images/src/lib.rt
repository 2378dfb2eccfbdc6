// A store in the caller's memory that settles each write and never loses power.
#![tactic(auto)]

mod images;

pub use images::Image;
