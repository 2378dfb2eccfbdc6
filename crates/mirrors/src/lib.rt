// Two copies of each block on the two halves of any store, which make a steady store of it.
#![tactic(auto)]

mod mirrors;

pub use mirrors::Mirror;
