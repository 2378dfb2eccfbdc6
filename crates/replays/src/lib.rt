// Replays scripts of store calls: builds a scenario's stack, makes its calls in order, and says what each was answered.
#![tactic(auto)]

mod answers;
mod replaying;
mod stacking;

pub use answers::Answer;
pub use replaying::replay;
pub use stacking::play;
