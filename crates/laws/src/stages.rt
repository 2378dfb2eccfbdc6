use records::RecordKind;
use samplers::{Asleep, Awake};
use stores::SteadyStore;

// A sampler, which sleeps or is awake.
#[derive(Drop)]
pub enum Stage<S: SteadyStore, K: RecordKind> {
    Sleeping(Asleep<S, K>),
    Waking(Awake<S, K>),
}
