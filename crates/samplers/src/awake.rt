pub mod calls;
pub mod working;

use records::RecordKind;
use samples::Sample;
use std::marker::Model;
use stores::SteadyStore;

// A sampler that is awake, over its store and with the sample in its memory, or dark, without one.
#[derive(Drop)]
pub struct Awake<S: SteadyStore, K: RecordKind> {
    store: S,
    sample: Option<Sample<K>>,
}

impl<S: SteadyStore, K: RecordKind> Model for Awake<S, K> {
    ghost use Rattle.samplers.specs.Views.{View};

    ghost Value = { View S };

    ghost view = { λ s. record { store = s.store; sample = s.sample } };
}
