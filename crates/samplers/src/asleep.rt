pub mod formatting;
pub mod mounting;
pub mod moving;

use records::RecordKind;
use samples::Sample;
use std::marker::Model;
use stores::SteadyStore;

// A sampler that sleeps. It knows its store and, from an accepted format or mount to the next call, their sample.
#[derive(Drop)]
pub struct Asleep<S: SteadyStore, K: RecordKind> {
    store: S,
    sample: Option<Sample<K>>,
}

impl<S: SteadyStore, K: RecordKind> Model for Asleep<S, K> {
    ghost use Rattle.samplers.specs.Views.{View};

    ghost Value = { View S };

    ghost view = { λ s. record { store = s.store; sample = s.sample } };
}
