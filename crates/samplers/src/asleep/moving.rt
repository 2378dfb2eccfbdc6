ghost use Rattle.std.specs.Prelude.{◌≡◌};
ghost use Rattle.samplers.specs.Calls.{knows_only};

use crate::asleep::Asleep;
use crate::awake::Awake;
use records::RecordKind;
use stores::SteadyStore;

impl<S: SteadyStore, K: RecordKind> Asleep<S, K> {
    // A sampler over this store, which it has to itself until its life ends.
    pub fn new(store: S) -> Asleep<S, K>
        ensures { result ≡ knows_only store }
    {
        Asleep {
            store,
            sample: None,
        }
    }

    // The store, at the end of the sampler's life.
    pub fn into_store(self) -> S
        ensures { result ≡ self.store }
    {
        let Asleep { store, .. } = self;
        store
    }

    // A waking sampler. Unless this comes straight after an accepted format or mount, it is dark.
    pub fn wake(self) -> Awake<S, K>
        ensures { result ≡ self }
    {
        let Asleep { store, sample } = self;
        Awake::of(store, sample)
    }
}
