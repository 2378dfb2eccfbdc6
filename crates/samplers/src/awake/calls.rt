ghost use Rattle.std.specs.Prelude.{◌≡◌, Option};
ghost use Rattle.std.specs.Option.{option_copied};
ghost use Rattle.records.specs.Reading.{shown_as};
ghost use Rattle.cards.specs.Memories.{Memory};
ghost use Rattle.samplers.specs.Calls.{knows_only, sampler_slot_answer};

use crate::asleep::Asleep;
use crate::awake::Awake;
use faults::Fault;
use faults::Layer::Sampler;
use faults::Reason::Off;
use records::RecordKind;
use samples::Sample;
use stores::SteadyStore;

impl<S: SteadyStore, K: RecordKind> Awake<S, K> {
    // Of the parts that a sleeping sampler had.
    pub(crate) fn of(store: S, sample: Option<Sample<K>>) -> Awake<S, K>
        ensures { result ≡ record { store = store; sample = sample } }
    {
        Awake { store, sample }
    }

    // The sample in memory; none where the sampler is dark.
    pub fn sample(&self) -> Option<&Sample<K>>
        ensures { option_copied result ≡ self.now.sample }
    {
        self.sample.as_ref()
    }

    // The record in a slot. It is answered from memory: no block is read.
    pub fn slot(&self, slot: u16) -> Result<K, Fault>
        ensures { shown_as K.bytes result ≡ sampler_slot_answer self.now.sample slot }
    {
        match &self.sample {
            Some(sample) => sample.slot(slot),
            None => Err(Sampler.fault(Off, 0)),
        }
    }

    // A sleeping sampler that knows only its store. What was not committed is lost.
    pub fn close(self) -> Asleep<S, K>
        ensures { result ≡ knows_only self.store }
    {
        let Awake { store, .. } = self;
        Asleep::new(store)
    }
}
