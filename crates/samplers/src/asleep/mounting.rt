ghost use Rattle.std.specs.Prelude.{◌≡◌, Some};
ghost use Rattle.stores.specs.Meanings.{Steadily};
ghost use Rattle.cards.specs.Memories.{Memory};
ghost use Rattle.samples.specs.Memories.{Arrays};
ghost use Rattle.cards.specs.Lawful.{CardLaw};
ghost use Rattle.mounts.specs.Mounts.{MountOutcome, MountCalls};
ghost use Rattle.samplers.specs.Calls.{Leaves};

use crate::asleep::Asleep;
use faults::Fault;
use mounts::mount;
use records::RecordKind;
use stores::SteadyStore;

impl<S: SteadyStore, K: RecordKind> Asleep<S, K> {
    // Restarts the store, checks its card and remembers it, and answers how many records are counted.
    pub fn mount(&mut self) -> Result<u32, Fault>
        ensures outcome { Leaves (MountOutcome S.Store.own S.Store.source K.CODE K.wrong (S.Store.meaning (S.Store.state self.old.store)) (S.Store.meaning (S.Store.state self.new.store))) result self.new.sample }
        ensures law { CardLaw S.Store.own K.CODE K.wrong }
        ensures sound { Steadily S.Store.steady (S.Store.meaning (S.Store.state self.old.store)) (S.Store.meaning (S.Store.state self.new.store)) }
        ensures calls { Leaves (λ r. MountCalls S.Store.own K.CODE K.wrong S.Store.does S.Store.meaning (S.Store.state self.old.store) r (S.Store.state self.new.store)) result self.new.sample }
        ensures arrays { (t : Memory) → self.new.sample ≡ Some t → Arrays t }
    {
        // A refused mount leaves the sampler dark.
        self.sample = None;
        let sample = mount::<S, K>(&mut self.store)?;
        let count = sample.count();
        self.sample = Some(sample);
        Ok(count)
    }
}
