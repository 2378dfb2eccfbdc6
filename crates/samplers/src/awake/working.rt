ghost use Rattle.workings.specs.Worked.{Worked, insert_work, commit_work, refresh_work};

use crate::awake::Awake;
use commits::{commit, refresh, write_full_block};
use faults::Fault;
use faults::Layer::Sampler;
use faults::Reason::Off;
use records::RecordKind;
use stores::SteadyStore;

// Each of these calls leaves the sampler dark where a call below is refused.
impl<S: SteadyStore, K: RecordKind> Awake<S, K> {
    // Counts one record more, and answers its slot or none.
    pub fn insert(&mut self, taken: &K) -> Result<Option<u16>, Fault>
        ensures { Worked S.Store.does S.Store.meaning S.Store.own S.Store.source S.Store.steady (insert_work (K.bytes taken.now)) (S.Store.state self.old.store) self.old.sample result (S.Store.state self.new.store) self.new.sample }
    {
        let Some(sample) = &mut self.sample else {
            return Err(Sampler.fault(Off, 0));
        };
        let before = sample.head.entries;
        let slot = sample.insert(taken)?;
        if let Err(fault) = write_full_block(&mut self.store, sample, before) {
            self.sample = None;
            return Err(fault);
        }
        Ok(slot)
    }

    // Settles all records counted, and answers how many they are.
    pub fn commit(&mut self) -> Result<u32, Fault>
        ensures { Worked S.Store.does S.Store.meaning S.Store.own S.Store.source S.Store.steady commit_work (S.Store.state self.old.store) self.old.sample result (S.Store.state self.new.store) self.new.sample }
    {
        let Some(sample) = &mut self.sample else {
            return Err(Sampler.fault(Off, 0));
        };
        if let Err(fault) = commit(&mut self.store, sample) {
            self.sample = None;
            return Err(fault);
        }
        sample.commit();
        Ok(sample.head.count)
    }

    // Commits, and empties the log into the sample blocks; answers how many of them were written.
    pub fn refresh(&mut self) -> Result<u16, Fault>
        ensures { Worked S.Store.does S.Store.meaning S.Store.own S.Store.source S.Store.steady refresh_work (S.Store.state self.old.store) self.old.sample result (S.Store.state self.new.store) self.new.sample }
    {
        let Some(sample) = &mut self.sample else {
            return Err(Sampler.fault(Off, 0));
        };
        match refresh(&mut self.store, sample) {
            Ok(written) => {
                sample.empty_log();
                Ok(written)
            }
            Err(fault) => {
                self.sample = None;
                Err(fault)
            }
        }
    }
}
