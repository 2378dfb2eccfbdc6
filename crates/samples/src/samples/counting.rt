ghost use Rattle.std.specs.Prelude.{◌≡◌};
ghost use Rattle.workings.specs.Inserts.{Inserts};
ghost use Rattle.workings.specs.Commits.{all_committed};
ghost use Rattle.workings.specs.Refreshes.{refreshed};

use crate::samples::Sample;
use faults::Fault;
use faults::Layer::Sampler;
use faults::Reason::{CountAtLimit, LogFull};
use layouts::{BLOCK_ENTRIES, Entry};
use records::RecordKind;
use sampling::{COUNT_LIMIT, ROWS, slot_of};

impl<K: RecordKind> Sample<K> {
    // Counts one record more, and answers its slot or none. A candidate has its slot's row, and an entry in the log.
    pub fn insert(&mut self, taken: &K) -> Result<Option<u16>, Fault>
        ensures { Inserts self.old (K.bytes taken.now) result self.new }
    {
        let head = self.head;
        if head.count >= COUNT_LIMIT {
            return Err(Sampler.fault(CountAtLimit, u64::from(head.count)));
        }
        let number = head.count + 1;
        let slot = slot_of(head.seed, head.shape.size, number);
        if let Some(slot) = slot {
            let room = BLOCK_ENTRIES * u16::from(head.shape.log_blocks);
            if head.entries >= room {
                return Err(Sampler.fault(LogFull, u64::from(head.entries)));
            }
            let bytes = taken.encode();
            Entry { number, bytes }.put(&mut self.work, head.entries);
            self.rows[usize::from(slot)] = bytes;
            self.logged[usize::from(slot)] = true;
            self.head.count = number;
            self.head.entries = head.entries + 1;
            return Ok(Some(slot));
        }
        self.head.count = number;
        Ok(None)
    }

    // The head on the card counts all entries of the log.
    pub fn commit(&mut self)
        ensures { self.new ≡ all_committed self.old }
    {
        self.committed = self.head.entries;
    }

    // The log is empty, on the card too.
    pub fn empty_log(&mut self)
        ensures { self.new ≡ refreshed self.old }
    {
        self.head.entries = 0;
        self.committed = 0;
        self.logged = [false; ROWS];
    }
}
