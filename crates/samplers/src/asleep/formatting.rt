ghost use Rattle.stores.specs.Meanings.{Steadily};
ghost use Rattle.samplers.specs.Calls.{Formats};

use crate::asleep::Asleep;
use faults::Fault;
use formats::format;
use layouts::Shape;
use records::RecordKind;
use samples::Sample;
use stores::SteadyStore;

impl<S: SteadyStore, K: RecordKind> Asleep<S, K> {
    // Makes the store that of a sample of no records.
    pub fn format(&mut self, size: u16, log_blocks: u8, seed: u64) -> Result<(), Fault>
        ensures outcome { Formats S.Store.state S.Store.meaning S.Store.does S.Store.source K.CODE size log_blocks seed self.old self.new result }
        ensures sound { Steadily S.Store.steady (S.Store.meaning (S.Store.state self.old.store)) (S.Store.meaning (S.Store.state self.new.store)) }
    {
        // Whatever comes of it, what was in memory is no longer what the store holds.
        self.sample = None;
        let shape = Shape::new(size, log_blocks)?;
        let sample = Sample::blank(shape, seed);
        format(&mut self.store, &sample.head)?;
        self.sample = Some(sample);
        Ok(())
    }
}
