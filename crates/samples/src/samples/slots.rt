ghost use Rattle.std.specs.Prelude.{◌≡◌};
ghost use Rattle.cards.specs.Cards.{filled};
ghost use Rattle.records.specs.Reading.{shown_as};
ghost use Rattle.samples.specs.Memories.{Arrays, slot_read, blank_memory};

use crate::samples::Sample;
use cards::filled;
use faults::Fault;
use faults::Layer::Sampler;
use faults::Reason::{EmptySlot, NoSuchSlot};
use layouts::{Head, Shape};
use records::{RECORD_BYTES, RecordKind};
use sampling::ROWS;
use std::marker::PhantomData;
use stores::BLOCK_BYTES;

impl<K: RecordKind> Sample<K> {
    // A sample of no records.
    pub fn blank(shape: Shape, seed: u64) -> Sample<K>
        ensures { result ≡ blank_memory K.CODE shape.size shape.log_blocks seed }
    {
        let head = Head {
            kind: K::CODE,
            shape,
            seed,
            count: 0,
            entries: 0,
        };
        Sample {
            head,
            committed: 0,
            rows: [[0; RECORD_BYTES]; ROWS],
            logged: [false; ROWS],
            work: [0; BLOCK_BYTES],
            kind: PhantomData,
        }
    }

    // How many records are counted.
    pub fn count(&self) -> u32
        ensures value { result ≡ self.now.head.count }
        // The lengths of the arrays are said here, where a mount reads the count.
        ensures arrays { Arrays self.now }
    {
        self.head.count
    }

    // How many slots records have filled.
    pub fn filled(&self) -> u16
        ensures { result ≡ filled self.now.head }
    {
        filled(&self.head)
    }

    // The record in a slot.
    pub fn slot(&self, slot: u16) -> Result<K, Fault>
        ensures { shown_as K.bytes result ≡ slot_read self.now slot }
    {
        if slot >= self.head.shape.size {
            return Err(Sampler.fault(NoSuchSlot, u64::from(slot)));
        }
        if slot >= self.filled() {
            return Err(Sampler.fault(EmptySlot, u64::from(slot)));
        }
        K::decode(&self.rows[usize::from(slot)])
    }
}
