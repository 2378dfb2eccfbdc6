ghost use Rattle.std.specs.Prelude.{◌≡◌, map, vec_items, Ok};
ghost use Rattle.failures.specs.Answers.{UnlessMemoryForOk};
ghost use Rattle.layouts.specs.Heads.{head_fields};
ghost use Rattle.cardreads.specs.Readings.{memory_read, read_of, rows_of};

use crate::readings::Reading;
use failures::Failure;
use faults::Fault;
use faults::Layer::Sampler;
use faults::Reason::Off;
use images::Image;
use records::RecordKind;
use samplers::{Asleep, Awake};
use samples::Sample;
use std::alloc::Global;
use stores::SteadyStore;

// The record of each filled slot of a sample in memory, slot 0 first.
fn records<K: RecordKind>(heap: Global, sample: &Sample<K>) -> Result<Vec<K>, Failure<Fault>>
    ensures { UnlessMemoryForOk (λ records. map K.bytes records.items) (Ok (rows_of sample.now)) result }
{
    let mut records = Vec::new(heap);
    for slot in 0..sample.filled() { // up to filled - 1
        let record = sample.slot(slot).map_err(Failure::Because)?;
        records.push(record)?;
    }
    Ok(records)
}

// What is in a waking sampler's memory.
fn reading<S: SteadyStore, K: RecordKind>(
    heap: Global,
    awake: &Awake<S, K>,
) -> Result<Reading<K>, Failure<Fault>>
    ensures { UnlessMemoryForOk (λ r. (head_fields r.head, map K.bytes r.records.items)) (memory_read awake.now.sample) result }
{
    let Some(sample) = awake.sample() else {
        return Err(Failure::Because(Sampler.fault(Off, 0)));
    };
    let records = records(heap, sample)?;
    Ok(Reading {
        head: sample.head,
        records,
    })
}

// Mounts an image of these bytes as a card of records of kind K, and reads it whole. The bytes come back as they were.
pub fn read_card<K: RecordKind>(
    heap: Global,
    bytes: Vec<u8>,
) -> (Vec<u8>, Result<Reading<K>, Failure<Fault>>)
    ensures memory { vec_items result.0 ≡ vec_items bytes }
    ensures answer { UnlessMemoryForOk (λ r. (head_fields r.head, map K.bytes r.records.items)) (read_of K.CODE K.wrong (vec_items bytes)) result.1 }
{
    let mut asleep: Asleep<Image, K> = Asleep::new(Image::new(bytes));
    let mounted = asleep.mount();
    let awake = asleep.wake();
    let read = match mounted {
        Ok(_count) => reading(heap, &awake),
        Err(fault) => Err(Failure::Because(fault)),
    };
    (awake.close().into_store().into_bytes(), read)
}
