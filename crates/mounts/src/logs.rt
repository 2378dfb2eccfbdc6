ghost use Rattle.std.specs.Prelude.{◌≡◌, ◌<◌, true, IfSome, slice_set};
ghost use Rattle.layouts.specs.Heads.{head_fields};
ghost use Rattle.cards.specs.Verdicts.{right_slot};
ghost use Rattle.mounts.specs.Parts.{EntryOutcome, LogOutcome, EntryCalls, LogCalls};

use crate::blocks::fetch;
use cards::entry_block;
use faults::Fault;
use faults::Layer::Sampler;
use faults::Reason::BadEntry;
use layouts::{BLOCK_ENTRIES, Entry, Head};
use records::{RECORD_BYTES, RecordKind};
use sampling::{ROWS, slot_of};
use stores::{BLOCK_BYTES, Store};

// What the entries that were read so far leave.
#[derive(Drop)]
pub(crate) struct Log {
    // The record of the newest entry of each slot, and zeros where none has it.
    pub(crate) rows: [[u8; RECORD_BYTES]; ROWS],
    // Which slots have an entry.
    pub(crate) logged: [bool; ROWS],
    // The block that the last entry lies in.
    pub(crate) work: [u8; BLOCK_BYTES],
    // The number of the last entry, and 0 before the first.
    pub(crate) last: u32,
}

impl Log {
    // Lays an entry's record over the row of its slot.
    fn lay(&mut self, slot: u16, entry: &Entry)
        requires { slot < 672 }
        ensures { self.new ≡ record self.old { rows = slice_set self.old.rows slot entry.now.bytes; logged = slice_set self.old.logged slot true; last = entry.now.number } }
    {
        self.rows[usize::from(slot)] = entry.bytes;
        self.logged[usize::from(slot)] = true;
        self.last = entry.number;
    }
}

// The slot of an entry's record, if the entry is right: its number ascends, is at most the count and is a candidate's,
// and its bytes are a record's.
fn right_slot<K: RecordKind>(head: &Head, last: u32, entry: &Entry) -> Option<u16>
    ensures value { result ≡ right_slot K.wrong (head_fields head.now) last entry.now }
    ensures bound { IfSome result (λ s. s < 672) }
{
    if entry.number <= last || entry.number > head.count || K::decode(&entry.bytes).is_err() {
        return None;
    }
    slot_of(head.seed, head.shape.size, entry.number)
}

// Reads the entry at this position, and lays its record over the rows.
fn read_entry<S: Store, K: RecordKind>(
    store: &mut S,
    head: &Head,
    position: u16,
    log: &mut Log,
) -> Result<(), Fault>
    ensures outcome { EntryOutcome S.Store.own S.Store.source K.wrong (head_fields head.now) (S.Store.meaning (S.Store.state store.old)) (S.Store.meaning (S.Store.state store.new)) position log.old log.new result }
    ensures calls { EntryCalls S.Store.own K.wrong (head_fields head.now) S.Store.does S.Store.meaning (S.Store.state store.old) position log.old result (S.Store.state store.new) }
{
    let block = entry_block(head, position);
    fetch(store, block, position % BLOCK_ENTRIES == 0, &mut log.work)?;
    let entry = Entry::decode(&log.work, position);
    let slot = right_slot::<K>(head, log.last, &entry).ok_or(Sampler.fault(
        BadEntry,
        u64::from(position),
    ))?;
    log.lay(slot, &entry);
    Ok(())
}

// Reads the entries of the log.
pub(crate) fn read_log<S: Store, K: RecordKind>(store: &mut S, head: &Head) -> Result<Log, Fault>
    ensures outcome { LogOutcome S.Store.own S.Store.source K.wrong (head_fields head.now) (S.Store.meaning (S.Store.state store.old)) (S.Store.meaning (S.Store.state store.new)) result }
    ensures calls { LogCalls S.Store.own K.wrong (head_fields head.now) S.Store.does S.Store.meaning (S.Store.state store.old) result (S.Store.state store.new) }
{
    let mut log = Log {
        rows: [[0; RECORD_BYTES]; ROWS],
        logged: [false; ROWS],
        work: [0; BLOCK_BYTES],
        last: 0,
    };
    for position in 0..head.entries { // position up to head.entries - 1
        read_entry::<S, K>(store, head, position, &mut log)?;
    }
    Ok(log)
}
