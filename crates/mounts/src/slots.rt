ghost use Rattle.std.specs.Prelude.{◌<◌};
ghost use Rattle.layouts.specs.Heads.{head_fields};
ghost use Rattle.mounts.specs.Parts.{SlotOutcome, SlotsOutcome, SlotCalls, SlotsCalls};

use crate::blocks::fetch;
use cards::{filled, slot_block};
use faults::Fault;
use faults::Layer::Sampler;
use faults::Reason::BadSlot;
use layouts::{BLOCK_SLOTS, Head, slot_bytes};
use records::{RECORD_BYTES, RecordKind};
use sampling::ROWS;
use stores::{BLOCK_BYTES, Store};

// Reads a slot's record, unless an entry lies over it.
fn read_slot<S: Store, K: RecordKind>(
    store: &mut S,
    slot: u16,
    logged: &[bool; ROWS],
    rows: &mut [[u8; RECORD_BYTES]; ROWS],
    block: &mut [u8; BLOCK_BYTES],
) -> Result<(), Fault>
    requires { slot < 672 }
    ensures outcome { SlotOutcome S.Store.own S.Store.source K.wrong (S.Store.meaning (S.Store.state store.old)) (S.Store.meaning (S.Store.state store.new)) slot logged.now rows.old block.old rows.new block.new result }
    ensures calls { SlotCalls S.Store.own K.wrong S.Store.does S.Store.meaning (S.Store.state store.old) slot logged.now rows.old block.old result (S.Store.state store.new) }
{
    fetch(store, slot_block(slot), slot % BLOCK_SLOTS == 0, block)?;
    if !logged[usize::from(slot)] {
        let bytes = slot_bytes(block, slot);
        if K::decode(&bytes).is_err() {
            return Err(Sampler.fault(BadSlot, u64::from(slot)));
        }
        rows[usize::from(slot)] = bytes;
    }
    Ok(())
}

// Reads the filled slots' records.
pub(crate) fn read_slots<S: Store, K: RecordKind>(
    store: &mut S,
    head: &Head,
    logged: &[bool; ROWS],
    rows: &mut [[u8; RECORD_BYTES]; ROWS],
) -> Result<(), Fault>
    ensures outcome { SlotsOutcome S.Store.own S.Store.source K.wrong (head_fields head.now) (S.Store.meaning (S.Store.state store.old)) (S.Store.meaning (S.Store.state store.new)) logged.now rows.old rows.new result }
    ensures calls { SlotsCalls S.Store.own K.wrong (head_fields head.now) S.Store.does S.Store.meaning (S.Store.state store.old) logged.now rows.old result (S.Store.state store.new) }
{
    let mut block = [0; BLOCK_BYTES];
    let end = filled(head);
    for slot in 0..end { // slot up to end - 1
        read_slot::<S, K>(store, slot, logged, rows, &mut block)?;
    }
    Ok(())
}
