ghost use Rattle.std.specs.Prelude.{◌≡◌, ℕ, List};
ghost use Rattle.cards.specs.Memories.{Memory};
ghost use Rattle.traces.specs.Traces.{Trace};
ghost use Rattle.workings.specs.Inserts.{next_slot, inserted, insert_calls};
ghost use Rattle.commits.specs.Steps.{full_block_calls};

use cards::entry_block;
use faults::Fault;
use layouts::BLOCK_ENTRIES;
use records::RecordKind;
use samples::Sample;
use stores::Store;

// Writes the log block in work, if the last entry that it has room for came since the log had so many entries: what is
// left to do below for a record that was just counted in memory.
#[tactic(auto, using(crate::proofs::Traces::choosing))]
pub fn write_full_block<S: Store, K: RecordKind>(
    store: &mut S,
    sample: &Sample<K>,
    before: u16,
) -> Result<(), Fault>
    ensures calls { Trace S.Store.does S.Store.meaning S.Store.own S.Store.source S.Store.steady (S.Store.state store.old) (full_block_calls before sample.now) result (S.Store.state store.new) }
    ensures inserted { (t : Memory) (bytes : List ℕ) → before ≡ t.head.entries → sample.now ≡ inserted t (next_slot t) bytes → Trace S.Store.does S.Store.meaning S.Store.own S.Store.source S.Store.steady (S.Store.state store.old) (insert_calls t bytes) result (S.Store.state store.new) }
{
    let entries = sample.head.entries;
    if before < entries && entries % BLOCK_ENTRIES == 0 {
        let block = entry_block(&sample.head, before);
        return store.write(block, &sample.work);
    }
    Ok(())
}
