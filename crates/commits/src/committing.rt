ghost use Rattle.std.specs.Prelude.{◌≡◌};
ghost use Rattle.layouts.specs.Heads.{head_fields};
ghost use Rattle.traces.specs.Traces.{Trace};
ghost use Rattle.workings.specs.Commits.{has_uncommitted, log_writes, head_calls, commit_calls};

use cards::entry_block;
use faults::Fault;
use layouts::{BLOCK_ENTRIES, Head};
use records::RecordKind;
use samples::Sample;
use stores::Store;

// Settles the log and then the head, so that the card counts all records.
#[tactic(auto, using(crate::proofs::Traces::joining))]
pub fn commit<S: Store, K: RecordKind>(store: &mut S, sample: &Sample<K>) -> Result<(), Fault>
    ensures { Trace S.Store.does S.Store.meaning S.Store.own S.Store.source S.Store.steady (S.Store.state store.old) (commit_calls sample.now) result (S.Store.state store.new) }
{
    write_log(store, sample)?;
    settle_head(store, &sample.head)
}

// Writes the log block in work, if the head on the card does not count all of its entries.
#[tactic(auto, using(crate::proofs::Traces::choosing))]
fn write_log<S: Store, K: RecordKind>(store: &mut S, sample: &Sample<K>) -> Result<(), Fault>
    ensures { Trace S.Store.does S.Store.meaning S.Store.own S.Store.source S.Store.steady (S.Store.state store.old) (log_writes sample.now) result (S.Store.state store.new) }
{
    if has_uncommitted(sample) {
        let block = entry_block(&sample.head, sample.head.entries);
        return store.write(block, &sample.work);
    }
    Ok(())
}

// Whether the log block in work has an entry that the head on the card does not count.
fn has_uncommitted<K: RecordKind>(sample: &Sample<K>) -> bool
    ensures { result ≡ has_uncommitted sample.now }
{
    let entries = sample.head.entries;
    let written = BLOCK_ENTRIES * (entries / BLOCK_ENTRIES);
    sample.committed.max(written) < entries
}

// Settles what was written, and then this head.
#[tactic(auto, using(crate::proofs::Traces::heading))]
pub(crate) fn settle_head<S: Store>(store: &mut S, head: &Head) -> Result<(), Fault>
    ensures { Trace S.Store.does S.Store.meaning S.Store.own S.Store.source S.Store.steady (S.Store.state store.old) (head_calls (head_fields head.now)) result (S.Store.state store.new) }
{
    store.flush()?;
    store.write(0, &head.encode())?;
    store.flush()
}
