ghost use Rattle.std.specs.Prelude.{◌≡◌, IfOk};
ghost use Rattle.layouts.specs.Heads.{head_fields};
ghost use Rattle.traces.specs.Traces.{Trace};
ghost use Rattle.workings.specs.Refreshes.{refresh_calls, refresh_answer, emptying_calls, touched_blocks, emptied};
ghost use Rattle.commits.specs.Steps.{unnumbered, sample_blocks_of};

use crate::committing::{commit, settle_head};
use crate::rows::write_rows;
use faults::Fault;
use layouts::Head;
use records::RecordKind;
use samples::Sample;
use stores::Store;

// Commits, and then empties the log into the sample blocks; answers how many of them were written.
#[tactic(auto, using(crate::proofs::Traces::joining))]
pub fn refresh<S: Store, K: RecordKind>(store: &mut S, sample: &Sample<K>) -> Result<u16, Fault>
    ensures calls { Trace S.Store.does S.Store.meaning S.Store.own S.Store.source S.Store.steady (S.Store.state store.old) (refresh_calls sample.now) (unnumbered result) (S.Store.state store.new) }
    ensures number { IfOk result (λ n. n ≡ refresh_answer sample.now) }
{
    commit(store, sample)?;
    if sample.head.entries == 0 {
        return Ok(0);
    }
    empty_log(store, sample)
}

// Writes the sample blocks that hold a slot of the log, and then a head with an empty log; answers how many those were.
#[tactic(auto, using(crate::proofs::Traces::joining))]
fn empty_log<S: Store, K: RecordKind>(store: &mut S, sample: &Sample<K>) -> Result<u16, Fault>
    ensures calls { Trace S.Store.does S.Store.meaning S.Store.own S.Store.source S.Store.steady (S.Store.state store.old) (emptying_calls sample.now) (unnumbered result) (S.Store.state store.new) }
    ensures number { IfOk result (λ n. n ≡ touched_blocks sample.now (sample_blocks_of sample.now)) }
{
    let written = write_rows(store, sample)?;
    settle_head(store, &emptied(&sample.head))?;
    Ok(written)
}

// This head, with an empty log.
fn emptied(head: &Head) -> Head
    ensures { head_fields result ≡ emptied (head_fields head.now) }
{
    let mut empty = *head;
    empty.entries = 0;
    empty
}
