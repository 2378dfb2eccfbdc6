// Formats a store.
#![tactic(auto)]

ghost use Rattle.std.specs.Prelude.{◌≡◌, ◌+◌, ◌≤◌, true};
ghost use Rattle.stores.specs.Calls.{InOrder};
ghost use Rattle.stores.specs.Meanings.{Steadily};
ghost use Rattle.layouts.specs.Heads.{head_fields};
ghost use Rattle.formats.specs.Fills.{fill_calls, FillOutcome};
ghost use Rattle.formats.specs.Formats.{FormatOutcome, FormatCalls};

use faults::Fault;
use faults::Layer::Sampler;
use faults::Reason::StoreTooSmall;
use layouts::Head;
use stores::{BLOCK_BYTES, Store};

// Makes the store that of a sample with this head and zero sample blocks, which is an empty one where the head counts no
// record. The head goes out last, when all else is settled, so that a cut leaves the old card, no lawful head, or this
// head over zeros.
#[tactic(auto, using(crate::proofs::Formats::formatting))]
pub fn format<S: Store>(store: &mut S, head: &Head) -> Result<(), Fault>
    ensures outcome { FormatOutcome S.Store.source (S.Store.meaning (S.Store.state store.old)) (S.Store.meaning (S.Store.state store.new)) (head_fields head.now) result }
    ensures sound { Steadily S.Store.steady (S.Store.meaning (S.Store.state store.old)) (S.Store.meaning (S.Store.state store.new)) }
    ensures calls { FormatCalls S.Store.does (S.Store.meaning (S.Store.state store.old)).size (head_fields head.now) (S.Store.state store.old) result (S.Store.state store.new) }
{
    let size = store.size();
    if size < head.shape.blocks() {
        return Err(Sampler.fault(StoreTooSmall, u64::from(size)));
    }
    let zeros = [0; BLOCK_BYTES];
    store.restart()?;
    fill(store, 0, 1, &zeros)?;
    fill(store, 1, head.shape.sample_blocks(), &zeros)?;
    fill(store, 0, 1, &head.encode())
}

// Writes these bytes to so many blocks, from the first on in ascending order, and settles them.
#[tactic(auto, using(crate::proofs::Fills::filling))]
fn fill<S: Store>(
    store: &mut S,
    first: u32,
    count: u32,
    bytes: &[u8; BLOCK_BYTES],
) -> Result<(), Fault>
    requires room { first + count ≤ (S.Store.meaning (S.Store.state store.old)).size }
    requires on { (S.Store.meaning (S.Store.state store.old)).on ≡ true }
    ensures outcome { FillOutcome S.Store.source first count bytes.now (S.Store.meaning (S.Store.state store.old)) (S.Store.meaning (S.Store.state store.new)) result }
    ensures sound { Steadily S.Store.steady (S.Store.meaning (S.Store.state store.old)) (S.Store.meaning (S.Store.state store.new)) }
    ensures calls { InOrder S.Store.does (S.Store.state store.old) (fill_calls first count bytes.now) result (S.Store.state store.new) }
{
    for i in 0..count { // up to count - 1
        store.write(first + i, bytes)?;
    }
    store.flush()
}
