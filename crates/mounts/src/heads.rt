ghost use Rattle.std.specs.Prelude.{◌≡◌, ◌≤◌, IfOk};
ghost use Rattle.layouts.specs.Heads.{head_fields, card_blocks};
ghost use Rattle.mounts.specs.Parts.{HeadOutcome, HeadCalls};

use faults::Fault;
use faults::Layer::Sampler;
use faults::Reason::OtherKind;
use layouts::Head;
use records::RecordKind;
use stores::{BLOCK_BYTES, Store};

// The head of the card, if it is a lawful one and of this kind.
pub(crate) fn read_head<S: Store, K: RecordKind>(store: &mut S) -> Result<Head, Fault>
    ensures outcome { HeadOutcome S.Store.own S.Store.source K.CODE (S.Store.meaning (S.Store.state store.old)) (S.Store.meaning (S.Store.state store.new)) result }
    ensures head { IfOk result (λ h. (h.kind ≡ K.CODE) × (card_blocks (head_fields h) ≤ (S.Store.meaning (S.Store.state store.new)).size)) }
    ensures calls { HeadCalls S.Store.own K.CODE S.Store.does S.Store.meaning (S.Store.state store.old) result (S.Store.state store.new) }
{
    let mut block = [0; BLOCK_BYTES];
    store.read(0, &mut block)?;
    let head = Head::decode(&block, store.size())?;
    if head.kind != K::CODE {
        return Err(Sampler.fault(OtherKind, u64::from(head.kind)));
    }
    Ok(head)
}
