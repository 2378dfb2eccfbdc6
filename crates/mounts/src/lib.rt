// Mounts a store: restarts it, checks its card, and remembers it.
#![tactic(auto)]

ghost use Rattle.std.specs.Prelude.{◌≡◌, true};
ghost use Rattle.stores.specs.Meanings.{Steadily};
ghost use Rattle.mounts.specs.Mounts.{MountOutcome, CardCalls, MountCalls};
ghost use Rattle.mounts.specs.Parts.{CardOutcome};

mod blocks;
mod heads;
mod logs;
mod slots;

use crate::heads::read_head;
use crate::logs::{Log, read_log};
use crate::slots::read_slots;
use faults::Fault;
use records::RecordKind;
use samples::Sample;
use std::marker::PhantomData;
use stores::Store;

// Restarts the store and reads its card once: the head, the log, and the sample blocks that records have filled, in
// this order. The first thing that is wrong refuses it.
#[tactic(auto, using(crate::proofs::Restarts::mounted))]
pub fn mount<S: Store, K: RecordKind>(store: &mut S) -> Result<Sample<K>, Fault>
    ensures outcome { MountOutcome S.Store.own S.Store.source K.CODE K.wrong (S.Store.meaning (S.Store.state store.old)) (S.Store.meaning (S.Store.state store.new)) result }
    ensures sound { Steadily S.Store.steady (S.Store.meaning (S.Store.state store.old)) (S.Store.meaning (S.Store.state store.new)) }
    ensures calls { MountCalls S.Store.own K.CODE K.wrong S.Store.does S.Store.meaning (S.Store.state store.old) result (S.Store.state store.new) }
{
    store.restart()?;
    read_card::<S, K>(store)
}

// Reads the card of a store that is on.
fn read_card<S: Store, K: RecordKind>(store: &mut S) -> Result<Sample<K>, Fault>
    requires { (S.Store.meaning (S.Store.state store.old)).on ≡ true }
    ensures outcome { CardOutcome S.Store.own S.Store.source K.CODE K.wrong (S.Store.meaning (S.Store.state store.old)) (S.Store.meaning (S.Store.state store.new)) result }
    ensures calls { CardCalls S.Store.own K.CODE K.wrong S.Store.does S.Store.meaning (S.Store.state store.old) result (S.Store.state store.new) }
{
    let head = read_head::<S, K>(store)?;
    let mut log = read_log::<S, K>(store, &head)?;
    read_slots::<S, K>(store, &head, &log.logged, &mut log.rows)?;
    let Log {
        rows,
        logged,
        work,
        ..
    } = log;
    Ok(Sample {
        head,
        committed: head.entries,
        rows,
        logged,
        work,
        kind: PhantomData,
    })
}
