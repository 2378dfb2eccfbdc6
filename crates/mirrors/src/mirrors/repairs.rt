ghost use Rattle.std.specs.Prelude.{◌≡◌, ◌<◌, true, replicate};
ghost use Rattle.stores.specs.Meanings.{Settled};
ghost use Rattle.mirrors.specs.Mirrors.{half};
ghost use Rattle.stores.specs.Calls.{InOrder};
ghost use Rattle.mirrors.specs.Below.{storing, lent, Probes, ReadsCopies, Repairs, Mends};
ghost use Rattle.mirrors.specs.Repairs.{Ready, StoreOutcome, Probed, Twins, Both, RepairOutcome, MendOutcome};

use faults::{Fault, Reason};
use stores::{BLOCK_BYTES, Store};

// How many blocks a mirror over this store has: half of its blocks, rounded down.
pub(crate) fn half<S: Store>(below: &S) -> u32
    ensures { result ≡ half (S.Store.meaning (S.Store.state below.now)) }
{
    below.size() / 2
}

// Writes a block and settles it.
pub(crate) fn put<S: Store>(below: &mut S, block: u32, bytes: &[u8]) -> Result<(), Fault>
    ensures outcome { Ready (S.Store.meaning (S.Store.state below.old)) block bytes.now → StoreOutcome S.Store.source (S.Store.meaning (S.Store.state below.old)) (S.Store.meaning (S.Store.state below.new)) block bytes.now result }
    ensures exact { InOrder S.Store.does (S.Store.state below.old) (storing block bytes.now) result (S.Store.state below.new) }
{
    below.write(block, bytes)?;
    below.flush()
}

// What a block reads, into a buffer that is zero: its bytes there, or none if it is torn. The buffer is lent, since an array
// that is handed back is copied at each step on the way.
fn probe<'a, S: Store>(
    below: &mut S,
    block: u32,
    buf: &'a mut [u8; BLOCK_BYTES],
) -> Result<Option<&'a [u8; BLOCK_BYTES]>, Fault>
    requires { buf.old ≡ replicate 504 0 }
    ensures outcome { block < (S.Store.meaning (S.Store.state below.old)).size → (S.Store.meaning (S.Store.state below.old)).on ≡ true → Probed S.Store.source (S.Store.meaning (S.Store.state below.old)) (S.Store.meaning (S.Store.state below.new)) block (lent result) }
    ensures exact { Probes S.Store.does block (S.Store.state below.old) (lent result) (S.Store.state below.new) }
{
    match below.read(block, buf) {
        Ok(()) => Ok(Some(buf)),
        Err(
            Fault {
                reason: Reason::Torn,
                ..
            },
        ) => Ok(None),
        Err(other) => Err(other),
    }
}

// What two copies read: the first, or the second if the first is torn; none if both are.
#[tactic(auto, unfolding(crate::specs::Below::ReadsCopies))]
pub(crate) fn probe_both<S: Store>(
    below: &mut S,
    first: u32,
    second: u32,
) -> Result<Option<[u8; BLOCK_BYTES]>, Fault>
    ensures outcome { Twins (S.Store.meaning (S.Store.state below.old)) first second → Both S.Store.source (S.Store.meaning (S.Store.state below.old)) (S.Store.meaning (S.Store.state below.new)) first second result }
    ensures exact { ReadsCopies S.Store.does first second (S.Store.state below.old) result (S.Store.state below.new) }
{
    let mut one = [0u8; BLOCK_BYTES];
    match probe(below, first, &mut one)? {
        Some(bytes) => Ok(Some(*bytes)),
        None => {
            let mut two = [0u8; BLOCK_BYTES];
            Ok(probe(below, second, &mut two)?.copied())
        }
    }
}

// Makes two blocks alike. The first decides if it is whole: it was written first, so it is never older than the second.
// Two arms have one body, since only the earlier of them knows that both are whole and differ.
#[tactic(auto, unfolding(crate::specs::Below::Repairs))]
fn repair<S: Store>(below: &mut S, first: u32, second: u32) -> Result<(), Fault>
    ensures outcome { Twins (S.Store.meaning (S.Store.state below.old)) first second → RepairOutcome S.Store.source (S.Store.meaning (S.Store.state below.old)) (S.Store.meaning (S.Store.state below.new)) first second result }
    ensures exact { Repairs S.Store.does first second (S.Store.state below.old) result (S.Store.state below.new) }
{
    let mut one = [0u8; BLOCK_BYTES];
    let mut two = [0u8; BLOCK_BYTES];
    match (
        probe(below, first, &mut one)?,
        probe(below, second, &mut two)?,
    ) {
        (Some(one), Some(two)) if one == two => Ok(()),
        (Some(one), Some(_)) => put(below, second, one),
        (Some(one), None) => put(below, second, one),
        (None, Some(two)) => put(below, first, two),
        (None, None) => Ok(()),
    }
}

// Goes through the blocks in ascending order. A second copy that differs must not stay: a later write that tears the
// first copy would bring it back.
#[tactic(auto, unfolding(crate::specs::Below::Mends))]
pub(crate) fn mend<S: Store>(below: &mut S) -> Result<(), Fault>
    ensures outcome { (S.Store.meaning (S.Store.state below.old)).on ≡ true → Settled (S.Store.meaning (S.Store.state below.old)) → MendOutcome S.Store.source (S.Store.meaning (S.Store.state below.old)) (S.Store.meaning (S.Store.state below.new)) result }
    ensures exact { Mends S.Store.does (half (S.Store.meaning (S.Store.state below.old))) (half (S.Store.meaning (S.Store.state below.old))) (S.Store.state below.old) result (S.Store.state below.new) }
{
    let half = half(below);
    for block in 0..half { // block up to half - 1
        repair(below, block, half + block)?;
    }
    Ok(())
}
