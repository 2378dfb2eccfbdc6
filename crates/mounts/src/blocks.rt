ghost use Rattle.mounts.specs.Parts.{FetchOutcome, FetchCalls};

use faults::Fault;
use stores::{BLOCK_BYTES, Store};

// Reads a block, unless it is the one that the buffer has.
pub(crate) fn fetch<S: Store>(
    store: &mut S,
    block: u32,
    is_new: bool,
    buffer: &mut [u8; BLOCK_BYTES],
) -> Result<(), Fault>
    ensures outcome { FetchOutcome S.Store.own S.Store.source (S.Store.meaning (S.Store.state store.old)) (S.Store.meaning (S.Store.state store.new)) block is_new buffer.old buffer.new result }
    ensures calls { FetchCalls S.Store.does (S.Store.state store.old) block is_new result (S.Store.state store.new) }
{
    if is_new {
        return store.read(block, buffer);
    }
    Ok(())
}
