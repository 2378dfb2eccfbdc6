ghost use Rattle.std.specs.Prelude.{◌≡◌, ◌*◌, ◌<◌, IfOk};
ghost use Rattle.traces.specs.Traces.{Trace};
ghost use Rattle.workings.specs.Refreshes.{touched, row_write, row_writes, touched_blocks, of_block, joined};
ghost use Rattle.commits.specs.Steps.{unnumbered, sample_blocks_of};

use faults::Fault;
use layouts::BLOCK_SLOTS;
use records::RecordKind;
use samples::Sample;
use stores::Store;

// Writes the sample blocks that hold a slot of the log; answers how many they were.
#[tactic(auto, using(crate::proofs::RowWrites::writing))]
pub(crate) fn write_rows<S: Store, K: RecordKind>(
    store: &mut S,
    sample: &Sample<K>,
) -> Result<u16, Fault>
    ensures calls { Trace S.Store.does S.Store.meaning S.Store.own S.Store.source S.Store.steady (S.Store.state store.old) (row_writes sample.now (sample_blocks_of sample.now)) (unnumbered result) (S.Store.state store.new) }
    ensures number { IfOk result (λ n. n ≡ touched_blocks sample.now (sample_blocks_of sample.now)) }
{
    let blocks = sample.head.shape.sample_blocks();
    let mut written = 0;
    for block in 0..blocks { // block up to blocks - 1
        if write_row(store, sample, block)? {
            written += 1;
        }
    }
    Ok(written)
}

// Writes this sample block, counted from 0, if it holds a slot of the log; answers whether it does.
#[tactic(auto, using(crate::proofs::Traces::choosing))]
fn write_row<S: Store, K: RecordKind>(
    store: &mut S,
    sample: &Sample<K>,
    block: u32,
) -> Result<bool, Fault>
    requires { block < 16 }
    ensures calls { Trace S.Store.does S.Store.meaning S.Store.own S.Store.source S.Store.steady (S.Store.state store.old) (row_write sample.now block) (unnumbered result) (S.Store.state store.new) }
    ensures answer { IfOk result (λ held. held ≡ touched sample.now block) }
{
    let held = is_touched(sample, block);
    if held {
        store.write(1 + block, row_bytes(sample, block))?;
    }
    Ok(held)
}

// Whether a sample block holds a slot of the log.
fn is_touched<K: RecordKind>(sample: &Sample<K>, block: u32) -> bool
    requires { block < 16 }
    ensures { result ≡ touched sample.now block }
{
    let first = first_slot(block);
    sample.logged[first..first + usize::from(BLOCK_SLOTS)].contains(&true)
}

// The bytes of a sample block, with the newest records of its slots.
#[tactic(auto, using(crate::proofs::SampleBlocks::rows_flat))]
fn row_bytes<K: RecordKind>(sample: &Sample<K>, block: u32) -> &[u8]
    requires { block < 16 }
    ensures { result.now ≡ joined (of_block sample.now.rows block) }
{
    let first = first_slot(block);
    sample.rows[first..first + usize::from(BLOCK_SLOTS)].as_flattened()
}

// The first slot of a sample block.
fn first_slot(block: u32) -> usize
    ensures { result ≡ 42 * block }
{
    usize::from(BLOCK_SLOTS) * block as usize
}
