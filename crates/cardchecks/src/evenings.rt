use ledgers::Call;
use records::RecordKind;
use script::{Ask, Night};
use std::alloc::{AllocError, Global};

// What a night does next.
#[derive(Clone, Copy)]
pub(crate) enum Step {
    Wake,
    // So many new records.
    Insert(u8),
    Commit,
    Refresh,
    // A close, a mount, a wake and a look into every slot.
    Morning,
}

// A night up to its first morning, and what it does then.
#[derive(Clone, Copy)]
pub(crate) struct Evening {
    pub(crate) size: u16,
    pub(crate) log_blocks: u8,
    pub(crate) steps: &'static [Step],
    // How many blocks its device has: twice those of its sample.
    pub(crate) blocks: u32,
    // How many calls of the device it makes up to its first morning, over a mirror: a block that is written takes two writes
    // and two flushes.
    pub(crate) calls: u32,
    // How many inserts are refused, for a log with no room.
    pub(crate) refused: u32,
    // How many records are counted when it ends.
    pub(crate) counted: usize,
}

// The bytes of offset k: second k, satellite k mod 32, k nanoseconds.
fn offset_bytes(k: u8) -> [u8; 12] {
    [0, 0, 0, k, k % 32, 0, 0, 0, 0, 0, 0, k]
}

// The bytes of event k, at second k: in turn a satellite lost, one gained, and a holdover.
fn event_bytes(k: u8) -> [u8; 12] {
    let satellite = if k % 3 == 2 { 0 } else { k % 32 };
    [0, 0, 0, k, k % 3 + 1, satellite, 0, 0, 0, 0, 0, 0]
}

// Record k of either kind: no two are the same.
pub(crate) fn record<K: RecordKind>(k: u8) -> Result<K, AllocError> {
    let bytes = if K::CODE == 1 {
        offset_bytes(k)
    } else {
        event_bytes(k)
    };
    K::decode(&bytes).map_err(|_fault| AllocError)
}

fn add_inserts<K: RecordKind>(asks: &mut Vec<Ask<K>>, from: u8, to: u8) -> Result<(), AllocError> {
    for k in from..to { // k up to to - 1
        asks.push(Ask::Calls(Call::Insert(record(k)?)))?;
    }
    Ok(())
}

fn add_morning<K: RecordKind>(asks: &mut Vec<Ask<K>>) -> Result<(), AllocError> {
    asks.push(Ask::Calls(Call::Close))?;
    asks.push(Ask::Calls(Call::Mount))?;
    asks.push(Ask::Calls(Call::Wake))?;
    asks.push(Ask::Report)?;
    Ok(())
}

// The asks of a night of these steps.
fn asks<K: RecordKind>(heap: Global, steps: &[Step]) -> Result<Vec<Ask<K>>, AllocError> {
    let mut asks = Vec::new(heap);
    let mut next = 0u8;
    for step in steps {
        match step {
            Step::Wake => asks.push(Ask::Calls(Call::Wake))?,
            Step::Insert(many) => {
                let past = next.saturating_add(*many);
                add_inserts(&mut asks, next, past)?;
                next = past;
            }
            Step::Commit => asks.push(Ask::Calls(Call::Commit))?,
            Step::Refresh => asks.push(Ask::Calls(Call::Refresh))?,
            Step::Morning => add_morning(&mut asks)?,
        }
    }
    Ok(asks)
}

impl Evening {
    // The night with the seed 0.
    pub(crate) fn night<K: RecordKind>(&self, heap: Global) -> Result<Night<K>, AllocError> {
        Ok(Night {
            size: self.size,
            log_blocks: self.log_blocks,
            seed: 0,
            asks: asks(heap, self.steps)?,
        })
    }
}
