ghost use Rattle.std.specs.Prelude.{◌≡◌, ◌≢◌, ℕ, ◌*◌, ◌%◌};
ghost use Rattle.layouts.specs.Slots.{slot_at, with_slot};

use records::RECORD_BYTES;
use stores::BLOCK_BYTES;

// How many slots a sample block has.
pub const BLOCK_SLOTS: u16 = 42;

// Where a slot begins in the sample block that it lies in.
fn start(slot: u16) -> usize
    ensures { result ≡ 12 * (slot % 42) }
{
    RECORD_BYTES * usize::from(slot % BLOCK_SLOTS)
}

// The bytes of this slot, out of the sample block that it lies in.
pub fn slot_bytes(block: &[u8; BLOCK_BYTES], slot: u16) -> [u8; RECORD_BYTES]
    ensures { result ≡ slot_at block.now (slot % 42) }
{
    let at = start(slot);
    let mut bytes = [0; RECORD_BYTES];
    bytes.copy_from_slice(&block[at..at + RECORD_BYTES]);
    bytes
}

// Puts a record's bytes in this slot, in the sample block that it lies in.
pub fn put_slot(block: &mut [u8; BLOCK_BYTES], slot: u16, bytes: &[u8; RECORD_BYTES])
    ensures block { block.new ≡ with_slot block.old (slot % 42) bytes.now }
    ensures here { slot_at block.new (slot % 42) ≡ bytes.now }
    ensures others { (other : ℕ) → (other ≢ slot % 42) → slot_at block.new other ≡ slot_at block.old other }
{
    let at = start(slot);
    block[at..at + RECORD_BYTES].copy_from_slice(bytes);
}
