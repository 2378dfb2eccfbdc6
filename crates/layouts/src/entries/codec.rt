ghost use Rattle.std.specs.Prelude.{◌≡◌, ◌≢◌, ℕ, ◌*◌, ◌%◌};
ghost use Rattle.layouts.specs.Entries.{entry_bytes, entry_at, entry_bytes_at, with_entry};

use crate::entries::{BLOCK_ENTRIES, ENTRY_BYTES, Entry, NUMBER_BYTES};
use records::RECORD_BYTES;
use stores::BLOCK_BYTES;

// Where an entry begins in the block that it lies in, by its position in the log, counted from 0.
fn start(position: u16) -> usize
    ensures { result ≡ 16 * (position % 31) }
{
    ENTRY_BYTES * usize::from(position % BLOCK_ENTRIES)
}

impl Entry {
    // The entry's bytes.
    #[tactic(auto, using(crate::proofs::EntryLaws::entry_back))]
    pub fn encode(&self) -> [u8; ENTRY_BYTES]
        ensures value { result ≡ entry_bytes self.now }
        ensures read_back { entry_at result 0 ≡ self.now }
    {
        let number = self.number;
        let mut bytes = [0; ENTRY_BYTES];
        bytes[..NUMBER_BYTES].copy_from_slice(&number.to_be_bytes());
        bytes[NUMBER_BYTES..].copy_from_slice(&self.bytes);
        bytes
    }

    // The entry at this position of the log, counted from 0, out of the block that it lies in.
    pub fn decode(block: &[u8; BLOCK_BYTES], position: u16) -> Entry
        ensures value { result ≡ entry_at block.now (position % 31) }
        ensures written { entry_bytes result ≡ entry_bytes_at block.now (position % 31) }
    {
        let at = start(position);
        let number = u32::from_be_bytes([block[at], block[at + 1], block[at + 2], block[at + 3]]);
        let mut bytes = [0; RECORD_BYTES];
        bytes.copy_from_slice(&block[at + NUMBER_BYTES..at + ENTRY_BYTES]);
        Entry { number, bytes }
    }

    // Puts the entry at this position of the log, counted from 0, in the block that it lies in.
    pub fn put(&self, block: &mut [u8; BLOCK_BYTES], position: u16)
        ensures block { block.new ≡ with_entry block.old (position % 31) self.now }
        ensures here { entry_at block.new (position % 31) ≡ self.now }
        ensures others { (other : ℕ) → (other ≢ position % 31) → entry_at block.new other ≡ entry_at block.old other }
    {
        let at = start(position);
        block[at..at + ENTRY_BYTES].copy_from_slice(&self.encode());
    }
}
