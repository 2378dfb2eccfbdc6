pub mod codec;

use records::RECORD_BYTES;

// How many bytes a record's number takes, and how many an entry.
const NUMBER_BYTES: usize = 4;

pub const ENTRY_BYTES: usize = NUMBER_BYTES + RECORD_BYTES;

// How many entries a log block has.
pub const BLOCK_ENTRIES: u16 = 31;

// An entry of the log: a record's number, and its bytes. The bytes are those of the block, whether a record has them or
// not.
#[derive(Clone, Copy, PartialEq, Eq, Debug)]
pub struct Entry {
    pub number: u32,
    pub bytes: [u8; RECORD_BYTES],
}
