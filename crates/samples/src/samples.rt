pub mod counting;
pub mod slots;

use layouts::Head;
use records::{RECORD_BYTES, RecordKind};
use sampling::ROWS;
use std::marker::{Model, PhantomData};
use stores::BLOCK_BYTES;

// All that a sampler knows of its card, of records of kind K. Its arrays are of fixed size and lie in it: some 9 KB.
#[derive(Drop)]
pub struct Sample<K: RecordKind> {
    pub head: Head,
    // How many of the log's entries the head on the card counts.
    pub committed: u16,
    // Each slot's record, and zeros where no record has filled it.
    pub rows: [[u8; RECORD_BYTES]; ROWS],
    // Which slots have an entry in the log.
    pub logged: [bool; ROWS],
    // The log block in work: that in which the next entry comes, where it has some.
    pub work: [u8; BLOCK_BYTES],
    pub kind: PhantomData<K>,
}

// The head is of this kind, it counts no fewer log entries than that on the card, and each slot that it says is filled has a record's bytes.
impl<K: RecordKind> Model for Sample<K> {
    ghost use Rattle.std.specs.Prelude.{◌≡◌, ◌≤◌, List};
    ghost use Rattle.layouts.specs.Heads.{head_fields};
    ghost use Rattle.cards.specs.Memories.{Memory, RowsLawful};

    ghost Value = { Memory };

    ghost view = { λ t. record { head = head_fields t.head; committed = t.committed; rows = t.rows; logged = t.logged; work = t.work } };

    ghost invariant = { λ t. (t.head.kind ≡ K.CODE) × (t.committed ≤ t.head.entries) × RowsLawful K.wrong (head_fields t.head) t.rows };
}
