// How a sample lies in the blocks of a store: how many blocks it takes, its head, its slots and the entries of its log.
#![tactic(auto)]

mod entries;
mod heads;
mod shapes;
mod slots;

pub use entries::{BLOCK_ENTRIES, ENTRY_BYTES, Entry};
pub use heads::Head;
pub use heads::codec::reread;
pub use shapes::{LOG_LIMIT, Shape};
pub use slots::{BLOCK_SLOTS, put_slot, slot_bytes};
