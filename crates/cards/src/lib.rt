// What a card is, block by block: definitions, the laws about them, and where in it a slot and an entry lie.
#![tactic(auto)]

ghost use Rattle.std.specs.Prelude.{◌≡◌};
ghost use Rattle.layouts.specs.Heads.{head_fields};
ghost use Rattle.cards.specs.Cards.{slot_block, entry_block, filled};

use layouts::{BLOCK_ENTRIES, BLOCK_SLOTS, Head};

// The sample block that a slot lies in.
pub fn slot_block(slot: u16) -> u32
    ensures { result ≡ slot_block slot }
{
    1 + u32::from(slot / BLOCK_SLOTS)
}

// The log block that the entry at this position, counted from 0, lies in.
pub fn entry_block(head: &Head, position: u16) -> u32
    ensures { result ≡ entry_block (head_fields head.now) position }
{
    1 + head.shape.sample_blocks() + u32::from(position / BLOCK_ENTRIES)
}

// How many slots records have filled: the first so many.
pub fn filled(head: &Head) -> u16
    ensures { result ≡ filled (head_fields head.now) }
{
    head.count.min(u32::from(head.shape.size)) as u16
}
