ghost use Rattle.std.specs.Prelude.{◌≡◌, ◌+◌, ◌*◌, ◌<◌, ◌≤◌, [], ◌∷◌, ◌++◌, length, vec_len, vec_capacity, IfSome, MatchResult};
ghost use Rattle.std.specs.Option.{option_copied, option_map};
ghost use Rattle.benches.specs.Held.{blocks_in, content, shown, settled, writes_of, latest, settled_all, room_mem, room_held, Inside};
ghost use Rattle.benches.specs.Views.{allocation_of};
ghost use Rattle.benches.specs.Passes.{Pass, settled_or_tore, chosen, left_after, passed};

use crate::finds::{count, last, nth};
use crate::held::Held;
use std::alloc::Global;
use std::collections::VecDeque;
use stores::{BLOCK_BYTES, BLOCK_LIMIT};

// A block in the memory: its bytes, and the byte that says whether it is torn.
const SPAN: usize = BLOCK_BYTES + 1;

// How many writes are held at most.
const HELD_LIMIT: usize = 16;

// Settled blocks in the caller's memory, and the writes that are not settled in it yet. These are in a `Vec` with room
// from the start: a vector of fixed room, as `arrayvec` has one, would be one more crate to trust.
// That a block lies in the memory is asked where a block is given: no type of the block alone can keep a fact of this
// memory.
#[derive(Drop)]
pub struct Disk {
    bytes: Vec<u8>,
    held: Vec<Held>,
    ghost few: { vec_len held ≤ 16 },
    ghost room: { 16 ≤ vec_capacity held },
    ghost inside: { Inside (length bytes.items) held.items },
}

// Settles these bytes at a block.
fn settle(mem: &mut [u8], block: u32, bytes: &[u8; BLOCK_BYTES])
    requires { 505 * block + 505 ≤ length mem.old }
    ensures { mem.new ≡ settled mem.old block bytes.now }
{
    let start = SPAN * block as usize;
    mem[start..start + BLOCK_BYTES].copy_from_slice(bytes);
    mem[start + BLOCK_BYTES] = 0;
}

// Settles all held writes.
fn settle_all(mem: &mut [u8], held: &[Held])
    requires { Inside (length mem.old) held.now }
    ensures { mem.new ≡ settled_all mem.old held.now }
{
    for h in held {
        settle(mem, h.block, &h.bytes);
    }
}

// Settles the held write that is kept at a block, or tears the block if none is.
fn keep(mem: &mut [u8], block: u32, write: Option<&Held>)
    requires { 505 * block + 505 ≤ length mem.old }
    ensures { mem.new ≡ settled_or_tore mem.old block (option_map (λ h. h.now.bytes) write.entry) }
{
    match write {
        Some(h) => settle(mem, block, &h.bytes),
        None => mem[SPAN * block as usize + BLOCK_BYTES] = 1,
    }
}

impl Disk {
    // A disk that holds nothing, or the bytes back if the heap has no memory to hold writes in.
    pub(crate) fn new(heap: Global, bytes: Vec<u8>) -> Result<Disk, Vec<u8>>
        ensures { MatchResult result (λ d. (d.bytes ≡ bytes) × (d.held.items ≡ [])) (λ back. back ≡ bytes) }
    {
        match Vec::with_capacity(heap, HELD_LIMIT) {
            Ok(held) => Ok(Disk { bytes, held }),
            Err(_) => Err(bytes),
        }
    }

    // The memory, with what is settled in it. A method as std's `into_bytes`, and no From: the name says what is left.
    pub(crate) fn into_bytes(self) -> Vec<u8>
        ensures { result ≡ self.bytes }
    {
        let Disk { bytes, held: _ } = self;
        bytes
    }

    // As many whole blocks as fit in the memory, up to the limit. As an image has it, in blocks of another span: shared,
    // this line would need an answer for a span of zero.
    pub(crate) fn size(&self) -> u32
        ensures { result ≡ blocks_in (length self.now.bytes.items) }
    {
        (self.bytes.len() / SPAN).min(BLOCK_LIMIT as usize) as u32
    }

    // What a block reads, or none where it is torn.
    pub(crate) fn look(&self, block: u32) -> Option<&[u8]>
        requires { block < blocks_in (length self.now.bytes.items) }
        ensures shown { option_copied result ≡ shown (latest (content self.now.bytes.items block) (writes_of self.now.held.items block)) }
        ensures long { IfSome result (λ bytes. length bytes.now ≡ 504) }
    {
        match last(&self.held, block) {
            Some(h) => Some(&h.bytes),
            None => {
                let start = SPAN * block as usize;
                let whole = self.bytes[start + BLOCK_BYTES] == 0;
                whole.then_some(&self.bytes[start..start + BLOCK_BYTES])
            }
        }
    }

    // Settles the held writes.
    pub(crate) fn settle(&mut self)
        ensures memory { self.new.bytes.items ≡ settled_all self.old.bytes.items self.old.held.items }
        ensures held { self.new.held.items ≡ [] }
        ensures long { length self.new.bytes.items ≡ length self.old.bytes.items }
        ensures allocation { allocation_of self.new.bytes ≡ allocation_of self.old.bytes }
    {
        settle_all(&mut self.bytes, &self.held);
        self.held.clear();
    }

    // Holds a write; a 17th first settles the 16.
    pub(crate) fn hold(&mut self, write: Held)
        requires { write.block < blocks_in (length self.old.bytes.items) }
        ensures memory { self.new.bytes.items ≡ room_mem self.old.bytes.items self.old.held.items }
        ensures held { self.new.held.items ≡ room_held self.old.held.items ++ write ∷ [] }
        ensures long { length self.new.bytes.items ≡ length self.old.bytes.items }
        ensures allocation { allocation_of self.new.bytes ≡ allocation_of self.old.bytes }
    {
        if self.held.len() >= HELD_LIMIT {
            self.settle();
        }
        self.held.push_reserved(write);
    }

    // Which held write of a block is kept, from 0: none where what is settled stays, and past the last the block is
    // torn. If a write of it is held, the next choice decides. It gives a number and no write: torn counts as one past
    // the held writes, and `nth` has none there.
    fn chosen(&self, block: u32, choices: &mut VecDeque<u8>) -> Option<usize>
        ensures number { result ≡ chosen (length (writes_of self.now.held.items block)) choices.old.items }
        ensures left { choices.new.items ≡ left_after (length (writes_of self.now.held.items block)) choices.old.items }
    {
        let writes = count(&self.held, block);
        if writes == 0 {
            return None;
        }
        let choice = choices.pop_front().unwrap_or(0);
        (usize::from(choice) % (writes + 2)).checked_sub(1)
    }

    // Decides what stands at each block, and holds nothing after it. Where nothing is held, each block stays as it is and
    // none is looked at.
    pub(crate) fn restart(&mut self, choices: &mut VecDeque<u8>)
        ensures pass { ◌≡◌ {A = Pass} (record { mem = self.new.bytes.items; left = choices.new.items }) (passed self.old.held.items (record { mem = self.old.bytes.items; left = choices.old.items }) (blocks_in (length self.old.bytes.items))) }
        ensures held { self.new.held.items ≡ [] }
        ensures long { length self.new.bytes.items ≡ length self.old.bytes.items }
        ensures allocation { allocation_of self.new.bytes ≡ allocation_of self.old.bytes }
    {
        if self.held.is_empty() {
            return;
        }
        for b in 0..self.size() { // b up to size - 1
            if let Some(number) = self.chosen(b, choices) {
                let write = nth(&self.held, b, number);
                keep(&mut self.bytes, b, write);
            }
        }
        self.held.clear();
    }
}
