ghost use Rattle.std.specs.Prelude.{◌≡◌, true, vec_capacity, refl};
ghost use Rattle.std.specs.Vec.{vec_ptr, vec_allocator};
ghost use Rattle.faults.specs.declared.faults.Layer.TheVariants.{Device};
ghost use Rattle.stores.specs.Meanings.{Steadily};
ghost use Rattle.stores.specs.Outcomes.{ReadOutcome, WriteOutcome, FlushOutcome, RestartOutcome};
ghost use Rattle.stores.specs.Calls.{reads, writes, flushes, restarts, response};
ghost use Rattle.images.specs.Images.{View, view_of, meaning_of, image_response, image_does, memory_after, Made};
ghost use Rattle.images.specs.Blocks.{image_lawful};

use crate::images::Image;
use faults::{Fault, Layer};
use stores::{BLOCK_BYTES, BLOCK_LIMIT, SteadyStore, Store, admit, powered};

impl Image {
    // An image of this memory, off.
    pub fn new(bytes: Vec<u8>) -> Image
        ensures { Made bytes result }
    {
        Image { bytes, on: false }
    }

    // The memory, with what was written in it. A method as std's `into_bytes`, and no From: the name says what is left.
    pub fn into_bytes(self) -> Vec<u8>
        ensures { result ≡ self.bytes }
    {
        let Image { bytes, .. } = self;
        bytes
    }
}

// The trait's clauses stand again in each call, since a call that promises more has to repeat them.
impl Store for Image {
    ghost State = { View };

    ghost state = { view_of };

    ghost meaning = { meaning_of };

    ghost does = { image_does };

    ghost own = { Device };

    ghost source = { Device };

    ghost steady = { true };

    ghost lawful = { λ s. image_lawful s.on s.bytes.items };

    // As a bench's disk has it, in blocks of another span: shared, this line would need an answer for a span of zero.
    fn size(&self) -> u32 {
        (self.bytes.len() / BLOCK_BYTES).min(BLOCK_LIMIT as usize) as u32
    }

    fn read(&mut self, block: u32, buf: &mut [u8]) -> Result<(), Fault>
        ensures outcome { ReadOutcome 504 Device Device (meaning_of (view_of self.old)) (meaning_of (view_of self.new)) block buf.old buf.new result }
        ensures sound { Steadily true (meaning_of (view_of self.old)) (meaning_of (view_of self.new)) }
        ensures exact { record { answer = result; buffer = buf.new; next = view_of self.new } ≡ image_response (view_of self.old) (reads block buf.old) }
        ensures memory { self.new.bytes ≡ self.old.bytes }
    {
        admit(Layer::Device, self.size(), self.on, block, buf.len())?;
        let start = BLOCK_BYTES * block as usize;
        buf.copy_from_slice(&self.bytes[start..start + BLOCK_BYTES]);
        Ok(())
    }

    fn write(&mut self, block: u32, bytes: &[u8]) -> Result<(), Fault>
        ensures outcome { WriteOutcome 504 Device Device (meaning_of (view_of self.old)) (meaning_of (view_of self.new)) block bytes.now result }
        ensures sound { Steadily true (meaning_of (view_of self.old)) (meaning_of (view_of self.new)) }
        ensures exact { response result (view_of self.new) ≡ image_response (view_of self.old) (writes block bytes.now) }
        ensures memory { self.new.bytes.items ≡ memory_after result self.old.bytes.items block bytes.now }
        ensures place { vec_ptr self.new.bytes ≡ vec_ptr self.old.bytes }
        ensures room { vec_capacity self.new.bytes ≡ vec_capacity self.old.bytes }
        ensures heap { vec_allocator self.new.bytes ≡ vec_allocator self.old.bytes }
    {
        admit(Layer::Device, self.size(), self.on, block, bytes.len())?;
        let start = BLOCK_BYTES * block as usize;
        self.bytes[start..start + BLOCK_BYTES].copy_from_slice(bytes);
        Ok(())
    }

    fn flush(&mut self) -> Result<(), Fault>
        ensures outcome { FlushOutcome Device Device (meaning_of (view_of self.old)) (meaning_of (view_of self.new)) result }
        ensures sound { Steadily true (meaning_of (view_of self.old)) (meaning_of (view_of self.new)) }
        ensures exact { response result (view_of self.new) ≡ image_response (view_of self.old) flushes }
        ensures memory { self.new.bytes ≡ self.old.bytes }
    {
        powered(Layer::Device, self.on)
    }

    fn restart(&mut self) -> Result<(), Fault>
        ensures outcome { RestartOutcome Device (meaning_of (view_of self.old)) (meaning_of (view_of self.new)) result }
        ensures sound { Steadily true (meaning_of (view_of self.old)) (meaning_of (view_of self.new)) }
        ensures exact { response result (view_of self.new) ≡ image_response (view_of self.old) restarts }
        ensures memory { self.new.bytes ≡ self.old.bytes }
    {
        self.on = true;
        Ok(())
    }
}

impl SteadyStore for Image {
    ghost is_steady = { refl };
}
