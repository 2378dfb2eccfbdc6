ghost use Rattle.std.specs.Prelude.{◌≡◌, Bool, true};
ghost use Rattle.faults.specs.declared.faults.Layer.{Layer};
ghost use Rattle.stores.specs.Meanings.{Meaning, Lawful, Steadily};
ghost use Rattle.stores.specs.Outcomes.{ReadOutcome, WriteOutcome, FlushOutcome, RestartOutcome};
ghost use Rattle.stores.specs.Calls.{Call, Response, reads, writes, flushes, restarts, response};

use faults::Fault;

// How many bytes a block has.
pub const BLOCK_BYTES: usize = 504;

// The most blocks that a store has.
pub const BLOCK_LIMIT: u32 = 65_536;

// A store of blocks, numbered from 0. It is made off, and a restart turns it on. What is promised holds of every value
// of the type: what has to be true of the made one, and stay true through every call, is the type's own invariant.
pub trait Store {
    // All that a store has and a caller may know, of whatever it is made.
    ghost State: { Type 0 };

    ghost state: { Self → State };

    // What it means: its size, whether it is on, what its blocks read, what may stand at them after a cut, and whether
    // its supply lasts. The rules for every store are said of this.
    ghost meaning: { State → Meaning };

    // What this store in particular says to a call. The rules leave some things open, as what a cut leaves; a device or a
    // layer says by this what it does about them.
    ghost does: { State → Call → Response State → Type 0 };

    // The layer that the store's own refusals carry, and the layer at the bottom, where the supply fails.
    ghost own: { Layer };

    ghost source: { Layer };

    // Whether the store stays sound once it is: torn may stand at no block, whatever is called and wherever the power
    // is cut.
    ghost steady: { Bool };

    fn size(&self) -> u32
        ensures { result ≡ (meaning (state self.now)).size };

    // Reads a block into the caller's buffer.
    fn read(&mut self, block: u32, buf: &mut [u8]) -> Result<(), Fault>
        ensures outcome { ReadOutcome 504 own source (meaning (state self.old)) (meaning (state self.new)) block buf.old buf.new result }
        ensures sound { Steadily steady (meaning (state self.old)) (meaning (state self.new)) }
        ensures exact { does (state self.old) (reads block buf.old) (record { answer = result; buffer = buf.new; next = state self.new }) };

    fn write(&mut self, block: u32, bytes: &[u8]) -> Result<(), Fault>
        ensures outcome { WriteOutcome 504 own source (meaning (state self.old)) (meaning (state self.new)) block bytes.now result }
        ensures sound { Steadily steady (meaning (state self.old)) (meaning (state self.new)) }
        ensures exact { does (state self.old) (writes block bytes.now) (response result (state self.new)) };

    // Settles what was written: only what is read may stand after it.
    fn flush(&mut self) -> Result<(), Fault>
        ensures outcome { FlushOutcome own source (meaning (state self.old)) (meaning (state self.new)) result }
        ensures sound { Steadily steady (meaning (state self.old)) (meaning (state self.new)) }
        ensures exact { does (state self.old) flushes (response result (state self.new)) };

    // Turns the store on. Each block then reads one thing that might stand there, and only that may stand.
    fn restart(&mut self) -> Result<(), Fault>
        ensures outcome { RestartOutcome source (meaning (state self.old)) (meaning (state self.new)) result }
        ensures sound { Steadily steady (meaning (state self.old)) (meaning (state self.new)) }
        ensures exact { does (state self.old) restarts (response result (state self.new)) };

    ghost lawful: { (s : Self) → Lawful 504 65536 (meaning (state s)) };
}

// A store of which it is proved that it is steady. Its calls are those of every store.
pub trait SteadyStore: Store {
    ghost is_steady: { Self.Store.steady ≡ true };
}
