ghost use Rattle.std.specs.Prelude.{◌≡◌, ℕ, false, length};
ghost use Rattle.std.specs.Global.{Vec};
ghost use Rattle.faults.specs.declared.faults.Layer.TheVariants.{Device};
ghost use Rattle.stores.specs.Meanings.{Steadily};
ghost use Rattle.stores.specs.Outcomes.{ReadOutcome, WriteOutcome, FlushOutcome, RestartOutcome};
ghost use Rattle.stores.specs.Calls.{reads, writes, flushes, restarts, response};
ghost use Rattle.benches.specs.Benches.{meaning_of, bench_response, bench_does, Made};
ghost use Rattle.benches.specs.Views.{Contents, contents_of, allocation_of};
ghost use Rattle.benches.specs.Held.{HeldIn};
ghost use Rattle.benches.specs.Lawful.{bench_lawful};

use crate::benches::{Bench, Given};
use crate::disk::Disk;
use crate::held::Held;
use crate::supply::Supply;
use faults::{Fault, Layer, Reason};
use std::alloc::Global;
use std::collections::VecDeque;
use stores::{BLOCK_BYTES, Store, admit};

impl Bench {
    // A bench that is off and holds nothing, or what was given if there is no memory to hold writes in.
    pub fn new(heap: Global, given: Given) -> Result<Bench, Given>
        ensures { Made given result }
    {
        let Given {
            bytes,
            fuses,
            choices,
        } = given;
        match Disk::new(heap, bytes) {
            Ok(disk) => Ok(Bench {
                disk,
                supply: Supply::new(fuses),
                choices: VecDeque::from_vec(choices),
            }),
            Err(bytes) => Err(Given {
                bytes,
                fuses,
                choices,
            }),
        }
    }

    // The memory that was given, with what is settled in it. Held writes are lost, as in a cut that keeps none of them.
    // A method as std's `into_bytes`, and no `From`: the name says what is left.
    #[tactic(auto, using(crate::specs::Views::same_vec))]
    pub fn into_bytes(self) -> Vec<u8>
        ensures items { result.items ≡ self.mem }
        ensures allocation { allocation_of result ≡ self.allocation }
        ensures same { (v : Vec ℕ) → allocation_of v ≡ self.allocation → v.items ≡ self.mem → result ≡ v }
    {
        let Bench { disk, .. } = self;
        disk.into_bytes()
    }
}

// The trait's clauses stand again in each call, since a call that promises more has to repeat them.
impl Store for Bench {
    ghost State = { Contents };

    ghost state = { contents_of };

    ghost meaning = { meaning_of };

    ghost does = { bench_does };

    ghost own = { Device };

    ghost source = { Device };

    ghost steady = { false };

    ghost lawful = { λ s. bench_lawful s.power s.mem s.held };

    fn size(&self) -> u32
        ensures value { result ≡ (meaning_of (contents_of self.now)).size }
        ensures held { HeldIn (length self.now.mem) self.now.held }
    {
        self.disk.size()
    }

    fn read(&mut self, block: u32, buf: &mut [u8]) -> Result<(), Fault>
        ensures outcome { ReadOutcome 504 Device Device (meaning_of (contents_of self.old)) (meaning_of (contents_of self.new)) block buf.old buf.new result }
        ensures sound { Steadily false (meaning_of (contents_of self.old)) (meaning_of (contents_of self.new)) }
        ensures exact { record { answer = result; buffer = buf.new; next = contents_of self.new } ≡ bench_response (contents_of self.old) (reads block buf.old) }
        ensures allocation { self.new.allocation ≡ self.old.allocation }
        ensures long { length self.new.mem ≡ length self.old.mem }
        ensures held { HeldIn (length self.new.mem) self.new.held }
    {
        let on = self.supply.is_on();
        admit(Layer::Device, self.size(), on, block, buf.len())?;
        let torn = Layer::Device.fault(Reason::Torn, u64::from(block));
        let bytes = self.disk.look(block).ok_or(torn)?;
        buf.copy_from_slice(bytes);
        Ok(())
    }

    fn write(&mut self, block: u32, bytes: &[u8]) -> Result<(), Fault>
        ensures outcome { WriteOutcome 504 Device Device (meaning_of (contents_of self.old)) (meaning_of (contents_of self.new)) block bytes.now result }
        ensures sound { Steadily false (meaning_of (contents_of self.old)) (meaning_of (contents_of self.new)) }
        ensures exact { response result (contents_of self.new) ≡ bench_response (contents_of self.old) (writes block bytes.now) }
        ensures allocation { self.new.allocation ≡ self.old.allocation }
        ensures long { length self.new.mem ≡ length self.old.mem }
        ensures held { HeldIn (length self.new.mem) self.new.held }
    {
        let on = self.supply.is_on();
        admit(Layer::Device, self.size(), on, block, bytes.len())?;
        let bytes = <[u8; BLOCK_BYTES]>::try_from(bytes).unwrap();
        self.disk.hold(Held { block, bytes });
        self.supply.spend()
    }

    fn flush(&mut self) -> Result<(), Fault>
        ensures outcome { FlushOutcome Device Device (meaning_of (contents_of self.old)) (meaning_of (contents_of self.new)) result }
        ensures sound { Steadily false (meaning_of (contents_of self.old)) (meaning_of (contents_of self.new)) }
        ensures exact { response result (contents_of self.new) ≡ bench_response (contents_of self.old) flushes }
        ensures allocation { self.new.allocation ≡ self.old.allocation }
        ensures long { length self.new.mem ≡ length self.old.mem }
        ensures held { HeldIn (length self.new.mem) self.new.held }
    {
        self.supply.spend()?;
        self.disk.settle();
        Ok(())
    }

    fn restart(&mut self) -> Result<(), Fault>
        ensures outcome { RestartOutcome Device (meaning_of (contents_of self.old)) (meaning_of (contents_of self.new)) result }
        ensures sound { Steadily false (meaning_of (contents_of self.old)) (meaning_of (contents_of self.new)) }
        ensures exact { response result (contents_of self.new) ≡ bench_response (contents_of self.old) restarts }
        ensures allocation { self.new.allocation ≡ self.old.allocation }
        ensures long { length self.new.mem ≡ length self.old.mem }
        ensures held { HeldIn (length self.new.mem) self.new.held }
    {
        self.disk.restart(&mut self.choices);
        self.supply.start();
        Ok(())
    }
}
