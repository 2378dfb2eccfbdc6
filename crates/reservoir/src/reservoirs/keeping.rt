ghost use Rattle.std.specs.Prelude.{◌≡◌, ℕ, ◌<◌, ◌≤◌, min, length, IfSome, MatchResult};
ghost use Rattle.sampling.specs.Answers.{insert_answer, slot_answer, counted};
ghost use Rattle.sampling.specs.Samples.{Holds, SampleLaw};
ghost use Rattle.reservoir.specs.Keeps.{Keeps, OfKept, Made, placed};

use crate::reservoirs::Reservoir;
use faults::Fault;
use faults::Layer::Sampler;
use faults::Reason::{CountAtLimit, EmptySlot, NoSuchSlot, OutOfLimits};
use records::RecordKind;
use sampling::{COUNT_LIMIT, ROWS, SLOT_LIMIT, slot_of};

// Puts a record into its slot, if it has one.
fn place<K: RecordKind>(rows: &mut [Option<K>; ROWS], slot: Option<u16>, kept: K)
    requires { IfSome slot (λ i. i < 672) }
    ensures { rows.new ≡ placed rows.old slot kept }
{
    if let Some(i) = slot {
        rows[usize::from(i)] = Some(kept);
    }
}

impl<K: RecordKind> Reservoir<K> {
    // An empty reservoir with 1 to 672 slots.
    pub fn new(size: u16, seed: u64) -> Result<Reservoir<K>, Fault>
        ensures { Made seed size result }
    {
        if size == 0 || size > SLOT_LIMIT {
            return Err(Sampler.fault(OutOfLimits, u64::from(size)));
        }
        Ok(Reservoir {
            seed,
            size,
            count: 0,
            rows: [None; ROWS],
        })
    }

    // Counts a record, and answers the slot that it took, if any. A refused one is not counted. The law of a sample
    // says why one row is all that changes.
    #[tactic(auto, using(sampling::proofs::SampleLaws::sample_law))]
    pub fn insert(&mut self, kept: K) -> Result<Option<u16>, Fault>
        ensures value { OfKept self.old (λ seed size rs. (result ≡ insert_answer seed size rs) × Keeps seed size (counted rs kept) self.new) }
        ensures law { (seed size : ℕ) → SampleLaw K seed size }
    {
        if self.count >= COUNT_LIMIT {
            return Err(Sampler.fault(CountAtLimit, u64::from(self.count)));
        }
        let slot = slot_of(self.seed, self.size, self.count + 1);
        place(&mut self.rows, slot, kept);
        self.count += 1;
        Ok(slot)
    }

    // The record in a slot: of those with that slot the one whose number is greatest. Refused where there is none.
    #[tactic(auto, using(sampling::proofs::AnswerLaws::slot_rule))]
    pub fn slot(&self, i: u16) -> Result<K, Fault>
        ensures value { OfKept self.now (λ seed size rs. result ≡ slot_answer seed size rs i) }
        ensures rule { OfKept self.now (λ seed size rs. MatchResult result (λ x. Holds seed size rs i x) (λ _. min (length rs) size ≤ i)) }
    {
        if i >= self.size {
            return Err(Sampler.fault(NoSuchSlot, u64::from(i)));
        }
        self.rows[usize::from(i)].ok_or(Sampler.fault(EmptySlot, u64::from(i)))
    }
}
