// Which record goes to which slot. The specs say what the sample of the records counted so far is.
#![tactic(auto)]

ghost use Rattle.std.specs.Prelude.{◌≡◌, ◌<◌, IfSome};
ghost use Rattle.sampling.specs.Draws.{draw_of, slot_of, within};

// The most slots that a sample has.
pub const SLOT_LIMIT: u16 = 672;

// The same as a length: whoever keeps a sample in memory has a row for each slot that a sample can have.
pub const ROWS: usize = SLOT_LIMIT as usize;

// The most records that are counted.
pub const COUNT_LIMIT: u32 = 4_000_000_000;

// SplitMix64's increment and multipliers.
const GAMMA: u64 = 0x9E37_79B9_7F4A_7C15;

const FIRST_FACTOR: u64 = 0xBF58_476D_1CE4_E5B9;

const SECOND_FACTOR: u64 = 0x94D0_49BB_1331_11EB;

// Draw k of a seed: SplitMix64, from the number of the output and not from the one before it, so that no draw has to be
// made before another.
#[tactic(auto, unfolding(crate::specs::Draws::draw_of))]
pub fn draw(seed: u64, k: u64) -> u64
    ensures { result ≡ draw_of seed k }
{
    let a = seed.wrapping_add(k.wrapping_mul(GAMMA));
    let b = (a ^ (a >> 30)).wrapping_mul(FIRST_FACTOR);
    let c = (b ^ (b >> 27)).wrapping_mul(SECOND_FACTOR);
    c ^ (c >> 31)
}

// A slot, if a sample of this size has it.
fn within(size: u16, slot: u64) -> Option<u16>
    ensures { result ≡ within size slot }
{
    u16::try_from(slot).ok().filter(|slot| *slot < size)
}

// The slot of record k in a sample of this size, if it has one. Records are numbered from 1. The seed and the size stay
// two numbers: a struct of them would be made for a reservoir and taken apart here, and say no more.
#[tactic(auto, using(crate::proofs::SlotLaws::slot_none, crate::proofs::SlotLaws::slot_from_one))]
pub fn slot_of(seed: u64, size: u16, k: u32) -> Option<u16>
    ensures value { result ≡ slot_of seed size k }
    ensures bound { IfSome result (λ i. i < size) }
{
    let earlier = k.checked_sub(1)?;
    if earlier < u32::from(size) {
        return Some(earlier as u16);
    }
    within(size, draw(seed, u64::from(k)) % u64::from(k))
}
