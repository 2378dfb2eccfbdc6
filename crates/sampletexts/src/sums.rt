ghost use Rattle.std.specs.Prelude.{◌≡◌, ◌≤◌, map, length};
ghost use Rattle.records.specs.Offsets.{offset_fields};
ghost use Rattle.sampletexts.specs.Sums.{sum_of};

use means::Mean;
use records::Offset;

// The exact sum of the nanoseconds. At 128 bits no slice overflows it.
fn sum(offsets: &[Offset]) -> i128
    ensures { result ≡ sum_of (map offset_fields offsets.now) }
{
    let mut sum = 0;
    for offset in offsets {
        sum += i128::from(offset.nanoseconds.value());
    }
    sum
}

// The mean of the offsets of a sample. Slots are numbered by 16 bits, so the sum of a sample fits 64; a sum that does not
// fit is told as zero.
#[tactic(auto, using(crate::proofs::SumLaws::sum_fits))]
pub fn mean(offsets: &[Offset]) -> Mean
    ensures sum { length offsets.now ≤ 65535 → result.sum ≡ sum_of (map offset_fields offsets.now) }
    ensures count { result.count ≡ length offsets.now }
{
    Mean {
        sum: i64::try_from(sum(offsets)).unwrap_or(0),
        count: offsets.len() as u64,
    }
}
