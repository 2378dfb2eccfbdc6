// The mean of numbers, as it is printed: with three decimals, halves away from zero.
#![tactic(auto)]

ghost use Rattle.std.specs.Prelude.{◌≡◌, ◌<◌, Some};
ghost use Rattle.means.specs.Means.{thousandths_of, mean_text};

use std::fmt;

// The mean of `count` numbers with this sum.
#[derive(Clone, Copy)]
pub struct Mean {
    pub sum: i64,
    pub count: u64,
}

// The size of the mean in thousandths, to the nearest, halves up. At 128 bits nothing overflows.
fn thousandths(sum: u64, count: u64) -> u128
    requires { 0 < count }
    ensures { result ≡ thousandths_of sum count }
{
    (2000 * u128::from(sum) + u128::from(count)) / (2 * u128::from(count))
}

// With three decimals, halves away from zero, and no sign before zero; `none` of no numbers.
impl fmt::Display for Mean {
    ghost output = { λ m. Some (mean_text m.sum m.count) };

    #[tactic(auto, using(crate::proofs::Decimals::three_digits))]
    fn fmt<W: fmt::Write>(&self, f: &mut fmt::Formatter<W>) -> fmt::Result {
        if self.count == 0 {
            return f.write_str("none");
        }
        let all = thousandths(self.sum.unsigned_abs(), self.count);
        let sign = if self.sum < 0 && all > 0 { "-" } else { "" };
        write!(f, "{sign}{}.{:03}", all / 1000, all % 1000)
    }
}
