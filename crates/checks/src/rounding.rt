use crate::looking::same;
use means::Mean;
use std::test::Fail;

// A sum, a count, and the mean as it is printed.
const MEANS: [(i64, u64, &str); 9] = [
    (0, 0, "none"),
    (0, 1, "0.000"),
    (-1, 2001, "0.000"),
    (-1, 2000, "-0.001"),
    (1, 2000, "0.001"),
    (2, 3, "0.667"),
    (-1, 16, "-0.063"),
    (-9_223_372_036_854_775_808, 1, "-9223372036854775808.000"),
    (336_000_000_000, 672, "500000000.000"),
];

#[test]
fn means_round_halves_away_from_zero(rt: HostRuntime) -> Result<(), Fail> {
    for (case, (sum, count, text)) in MEANS.iter().enumerate() {
        let mean = Mean {
            sum: *sum,
            count: *count,
        };
        let shown = format!(in rt.alloc(); "{mean}")?;
        same(&rt, shown.as_str(), text, case);
    }
    Ok(())
}
