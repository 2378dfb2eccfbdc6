use crate::looking::same;
use sampling::draw;

// A seed, the number of a draw, and the output of SplitMix64 as OpenJDK 17's SplittableRandom gives it.
const PUBLISHED: [(u64, u64, u64); 13] = [
    (0, 1, 0xE220_A839_7B1D_CDAF),
    (0, 2, 0x6E78_9E6A_A1B9_65F4),
    (0, 3, 0x06C4_5D18_8009_454F),
    (0, 4, 0xF88B_B8A8_724C_81EC),
    (0, 5, 0x1B39_896A_51A8_749B),
    (1_234_567, 1, 6_457_827_717_110_365_317),
    (1_234_567, 2, 3_203_168_211_198_807_973),
    (1_234_567, 3, 9_817_491_932_198_370_423),
    (1_234_567, 4, 4_593_380_528_125_082_431),
    (1_234_567, 5, 16_408_922_859_458_223_821),
    (1, 1, 0x910A_2DEC_8902_5CC1),
    (42, 1, 0xBDD7_3226_2FEB_6E95),
    (0xDEAD_BEEF, 1, 0x4ADF_B90F_68C9_EB9B),
];

#[test]
fn draws_are_the_published_ones(rt: HostRuntime) {
    for (case, (seed, k, output)) in PUBLISHED.iter().enumerate() {
        same(&rt, draw(*seed, *k), *output, case);
    }
}
