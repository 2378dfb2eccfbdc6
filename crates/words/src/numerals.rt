ghost use Rattle.std.specs.Prelude.{◌≡◌, map};
ghost use Rattle.std.specs.Option.{option_map};
ghost use Rattle.words.specs.Numerals.{ReadsPlain, plain_word, read_number};

use std::str::FromStr;

// The word, unless it begins with a plus sign, which the library would read past.
fn plain(word: &str) -> Option<&str>
    ensures { option_map (λ x. x.now) result ≡ plain_word word.now }
{
    if word.starts_with('+') {
        return None;
    }
    Some(word)
}

// The decimal number that a word writes, if it is one of N: digits alone, behind a minus sign where N goes below 0.
pub fn number<N: FromStr>(word: &str) -> Option<N>
where
    N::Err: Drop,
    ensures { ReadsPlain N.from_str_gives word.now result }
{
    plain(word)?.parse::<N>().ok()
}

// The number that a word of decimal digits writes, if it is at most this.
#[tactic(auto, using(crate::proofs::Limits::no_number_within))]
pub fn number_within(word: &str, most: u32) -> Option<u32>
    ensures { result ≡ read_number 10 most word.now }
{
    match number(word) {
        Some(n) if n <= most => Some(n),
        _ => None,
    }
}

// The number below 2^64 that hexadecimal digits write, with nothing in front of them.
pub fn hexadecimal(word: &str) -> Option<u64>
    ensures { result ≡ read_number 16 0xFFFF_FFFF_FFFF_FFFF word.now }
{
    u64::from_str_radix(plain(word)?, 16).ok()
}
