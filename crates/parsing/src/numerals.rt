ghost use Rattle.std.specs.Prelude.{◌≡◌, []};
ghost use Rattle.failures.specs.Answers.{UnlessMemory};
ghost use Rattle.parsing.specs.Numerals.{read_seed, read_offset};
ghost use Rattle.words.specs.Lists.{read_all};
ghost use Rattle.words.specs.Numerals.{read_number};
ghost use Rattle.words.specs.Words.{texts};

use failures::Failure;
use script::Expected;
use std::alloc::Global;
use words::{hexadecimal, number, numbers};

// A seed: hexadecimal after 0x, and else decimal.
pub(crate) fn seed(word: &str) -> Option<u64>
    ensures { result ≡ read_seed word.now }
{
    match word.strip_prefix("0x") {
        Some(digits) => hexadecimal(digits),
        None => number(word),
    }
}

// A number of 32 bits. A function for each type of number, since what `number` promises is said by the type's own reading.
pub(crate) fn wide(word: &str) -> Option<u32>
    ensures { result ≡ read_number 10 0xFFFF_FFFF word.now }
{
    number(word)
}

// A number of 16 bits.
pub(crate) fn half(word: &str) -> Option<u16>
    ensures { result ≡ read_number 10 0xFFFF word.now }
{
    number(word)
}

// A number of 8 bits.
pub(crate) fn byte(word: &str) -> Option<u8>
    ensures { result ≡ read_number 10 0xFF word.now }
{
    number(word)
}

// An offset: a number of 32 bits with a sign.
pub(crate) fn offset(word: &str) -> Option<i32>
    ensures { result ≡ read_offset word.now }
{
    number(word)
}

// Numbers of 32 bits.
pub(crate) fn wides(
    heap: Global,
    words: &[&str],
    expected: Expected,
) -> Result<Vec<u32>, Failure<Expected>>
    ensures { UnlessMemory (λ v. v.items) (read_all (read_number 10 0xFFFF_FFFF) expected [] (texts words.now)) result }
{
    numbers(heap, words, expected)
}

// Numbers of 8 bits.
pub(crate) fn bytes(
    heap: Global,
    words: &[&str],
    expected: Expected,
) -> Result<Vec<u8>, Failure<Expected>>
    ensures { UnlessMemory (λ v. v.items) (read_all (read_number 10 0xFF) expected [] (texts words.now)) result }
{
    numbers(heap, words, expected)
}
