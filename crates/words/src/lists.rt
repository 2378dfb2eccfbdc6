ghost use Rattle.std.specs.Prelude.{◌≡◌, ℕ, List, [], Option};
ghost use Rattle.failures.specs.Answers.{UnlessMemory};
ghost use Rattle.words.specs.Lists.{read_all};
ghost use Rattle.words.specs.Numerals.{ReadsPlain};
ghost use Rattle.words.specs.Words.{texts};

use crate::numerals::number;
use failures::Failure;
use std::alloc::Global;
use std::str::FromStr;

// The numbers that the words write, however many they are, or what was expected of a word that writes none. By `read`,
// whichever says what each word is as a number.
pub fn numbers<N: FromStr + Drop, E: Copy + Drop>(
    heap: Global,
    words: &[&str],
    expected: E,
) -> Result<Vec<N>, Failure<E>>
where
    N::Err: Drop,
    ensures { (read : List ℕ → Option N) → ((word : List ℕ) (r : Option N) → ReadsPlain N.from_str_gives word r → r ≡ read word) → UnlessMemory (λ v. v.items) (read_all read expected [] (texts words.now)) result }
{
    let mut numbers = Vec::new(heap);
    for word in words { // word up to the last
        let next = number(word).ok_or(Failure::Because(expected))?;
        numbers.push(next)?;
    }
    Ok(numbers)
}
