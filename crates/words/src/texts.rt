ghost use Rattle.std.specs.Prelude.{◌≡◌, IfOk};
ghost use Rattle.words.specs.Words.{texts, uncommented, words_of};

use std::alloc::{AllocError, Global};

// What a line has before its comment.
fn code(line: &str) -> &str
    ensures { result.now ≡ uncommented line.now }
{
    match line.split_once('#') {
        Some((code, _)) => code,
        None => line,
    }
}

// A line's words. Spaces in a row, or at an end, part no word from another.
pub fn words<'a>(heap: Global, line: &'a str) -> Result<Vec<&'a str>, AllocError>
    ensures { IfOk result (λ v. texts v.items ≡ words_of line.now) }
{
    code(line)
        .split(' ')
        .filter(|word| !word.is_empty())
        .collect(heap)
}
