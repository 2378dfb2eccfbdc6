ghost use Rattle.std.specs.Prelude.{◌≡◌};
ghost use Rattle.std.specs.Option.{option_map};
ghost use Rattle.failures.specs.Answers.{UnlessMemory};
ghost use Rattle.storeparsing.specs.Lines.{said_by, read_command, read_line};
ghost use Rattle.words.specs.Words.{texts, words_of};

use crate::calls::call;
use crate::forms::{Line, More};
use crate::stacks::stack;
use failures::Failure;
use std::alloc::Global;
use storescript::Expected;
use words::{numbers, words};

// A command, by its name.
fn command(heap: Global, name: &str, words: &[&str]) -> Result<Line, Failure<Expected>>
    ensures { UnlessMemory said_by (read_command name.now (texts words.now)) result }
{
    match name {
        "stack" => Ok(Line::Starts(stack(words).map_err(Failure::Because)?)),
        "fuses" => Ok(Line::Goes(More::Fuses(numbers(heap, words, Expected::Fuse)?))),
        "choices" => Ok(Line::Goes(More::Choices(numbers(heap, words, Expected::Choice)?))),
        _ => Ok(Line::Goes(More::Asks(call(name, words).map_err(Failure::Because)?))),
    }
}

// What a line says: nothing, where it has no words.
pub(crate) fn read(heap: Global, text: &str) -> Result<Option<Line>, Failure<Expected>>
    ensures { UnlessMemory (option_map said_by) (read_line (words_of text.now)) result }
{
    let words = words(heap, text)?;
    match words.as_slice() {
        [] => Ok(None),
        [name, rest @ ..] => Ok(Some(command(heap, name, rest)?)),
    }
}
