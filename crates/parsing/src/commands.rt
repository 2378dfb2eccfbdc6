ghost use Rattle.std.specs.Prelude.{◌≡◌};
ghost use Rattle.parsing.specs.Words.{read_none, read_slot, read_command};
ghost use Rattle.words.specs.Words.{texts};

use crate::inserts::read_offset_words;
use crate::numerals::half;
use script::{Command, Expected};

// No words: anything more is a bad line.
pub(crate) fn none(words: &[&str], expected: Expected) -> Result<(), Expected>
    ensures { result ≡ read_none expected (texts words.now) }
{
    let [] = words else {
        return Err(expected);
    };
    Ok(())
}

// The word after `slot`.
pub(crate) fn slot(words: &[&str]) -> Result<u16, Expected>
    ensures { result ≡ read_slot (texts words.now) }
{
    let [slot] = words else {
        return Err(Expected::SlotWords);
    };
    half(slot).ok_or(Expected::Slot)
}

// What is asked of a reservoir, by its name. A match and no table of closures: the names are few and fixed, and each arm
// reads as it is.
pub(crate) fn command(name: &str, words: &[&str]) -> Result<Command, Expected>
    ensures { result ≡ read_command name.now (texts words.now) }
{
    match name {
        "insert" => {
            let (second, satellite, nanoseconds) = read_offset_words(words)?;
            Ok(Command::Insert {
                second,
                satellite,
                nanoseconds,
            })
        }
        "slot" => Ok(Command::Slot(slot(words)?)),
        "report" => {
            none(words, Expected::ReportWords)?;
            Ok(Command::Report)
        }
        _ => Err(Expected::CommandName),
    }
}
