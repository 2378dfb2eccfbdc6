ghost use Rattle.std.specs.Prelude.{◌≡◌};
ghost use Rattle.storeparsing.specs.Calls.{read_alone, read_read, read_write, read_call};
ghost use Rattle.words.specs.Words.{texts};

use storescript::{Call, Expected};
use words::number;

// A call that no word follows.
fn alone(words: &[&str], call: Call, expected: Expected) -> Result<Call, Expected>
    ensures { result ≡ read_alone expected call (texts words.now) }
{
    let [] = words else {
        return Err(expected);
    };
    Ok(call)
}

// The word after `read`.
fn read(words: &[&str]) -> Result<Call, Expected>
    ensures { result ≡ read_read (texts words.now) }
{
    let [block] = words else {
        return Err(Expected::ReadWords);
    };
    let block = number(block).ok_or(Expected::Block)?;
    Ok(Call::Read { block })
}

// The words after `write`.
fn write(words: &[&str]) -> Result<Call, Expected>
    ensures { result ≡ read_write (texts words.now) }
{
    let [block, value] = words else {
        return Err(Expected::WriteWords);
    };
    let block = number(block).ok_or(Expected::Block)?;
    let value = number(value).ok_or(Expected::Value)?;
    Ok(Call::Write { block, value })
}

// A call, by its name. A name of anything else was looked for before.
pub(crate) fn call(name: &str, words: &[&str]) -> Result<Call, Expected>
    ensures { result ≡ read_call name.now (texts words.now) }
{
    match name {
        "restart" => alone(words, Call::Restart, Expected::RestartWords),
        "flush" => alone(words, Call::Flush, Expected::FlushWords),
        "read" => read(words),
        "write" => write(words),
        _ => Err(Expected::CommandName),
    }
}
