ghost use Rattle.std.specs.Prelude.{◌≡◌, map, false};
ghost use Rattle.languages.specs.Expecting.{shown};
ghost use Rattle.parsing.specs.Asks.{insert_of, read_call, read_ask, awake_after_ask, awake_at_end};
ghost use Rattle.script.specs.Shown.{call_shown, ask_shown};
ghost use Rattle.words.specs.Words.{texts};

use crate::commands::{none, slot};
use crate::inserts::FromWords;
use ledgers::Call;
use script::{Ask, Expected, awake_after_call};

// An insert: of a record, or of one that cannot exist.
fn insert<K: FromWords>(words: &[&str]) -> Result<Ask<K>, Expected>
    ensures { shown (ask_shown K.fields) result ≡ shown insert_of (K.read (texts words.now)) }
{
    match K::from_words(words)? {
        Ok(record) => Ok(Ask::Calls(Call::Insert(record))),
        Err(fault) => Ok(Ask::NoSuchRecord(fault)),
    }
}

// A call of the sampler, with no words of its own.
fn read_call<K: FromWords>(call: Call<K>, words: &[&str]) -> Result<Ask<K>, Expected>
    ensures { shown (ask_shown K.fields) result ≡ read_call (call_shown K.fields call) (texts words.now) }
{
    none(words, Expected::Alone)?;
    Ok(Ask::Calls(call))
}

// What is asked of a sampler of records of kind K, by its name.
pub(crate) fn ask<K: FromWords>(name: &str, words: &[&str]) -> Result<Ask<K>, Expected>
    ensures { shown (ask_shown K.fields) result ≡ read_ask K.read name.now (texts words.now) }
{
    match name {
        "mount" => read_call(Call::Mount, words),
        "wake" => read_call(Call::Wake, words),
        "insert" => insert(words),
        "commit" => read_call(Call::Commit, words),
        "refresh" => read_call(Call::Refresh, words),
        "slot" => Ok(Ask::Calls(Call::Slot(slot(words)?))),
        "close" => read_call(Call::Close, words),
        "report" => {
            none(words, Expected::Alone)?;
            Ok(Ask::Report)
        }
        _ => Err(Expected::CardCommandName),
    }
}

// Whether a sampler is awake after what is asked. A report's slot calls leave it as it is.
fn awake_after_ask<K>(awake: bool, ask: &Ask<K>) -> bool
    ensures { result ≡ awake_after_ask awake ask.now }
{
    match ask {
        Ask::Calls(call) => awake_after_call(awake, call),
        Ask::NoSuchRecord(_) | Ask::Report => awake,
    }
}

// Whether a sampler that slept is awake after all that was asked.
pub(crate) fn awake_at_end<K>(asks: &[Ask<K>]) -> bool
    ensures { result ≡ awake_at_end false asks.now }
{
    let mut awake = false;
    for ask in asks {
        awake = awake_after_ask(awake, ask);
    }
    awake
}
