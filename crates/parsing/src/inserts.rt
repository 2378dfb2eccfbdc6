ghost use Rattle.std.specs.Prelude.{◌≡◌, ℕ, List, Result};
ghost use Rattle.std.specs.Option.{option_map};
ghost use Rattle.faults.specs.declared.faults.Fault.{Fault};
ghost use Rattle.languages.specs.Expecting.{shown};
ghost use Rattle.parsing.specs.Records.{offset_numbers, read_offset_words, read_offset_record, lock_code, lock_numbers, holdover_numbers, read_event_words, read_event_record};
ghost use Rattle.records.specs.Events as events;
ghost use Rattle.records.specs.Events.{event_fields};
ghost use Rattle.records.specs.Happenings.{happening_code};
ghost use Rattle.records.specs.Offsets as offsets;
ghost use Rattle.records.specs.Offsets.{offset_fields};
ghost use Rattle.records.specs.Reading.{shown_as};
ghost use Rattle.script.specs.declared.expectations.Expected.{Expected};
ghost use Rattle.words.specs.Words.{texts};

use crate::numerals::{offset, wide};
use faults::Fault;
use records::{Event, Happening, Offset, RecordKind};
use script::Expected;

// A kind of record that a script has words for. A record that cannot exist is no bad line: it is refused when its insert
// is worked.
pub(crate) trait FromWords: RecordKind {
    // A record as the script has it.
    ghost Fields: { Type 0 };

    ghost fields: { Self → Fields };

    // The words after `insert`: a record, or why there is none such, or what was expected.
    ghost read: { List (List ℕ) → Result (Result Fields Fault) Expected };

    fn from_words(words: &[&str]) -> Result<Result<Self, Fault>, Expected>
        ensures { shown (shown_as fields) result ≡ read (texts words.now) };
}

// SECOND, SATELLITE and OFFSET.
fn offset_numbers(
    second: &str,
    satellite: &str,
    nanoseconds: &str,
) -> Result<(u32, u32, i32), Expected>
    ensures { result ≡ offset_numbers second.now satellite.now nanoseconds.now }
{
    let second = wide(second).ok_or(Expected::Second)?;
    let satellite = wide(satellite).ok_or(Expected::Satellite)?;
    let nanoseconds = offset(nanoseconds).ok_or(Expected::Offset)?;
    Ok((second, satellite, nanoseconds))
}

// The words of an offset: its numbers, in range or not.
pub(crate) fn read_offset_words(words: &[&str]) -> Result<(u32, u32, i32), Expected>
    ensures { result ≡ read_offset_words (texts words.now) }
{
    let [second, satellite, nanoseconds] = words else {
        return Err(Expected::InsertWords);
    };
    offset_numbers(second, satellite, nanoseconds)
}

impl FromWords for Offset {
    ghost Fields = { offsets.Fields };

    ghost fields = { offset_fields };

    ghost read = { read_offset_record };

    fn from_words(words: &[&str]) -> Result<Result<Offset, Fault>, Expected> {
        let (second, satellite, nanoseconds) = read_offset_words(words)?;
        Ok(Offset::new(second, satellite, nanoseconds))
    }
}

// What happened to a lock.
fn lock(word: &str) -> Option<Happening>
    ensures { option_map happening_code result ≡ lock_code word.now }
{
    match word {
        "lost" => Some(Happening::LockLost),
        "gained" => Some(Happening::LockGained),
        _ => None,
    }
}

// SECOND, lost or gained, and SATELLITE.
fn lock_numbers(
    second: &str,
    what: &str,
    satellite: &str,
) -> Result<(u32, Happening, u32), Expected>
    ensures { shown (λ x. (x.0, happening_code x.1, x.2)) result ≡ lock_numbers second.now what.now satellite.now }
{
    let second = wide(second).ok_or(Expected::Second)?;
    let what = lock(what).ok_or(Expected::EventWords)?;
    let satellite = wide(satellite).ok_or(Expected::Satellite)?;
    Ok((second, what, satellite))
}

// SECOND and holdover. No satellite has a part in it, which is written as 0.
fn holdover_numbers(second: &str, what: &str) -> Result<(u32, Happening, u32), Expected>
    ensures { shown (λ x. (x.0, happening_code x.1, x.2)) result ≡ holdover_numbers second.now what.now }
{
    let second = wide(second).ok_or(Expected::Second)?;
    if what != "holdover" {
        return Err(Expected::EventWords);
    }
    Ok((second, Happening::Holdover, 0))
}

// The words of an event.
fn read_event_words(words: &[&str]) -> Result<(u32, Happening, u32), Expected>
    ensures { shown (λ x. (x.0, happening_code x.1, x.2)) result ≡ read_event_words (texts words.now) }
{
    match words {
        [second, what] => holdover_numbers(second, what),
        [second, what, satellite] => lock_numbers(second, what, satellite),
        _ => Err(Expected::EventWords),
    }
}

impl FromWords for Event {
    ghost Fields = { events.Fields };

    ghost fields = { event_fields };

    ghost read = { read_event_record };

    fn from_words(words: &[&str]) -> Result<Result<Event, Fault>, Expected> {
        let (second, happening, satellite) = read_event_words(words)?;
        Ok(Event::new(happening, second, satellite))
    }
}
