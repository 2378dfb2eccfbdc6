ghost use Rattle.std.specs.Prelude.{◌≡◌, ◌++◌, map, string_bytes, IfOk};
ghost use Rattle.script.specs.Plans.{night_plan};
ghost use Rattle.nighttexts.specs.Lines.{offset_words, offset_summary, event_words, event_summary};
ghost use Rattle.nighttexts.specs.Nights.{asked_name, format_refused_text, night_skipped_text, night_begun, asks_text, night_text, nights_text};
ghost use Rattle.script.specs.Outcomes.{outcome_of};

use crate::calls::name;
use crate::kinds::Worded;
use crate::so_far::NightSoFar;
use faults::{Fault, FaultNumbers};
use ledgers::Answer;
use records::{Event, Offset};
use script::{Ask, Night};
use std::alloc::{AllocError, Global};

// The name of an ask.
fn asked_name<K>(ask: &Ask<K>) -> &'static str
    ensures { result.now ≡ asked_name ask.now }
{
    match ask {
        Ask::Calls(call) => name(call),
        Ask::NoSuchRecord(_) => "insert",
        Ask::Report => "report",
    }
}

// A line for each ask, where the format was refused.
fn write_skipped<K>(out: &mut String, asks: &[Ask<K>]) -> Result<(), AllocError>
    ensures { IfOk result (λ _. string_bytes out.new ≡ string_bytes out.old ++ night_skipped_text asks.now) }
{
    for ask in asks {
        writeln!(out, "{} skipped", asked_name(ask))?;
    }
    Ok(())
}

// The line of a format that was refused.
fn write_refused(out: &mut String, fault: Fault) -> Result<(), AllocError>
    ensures { IfOk result (λ _. string_bytes out.new ≡ string_bytes out.old ++ format_refused_text fault) }
{
    writeln!(out, "format refused {}", FaultNumbers(fault))
}

// The lines of what was asked after an accepted format.
fn write_asks<K: Worded>(
    heap: Global,
    out: &mut String,
    size: u16,
    asks: &[Ask<K>],
    answers: &[Answer<K>],
) -> Result<(), AllocError>
    ensures { IfOk result (λ _. string_bytes out.new ≡ string_bytes out.old ++ asks_text K.words K.summary size (night_begun answers.now) asks.now) }
{
    let mut so_far = NightSoFar::begun(heap, answers);
    for ask in asks {
        so_far.write_ask(heap, out, size, ask)?;
    }
    Ok(())
}

// A night, by what its calls were answered or why its format was refused.
fn write_night<K: Worded>(
    heap: Global,
    out: &mut String,
    night: &Night<K>,
    outcome: &Result<Vec<Answer<K>>, Fault>,
) -> Result<(), AllocError>
    ensures { IfOk result (λ _. string_bytes out.new ≡ string_bytes out.old ++ night_text K.words K.summary (night_plan night.now) (outcome_of outcome.now)) }
{
    let asks = night.asks.as_slice();
    match outcome {
        Ok(answers) => {
            writeln!(out, "format ok")?;
            write_asks(heap, out, night.size, asks, answers.as_slice())
        }
        Err(fault) => {
            write_refused(out, *fault)?;
            write_skipped(out, asks)
        }
    }
}

// Nights one after another.
fn write_nights<K: Worded>(
    heap: Global,
    out: &mut String,
    nights: &[Night<K>],
    outcomes: &[Result<Vec<Answer<K>>, Fault>],
) -> Result<(), AllocError>
    ensures { IfOk result (λ _. string_bytes out.new ≡ string_bytes out.old ++ nights_text K.words K.summary (map night_plan nights.now) (map outcome_of outcomes.now)) }
{
    for (night, outcome) in nights.iter().zip(outcomes) {
        write_night(heap, out, night, outcome)?;
    }
    Ok(())
}

// The lines of nights of offsets, by what each came to.
// After a want of memory nothing is said of what `out` holds.
pub fn offset_nights(
    heap: Global,
    out: &mut String,
    nights: &[Night<Offset>],
    outcomes: &[Result<Vec<Answer<Offset>>, Fault>],
) -> Result<(), AllocError>
    ensures { IfOk result (λ _. string_bytes out.new ≡ string_bytes out.old ++ nights_text offset_words offset_summary (map night_plan nights.now) (map outcome_of outcomes.now)) }
{
    write_nights(heap, out, nights, outcomes)
}

// The same of events.
// After a want of memory nothing is said of what `out` holds.
pub fn event_nights(
    heap: Global,
    out: &mut String,
    nights: &[Night<Event>],
    outcomes: &[Result<Vec<Answer<Event>>, Fault>],
) -> Result<(), AllocError>
    ensures { IfOk result (λ _. string_bytes out.new ≡ string_bytes out.old ++ nights_text event_words event_summary (map night_plan nights.now) (map outcome_of outcomes.now)) }
{
    write_nights(heap, out, nights, outcomes)
}
