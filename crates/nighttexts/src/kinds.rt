ghost use Rattle.std.specs.Prelude.{◌≡◌, ℕ, ◌≤◌, ◌++◌, List, length, string_bytes, IfOk};
ghost use Rattle.nighttexts.specs.Lines.{offset_words, offset_summary, event_words, event_summary};

use records::{Event, Offset};
use sampletexts::{EventWords, MeanLine, OffsetNumbers, mean};
use std::alloc::AllocError;

// A kind of record as it is printed.
pub(crate) trait Worded: Copy + Drop {
    // A record's words.
    ghost words: { Self → List ℕ };

    // What is said of all records of a sample.
    ghost summary: { List Self → List ℕ };

    fn write_words(&self, out: &mut String) -> Result<(), AllocError>
        ensures { IfOk result (λ _. string_bytes out.new ≡ string_bytes out.old ++ words self.now) };

    fn write_summary(found: &[Self], out: &mut String) -> Result<(), AllocError>
        requires { length found.now ≤ 65535 }
        ensures { IfOk result (λ _. string_bytes out.new ≡ string_bytes out.old ++ summary found.now) };
}

impl Worded for Offset {
    ghost words = { offset_words };

    ghost summary = { offset_summary };

    fn write_words(&self, out: &mut String) -> Result<(), AllocError> {
        write!(out, "{}", OffsetNumbers(*self))
    }

    fn write_summary(found: &[Offset], out: &mut String) -> Result<(), AllocError> {
        writeln!(out, "{}", MeanLine(mean(found)))
    }
}

impl Worded for Event {
    ghost words = { event_words };

    ghost summary = { event_summary };

    fn write_words(&self, out: &mut String) -> Result<(), AllocError> {
        write!(out, "{}", EventWords(*self))
    }

    fn write_summary(_found: &[Event], _out: &mut String) -> Result<(), AllocError> {
        Ok(())
    }
}
