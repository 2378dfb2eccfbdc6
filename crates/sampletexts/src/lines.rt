ghost use Rattle.std.specs.Prelude.{Some};
ghost use Rattle.std.specs.Option.{option_map};
ghost use Rattle.records.specs.Events.{event_fields};
ghost use Rattle.records.specs.Offsets.{offset_fields};
ghost use Rattle.sampletexts.specs.Lines.{offset_text, event_text, slot_text, mean_line};

use means::Mean;
use records::{Event, Offset};
use std::fmt;

// An offset as its three numbers. They are of other types than a refusal's three, so each writes its own.
#[derive(Clone, Copy)]
pub struct OffsetNumbers(pub Offset);

// As `103 4 -8`.
impl fmt::Display for OffsetNumbers {
    ghost output = { λ x. Some (offset_text (offset_fields x.0)) };

    fn fmt<W: fmt::Write>(&self, f: &mut fmt::Formatter<W>) -> fmt::Result {
        let OffsetNumbers(offset) = self;
        write!(
            f,
            "{} {} {}",
            offset.second.value(),
            offset.satellite.value(),
            offset.nanoseconds.value()
        )
    }
}

// An event in words.
#[derive(Clone, Copy)]
pub struct EventWords(pub Event);

// As `103 lost 4`, `103 gained 4` or `103 holdover`.
impl fmt::Display for EventWords {
    ghost output = { λ x. Some (event_text (event_fields x.0)) };

    fn fmt<W: fmt::Write>(&self, f: &mut fmt::Formatter<W>) -> fmt::Result {
        match self.0 {
            Event::LockLost(second, satellite) => {
                write!(f, "{} lost {}", second.value(), satellite.value())
            }
            Event::LockGained(second, satellite) => {
                write!(f, "{} gained {}", second.value(), satellite.value())
            }
            Event::Holdover(second) => write!(f, "{} holdover", second.value()),
        }
    }
}

// A slot, and what is printed of the record in it.
#[derive(Clone, Copy)]
pub struct SlotLine<T> {
    pub slot: usize,
    pub record: T,
}

// As `slot 1: 103 4 -8`.
impl<T: fmt::Display> fmt::Display for SlotLine<T> {
    ghost output = { λ x. option_map (slot_text x.slot) (T.output x.record) };

    fn fmt<W: fmt::Write>(&self, f: &mut fmt::Formatter<W>) -> fmt::Result {
        write!(f, "slot {}: {}", self.slot, self.record)
    }
}

// The mean of nanoseconds, and over how many records.
#[derive(Clone, Copy)]
pub struct MeanLine(pub Mean);

// As `mean -0.500 ns over 2`, or `mean none`.
impl fmt::Display for MeanLine {
    ghost output = { λ x. Some (mean_line x.0.sum x.0.count) };

    fn fmt<W: fmt::Write>(&self, f: &mut fmt::Formatter<W>) -> fmt::Result {
        let MeanLine(mean) = self;
        if mean.count == 0 {
            return f.write_str("mean none");
        }
        write!(f, "mean {mean} ns over {}", mean.count)
    }
}
