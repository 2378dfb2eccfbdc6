ghost use Rattle.std.specs.Prelude.{map, Some};
ghost use Rattle.records.specs.Events.{event_fields};
ghost use Rattle.records.specs.Offsets.{offset_fields};
ghost use Rattle.layouts.specs.Heads.{head_fields};
ghost use Rattle.sampletexts.specs.Lines.{offset_text, event_text};
ghost use Rattle.cardtexts.specs.Texts.{head_text, slots_text, offsets_text, events_text, card_text};

use crate::readings::AnyReading;
use cardreads::Reading;
use layouts::Head;
use records::{Event, Offset};
use sampletexts::{EventWords, MeanLine, OffsetNumbers, SlotLine, mean};
use std::fmt;

// A head's lines, but for its kind.
#[derive(Clone, Copy)]
struct HeadLines(Head);

impl fmt::Display for HeadLines {
    ghost output = { λ x. Some (head_text (head_fields x.0)) };

    #[tactic(auto, using(crate::proofs::Hexadecimals::sixteen_digits))]
    fn fmt<W: fmt::Write>(&self, f: &mut fmt::Formatter<W>) -> fmt::Result {
        let HeadLines(head) = self;
        write!(
            f,
            "slots {}\nseed 0x{:016x}\ncounted {}\nlogged {}\n",
            head.shape.size, head.seed, head.count, head.entries
        )
    }
}

// A line for each offset, slot 0 first. A loop for each kind, since a kind's records are printed by a type of its own.
#[derive(Drop)]
struct OffsetSlots<'a>(&'a [Offset]);

impl fmt::Display for OffsetSlots<'_> {
    ghost output = { λ x. Some (slots_text offset_text 0 (map offset_fields x.0.now)) };

    fn fmt<W: fmt::Write>(&self, f: &mut fmt::Formatter<W>) -> fmt::Result {
        for (slot, offset) in self.0.iter().enumerate() {
            let record = OffsetNumbers(*offset);
            writeln!(f, "{}", SlotLine { slot, record })?;
        }
        Ok(())
    }
}

// The same of events.
#[derive(Drop)]
struct EventSlots<'a>(&'a [Event]);

impl fmt::Display for EventSlots<'_> {
    ghost output = { λ x. Some (slots_text event_text 0 (map event_fields x.0.now)) };

    fn fmt<W: fmt::Write>(&self, f: &mut fmt::Formatter<W>) -> fmt::Result {
        for (slot, event) in self.0.iter().enumerate() {
            let record = EventWords(*event);
            writeln!(f, "{}", SlotLine { slot, record })?;
        }
        Ok(())
    }
}

// A card of offsets, with their mean.
#[derive(Drop)]
struct OffsetCard<'a>(&'a Reading<Offset>);

impl fmt::Display for OffsetCard<'_> {
    ghost output = { λ x. Some (offsets_text (head_fields x.0.now.head) (map offset_fields x.0.now.records.items)) };

    fn fmt<W: fmt::Write>(&self, f: &mut fmt::Formatter<W>) -> fmt::Result {
        let head = HeadLines(self.0.head);
        let offsets = self.0.records.as_slice();
        let slots = OffsetSlots(offsets);
        let mean = MeanLine(mean(offsets));
        write!(f, "kind offset\n{head}{slots}{mean}\n")
    }
}

// A card of events.
#[derive(Drop)]
struct EventCard<'a>(&'a Reading<Event>);

impl fmt::Display for EventCard<'_> {
    ghost output = { λ x. Some (events_text (head_fields x.0.now.head) (map event_fields x.0.now.records.items)) };

    fn fmt<W: fmt::Write>(&self, f: &mut fmt::Formatter<W>) -> fmt::Result {
        let head = HeadLines(self.0.head);
        let slots = EventSlots(self.0.records.as_slice());
        write!(f, "kind event\n{head}{slots}")
    }
}

impl fmt::Display for AnyReading {
    ghost output = { λ x. Some (card_text x) };

    fn fmt<W: fmt::Write>(&self, f: &mut fmt::Formatter<W>) -> fmt::Result {
        match self {
            AnyReading::Offsets(reading) => write!(f, "{}", OffsetCard(reading)),
            AnyReading::Events(reading) => write!(f, "{}", EventCard(reading)),
        }
    }
}
