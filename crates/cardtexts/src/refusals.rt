ghost use Rattle.std.specs.Prelude.{Some};
ghost use Rattle.cardtexts.specs.Refusals.{meaning_text, refused_text};

use faults::{Fault, FaultNumbers, Reason};
use std::fmt;

// What a refusal says of the card, in words.
#[derive(Clone, Copy)]
struct Meaning(Fault);

impl fmt::Display for Meaning {
    ghost output = { λ x. Some (meaning_text x.0.reason x.0) };

    fn fmt<W: fmt::Write>(&self, f: &mut fmt::Formatter<W>) -> fmt::Result {
        let Meaning(fault) = self;
        let place = fault.place;
        match fault.reason {
            Reason::NoSuchBlock => write!(
                f,
                "The file ends before the end of block {place}; a block has 504 bytes."
            ),
            Reason::BadHead => f.write_str(
                "Block 0 is no lawful head: a field is out of its limits, a byte after the fields is not zero, or the file has fewer blocks than the head asks for.",
            ),
            Reason::OtherKind => write!(
                f,
                "The records are of kind {place}; the kinds known here are 1, offsets, and 2, events."
            ),
            Reason::BadEntry => write!(
                f,
                "Entry {place} of the log, counted from 0, is wrong: its number is 0, not above the one before it, above the count, or of a record that has no slot, or its bytes are those of no record."
            ),
            Reason::BadSlot => write!(
                f,
                "Slot {place} is filled, but its bytes are those of no record, and the log has no entry for it."
            ),
            _ => write!(f, "{fault}"),
        }
    }
}

// A card that was refused: the refusal's three numbers, and on the next line what it says of the card.
#[derive(Clone, Copy)]
pub struct Refusal(pub Fault);

impl fmt::Display for Refusal {
    ghost output = { λ x. Some (refused_text x.0) };

    fn fmt<W: fmt::Write>(&self, f: &mut fmt::Formatter<W>) -> fmt::Result {
        let Refusal(fault) = self;
        write!(f, "refused {}\n{}\n", FaultNumbers(*fault), Meaning(*fault))
    }
}
