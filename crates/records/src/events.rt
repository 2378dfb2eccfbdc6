ghost use Rattle.std.specs.Prelude.{◌≡◌};
ghost use Rattle.records.specs.Events.{event_fields, event_of, event_bytes, event_wrong, wrong_party};
ghost use Rattle.records.specs.Happenings.{happening_code};
ghost use Rattle.records.specs.Fields.{second_of};
ghost use Rattle.records.specs.Reading.{judged, shown_as};
ghost use Rattle.records.specs.EventLaws as laws;
ghost use Rattle.std.proofs.Common.{rules};

use crate::fields::{Satellite, Second};
use crate::happenings::Happening;
use crate::kinds::{RECORD_BYTES, RecordKind};
use faults::Fault;
use faults::Layer::Record;
use faults::Reason::{NoSuchRecord, WrongLength};

// What happened to a rack's lock on a satellite. In a holdover the rack runs on its own clock, and no satellite has
// a part in it.
#[derive(Clone, Copy, PartialEq, Eq, Debug)]
pub enum Event {
    LockLost(Second, Satellite),
    LockGained(Second, Satellite),
    Holdover(Second),
}

impl Event {
    // The record of this happening with these fields, or the refusal of the first that is out of its range. A
    // holdover's satellite is 0, as on the card, so that one equation serves all three.
    pub fn new(happening: Happening, second: u32, satellite: u32) -> Result<Event, Fault>
        ensures { shown_as event_fields result ≡ event_of (second, happening_code happening, satellite) }
    {
        let second = Second::new(second).ok_or(Record.fault(NoSuchRecord, 0))?;
        Event::happened(happening, second, satellite)
    }

    // The same where the second is in its range.
    fn happened(happening: Happening, second: Second, satellite: u32) -> Result<Event, Fault>
        ensures { shown_as event_fields result ≡ judged (wrong_party (happening_code happening) satellite) (second_of second, happening_code happening, satellite) }
    {
        let wrong = Record.fault(NoSuchRecord, 5);
        match happening {
            Happening::LockLost => Ok(Event::LockLost(
                second,
                Satellite::numbered(satellite).ok_or(wrong)?,
            )),
            Happening::LockGained => Ok(Event::LockGained(
                second,
                Satellite::numbered(satellite).ok_or(wrong)?,
            )),
            Happening::Holdover if satellite == 0 => Ok(Event::Holdover(second)),
            Happening::Holdover => Err(wrong),
        }
    }
}

impl RecordKind for Event {
    ghost CODE = { 2 };

    ghost bytes = { event_bytes };

    ghost wrong = { event_wrong };

    ghost coded = { Prim.search rules };

    ghost twelve = { λ r. laws.twelve r };

    ghost right = { λ r. laws.right r };

    ghost own = { λ r s e. laws.own r s e };

    ghost met = { λ bs t none. laws.met bs t none };

    const CODE: u8 = 2;

    fn encode(&self) -> [u8; RECORD_BYTES] {
        let (second, happening, satellite) = match *self {
            Event::LockLost(second, satellite) => (second, Happening::LockLost, satellite.value()),
            Event::LockGained(second, satellite) => (
                second,
                Happening::LockGained,
                satellite.value(),
            ),
            Event::Holdover(second) => (second, Happening::Holdover, 0),
        };
        let [a, b, c, d] = second.value().to_be_bytes();
        let what = u8::from(happening);
        [a, b, c, d, what, satellite, 0, 0, 0, 0, 0, 0]
    }

    fn decode(from: &[u8]) -> Result<Event, Fault> {
        let [a, b, c, d, what, satellite, u, v, w, x, y, z] = *from else {
            return Err(Record.fault(WrongLength, from.len() as u64));
        };
        let second = Second::new(u32::from_be_bytes([a, b, c, d])).ok_or(Record.fault(
            NoSuchRecord,
            0,
        ))?;
        let event = Event::happened(Happening::try_from(what)?, second, u32::from(satellite))?;
        if [u, v, w, x, y, z] != [0; 6] {
            return Err(Record.fault(NoSuchRecord, 6));
        }
        Ok(event)
    }
}
