ghost use Rattle.std.specs.Prelude.{◌≡◌};
ghost use Rattle.records.specs.Happenings.{happening_code, happening_coded};
ghost use Rattle.records.specs.Reading.{shown_as};

use faults::Fault;
use faults::Layer::Record;
use faults::Reason::NoSuchRecord;

// What happened, by the code that byte 4 of an event has for it.
#[derive(Clone, Copy, PartialEq, Eq, Debug)]
pub enum Happening {
    LockLost = 1,
    LockGained = 2,
    Holdover = 3,
}

impl From<Happening> for u8 {
    ghost from_gives = { λ h code. code ≡ happening_code h };

    fn from(happening: Happening) -> u8 {
        happening as u8
    }
}

// The happening with this code, or the refusal of byte 4.
impl TryFrom<u8> for Happening {
    type Error = Fault;

    ghost try_from_gives = { λ code outcome. shown_as happening_code outcome ≡ happening_coded code };

    fn try_from(code: u8) -> Result<Happening, Fault> {
        match code {
            1 => Ok(Happening::LockLost),
            2 => Ok(Happening::LockGained),
            3 => Ok(Happening::Holdover),
            _ => Err(Record.fault(NoSuchRecord, 4)),
        }
    }
}
