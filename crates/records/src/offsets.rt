ghost use Rattle.std.specs.Prelude.{◌≡◌};
ghost use Rattle.records.specs.Reading.{shown_as};
ghost use Rattle.records.specs.Offsets.{offset_fields, offset_of, offset_bytes, offset_wrong};
ghost use Rattle.records.specs.OffsetLaws as laws;
ghost use Rattle.std.proofs.Common.{rules};

use crate::fields::{Nanoseconds, Satellite, Second};
use crate::kinds::{RECORD_BYTES, RecordKind};
use faults::Fault;
use faults::Layer::Record;
use faults::Reason::{NoSuchRecord, WrongLength};

// How far a rack's clock was off a satellite's, at a second of the week.
#[derive(Clone, Copy, PartialEq, Eq, Debug)]
pub struct Offset {
    pub second: Second,
    pub satellite: Satellite,
    pub nanoseconds: Nanoseconds,
}

impl Offset {
    // The record with these fields, or the refusal of the first that is out of its range. Three plain numbers: they come
    // so from a command and travel no further.
    pub fn new(second: u32, satellite: u32, nanoseconds: i32) -> Result<Offset, Fault>
        ensures { shown_as offset_fields result ≡ offset_of (second, satellite, nanoseconds) }
    {
        let second = Second::new(second).ok_or(Record.fault(NoSuchRecord, 0))?;
        let satellite = Satellite::numbered(satellite).ok_or(Record.fault(NoSuchRecord, 4))?;
        let nanoseconds = Nanoseconds::new(nanoseconds).ok_or(Record.fault(NoSuchRecord, 8))?;
        Ok(Offset {
            second,
            satellite,
            nanoseconds,
        })
    }
}

impl RecordKind for Offset {
    ghost CODE = { 1 };

    ghost bytes = { offset_bytes };

    ghost wrong = { offset_wrong };

    ghost coded = { Prim.search rules };

    ghost twelve = { λ r. laws.twelve r };

    ghost right = { λ r. laws.right r };

    ghost own = { λ r s e. laws.own r s e };

    ghost met = { λ bs t none. laws.met bs t none };

    const CODE: u8 = 1;

    fn encode(&self) -> [u8; RECORD_BYTES] {
        let [a, b, c, d] = self.second.value().to_be_bytes();
        let [e, f, g, h] = self.nanoseconds.value().to_be_bytes();
        [a, b, c, d, self.satellite.value(), 0, 0, 0, e, f, g, h]
    }

    fn decode(from: &[u8]) -> Result<Offset, Fault> {
        // Not by `new`: the zeros are looked at between the satellite and the nanoseconds, in the order of the bytes.
        let [a, b, c, d, satellite, x, y, z, e, f, g, h] = *from else {
            return Err(Record.fault(WrongLength, from.len() as u64));
        };
        let second = Second::new(u32::from_be_bytes([a, b, c, d])).ok_or(Record.fault(
            NoSuchRecord,
            0,
        ))?;
        let satellite = Satellite::new(satellite).ok_or(Record.fault(NoSuchRecord, 4))?;
        if [x, y, z] != [0; 3] {
            return Err(Record.fault(NoSuchRecord, 5));
        }
        let nanoseconds = Nanoseconds::new(i32::from_be_bytes([e, f, g, h])).ok_or(Record.fault(
            NoSuchRecord,
            8,
        ))?;
        Ok(Offset {
            second,
            satellite,
            nanoseconds,
        })
    }
}
