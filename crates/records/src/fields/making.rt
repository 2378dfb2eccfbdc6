ghost use Rattle.std.specs.Prelude.{◌≡◌};
ghost use Rattle.std.specs.Option.{option_map};
ghost use Rattle.records.specs.Fields.{number_of, number_in, satellite_in};

use crate::fields::{InRange, Satellite};
use crate::wholes::Whole;

impl<N: Whole, const BELOW: u32, const ABOVE: u32> InRange<N, BELOW, ABOVE> {
    // The field with this number, if it is in the range. An Option and no TryFrom: a number out of range has no more to
    // say, and each caller has a reason of its own for it (`ok_or`).
    pub(crate) fn new(number: N) -> Option<Self>
        ensures { option_map number_of result ≡ number_in N.whole BELOW ABOVE number }
    {
        let whole = number.whole();
        if whole < -i64::from(BELOW) || whole > i64::from(ABOVE) {
            return None;
        }
        Some(InRange { number })
    }

    // The number itself. A method and no From, of which no impl can give every N.
    pub fn value(self) -> N
        ensures { result ≡ number_of self }
    {
        self.number
    }
}

impl Satellite {
    // The satellite with this number, if there is one.
    pub(crate) fn numbered(number: u32) -> Option<Satellite>
        ensures { option_map number_of result ≡ satellite_in number }
    {
        u8::try_from(number).ok().and_then(Satellite::new)
    }
}
