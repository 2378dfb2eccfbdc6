ghost use Rattle.std.specs.Prelude.{◌≡◌, Some};
ghost use Rattle.faults.specs.Texts.{reason_text, layer_text, reason_shown, layer_shown, fault_shown, refusal_text};

use crate::faults::{Fault, Layer, Reason};
use std::fmt;

impl Reason {
    // The reason in a few words. A method, and no Display of its own: the Display has the number too.
    fn text(self) -> &'static str
        ensures { result.now ≡ reason_text self }
    {
        match self {
            Reason::NoSuchBlock => "no such block",
            Reason::WrongLength => "wrong length",
            Reason::OutOfLimits => "out of limits",
            Reason::StoreTooSmall => "store too small",
            Reason::NoSuchRecord => "no such record",
            Reason::NoSuchSlot => "no such slot",
            Reason::Off => "off",
            Reason::Torn => "torn",
            Reason::BadHead => "bad head",
            Reason::OtherKind => "other kind",
            Reason::BadEntry => "bad entry",
            Reason::BadSlot => "bad slot",
            Reason::LogFull => "log full",
            Reason::CountAtLimit => "count at its limit",
            Reason::EmptySlot => "empty slot",
        }
    }
}

impl Layer {
    // The layer's name, a method as a reason's words are.
    fn text(self) -> &'static str
        ensures { result.now ≡ layer_text self }
    {
        match self {
            Layer::Device => "device",
            Layer::Mirror => "mirror",
            Layer::Sampler => "sampler",
            Layer::Record => "record",
        }
    }
}

// As `5 (no such record)`.
impl fmt::Display for Reason {
    ghost output = { λ r. Some (reason_shown r) };

    fn fmt<W: fmt::Write>(&self, f: &mut fmt::Formatter<W>) -> fmt::Result {
        let number = u8::from(*self);
        let reason = self.text();
        write!(f, "{number} ({reason})")
    }
}

// As `4 (record)`. Written again beside a reason's, since no impl of Display can stand for every type that has a number
// and words, and a trait for the two would be longer than this line twice.
impl fmt::Display for Layer {
    ghost output = { λ l. Some (layer_shown l) };

    fn fmt<W: fmt::Write>(&self, f: &mut fmt::Formatter<W>) -> fmt::Result {
        let number = u8::from(*self);
        let layer = self.text();
        write!(f, "{number} ({layer})")
    }
}

// As `refusal 5 (no such record) of layer 4 (record) at place 8`.
impl fmt::Display for Fault {
    ghost output = { λ f. Some (fault_shown f) };

    fn fmt<W: fmt::Write>(&self, f: &mut fmt::Formatter<W>) -> fmt::Result {
        let reason = self.reason;
        let layer = self.layer;
        let place = self.place;
        write!(f, "refusal {reason} of layer {layer} at place {place}")
    }
}

// A refusal as its three numbers, as the programs print it.
#[derive(Clone, Copy)]
pub struct FaultNumbers(pub Fault);

// As `5 4 8`.
impl fmt::Display for FaultNumbers {
    ghost output = { λ x. Some (refusal_text x.0) };

    fn fmt<W: fmt::Write>(&self, f: &mut fmt::Formatter<W>) -> fmt::Result {
        let FaultNumbers(fault) = self;
        write!(
            f,
            "{} {} {}",
            u8::from(fault.reason),
            u8::from(fault.layer),
            fault.place
        )
    }
}
