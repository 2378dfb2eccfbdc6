ghost use Rattle.std.specs.Prelude.{◌≡◌};
ghost use Rattle.faults.specs.Numbers.{reason_number, layer_number};
ghost use Rattle.faults.specs.Refusals.{fault};

// Why a call was refused. Numbers below 21 speak of what the caller gave, and the others of the state that the
// call met. Each comment says what the refusal's place is.
#[derive(Clone, Copy, PartialEq, Eq, Debug)]
pub enum Reason {
    // A block number at or past the store's size; that number.
    NoSuchBlock = 1,
    // A buffer of the wrong length; its length.
    WrongLength = 2,
    // A number of slots or of log blocks outside its limits; that number.
    OutOfLimits = 3,
    // A store with too few blocks; its size.
    StoreTooSmall = 4,
    // Fields or bytes that no record has; the first byte of the first wrong field.
    NoSuchRecord = 5,
    // A slot at or past the sample's size; the slot.
    NoSuchSlot = 6,
    // A store that is off, or a sampler that is dark; 0.
    Off = 21,
    // A block that a cut left half written; the block.
    Torn = 22,
    // A head that is no head; 0.
    BadHead = 25,
    // A card of another record kind; the kind's code that was found.
    OtherKind = 26,
    // A wrong log entry; its position, counted from 0.
    BadEntry = 27,
    // A filled slot whose bytes are no record; the slot.
    BadSlot = 28,
    // A candidate for a log with no room; the number of its entries.
    LogFull = 29,
    // A count at its limit; the count.
    CountAtLimit = 30,
    // A slot that no record has filled; the slot.
    EmptySlot = 31,
}

// The number that the format gives this reason.
impl From<Reason> for u8 {
    ghost from_gives = { λ r n. n ≡ reason_number r };

    fn from(reason: Reason) -> u8 {
        reason as u8
    }
}

// Where a refusal arose.
#[derive(Clone, Copy, PartialEq, Eq, Debug)]
pub enum Layer {
    // An image or a bench.
    Device = 1,
    Mirror = 2,
    Sampler = 3,
    Record = 4,
}

// The number that the format gives this layer.
impl From<Layer> for u8 {
    ghost from_gives = { λ l n. n ≡ layer_number l };

    fn from(layer: Layer) -> u8 {
        layer as u8
    }
}

// A refusal. Every layer hands one from below on as it is, by `?`. The place is no part of the reason, since the format
// has a number, a layer and a place for each.
#[derive(Clone, Copy, PartialEq, Eq, Debug)]
pub struct Fault {
    pub reason: Reason,
    pub layer: Layer,
    pub place: u64,
}

impl Layer {
    // The refusal that arises in this layer, for this reason, at this place.
    pub const fn fault(self, reason: Reason, place: u64) -> Fault
        ensures { result ≡ fault reason self place }
    {
        Fault {
            reason,
            layer: self,
            place,
        }
    }
}
