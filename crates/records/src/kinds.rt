ghost use Rattle.std.specs.Prelude.{◌≡◌, ℕ, ◌<◌, List, None, Ok, Option};
ghost use Rattle.records.specs.Bytes.{Twelve};
ghost use Rattle.records.specs.Reading.{read_as, shown_as};

use faults::Fault;

// How many bytes every record has.
pub const RECORD_BYTES: usize = 12;

// A kind of record. Whatever stores records knows their kind by this trait alone.
pub trait RecordKind: Copy + Drop {
    // The code by which a card names the kind: a number and no enum, since kinds are open and an enum would close them.
    ghost CODE: { ℕ };

    const CODE: u8;

    // A record's bytes.
    ghost bytes: { Self → List ℕ };

    // Of twelve bytes, the first of the first wrong field; none if they are a record's.
    ghost wrong: { List ℕ → Option ℕ };

    // Not From and TryFrom, whose contracts each impl states for itself: these are the trait's, for every kind.
    fn encode(&self) -> [u8; RECORD_BYTES]
        ensures { result ≡ bytes self.now };

    // The record with these bytes, and no other; refused if they are not twelve, or at the first wrong field.
    fn decode(from: &[u8]) -> Result<Self, Fault>
        ensures { shown_as bytes result ≡ read_as wrong from.now };

    ghost coded: { (0 < CODE) × (CODE < 256) };

    ghost twelve: { (r : Self) → Twelve (bytes r) };

    // A record's bytes are read, and as no other record.
    ghost right: { (r : Self) → wrong (bytes r) ≡ None };

    ghost own: { (r s : Self) → bytes r ≡ bytes s → r ≡ s };

    // Twelve bytes with no wrong field are some record's.
    ghost met: { (bs : List ℕ) → Twelve bs → wrong bs ≡ None → ((r : Self) × (bytes r ≡ bs)) };
}

// A record of any kind, read back from its own bytes.
pub fn reread<K: RecordKind>(kept: &K) -> Result<K, Fault>
    ensures { result ≡ Ok kept.now }
{
    K::decode(&kept.encode())
}
