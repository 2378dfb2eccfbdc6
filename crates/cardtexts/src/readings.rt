ghost use Rattle.std.specs.Prelude.{◌≡◌, vec_items};
ghost use Rattle.failures.specs.Answers.{UnlessMemoryForOk};
ghost use Rattle.cardtexts.specs.Kinds.{is_of_events, named_kind, seen, any_read_of};
ghost use Rattle.failures.specs.declared.Failure.TheVariants.{Because};

use cardreads::{Reading, read_card};
use failures::Failure;
use faults::{Fault, Reason};
use records::{Event, Offset, RecordKind};
use std::alloc::Global;

// A card that was read as of the kind that its head names.
#[derive(Drop)]
pub enum AnyReading {
    Offsets(Reading<Offset>),
    Events(Reading<Event>),
}

impl AnyReading {
    // The card as of the kind that its head names, by what reading it as of each kind answered. Reading it as of a kind
    // that its head does not name ends at the head, so nothing more is read twice. A kind that is neither is refused as
    // it was.
    fn of_named_kind(
        offsets: Result<Reading<Offset>, Failure<Fault>>,
        events: Result<Reading<Event>, Failure<Fault>>,
    ) -> Result<AnyReading, Failure<Fault>>
        ensures { result ≡ named_kind offsets events }
    {
        match offsets {
            Ok(reading) => Ok(AnyReading::Offsets(reading)),
            Err(Failure::Because(fault)) if is_of_events(fault) => events.map(AnyReading::Events),
            Err(why) => Err(why),
        }
    }
}

// Reads the card in these bytes as of the kind that its head names.
pub fn read_any_card(heap: Global, bytes: Vec<u8>) -> Result<AnyReading, Failure<Fault>>
    ensures { UnlessMemoryForOk seen (any_read_of (vec_items bytes)) result }
{
    let (bytes, offsets) = read_card(heap, bytes);
    let (_bytes, events) = read_card(heap, bytes);
    AnyReading::of_named_kind(offsets, events)
}

// Whether a card was refused since it is of another kind, namely of events.
fn is_of_events(fault: Fault) -> bool
    ensures { result ≡ is_of_events (Because fault) }
{
    fault.reason == Reason::OtherKind && fault.place == u64::from(Event::CODE)
}
