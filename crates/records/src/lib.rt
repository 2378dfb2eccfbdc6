// Records of twelve bytes: what every kind of record keeps to, and the two kinds that a rack stores.
#![tactic(auto)]

mod events;
mod fields;
mod happenings;
mod kinds;
mod offsets;
mod wholes;

pub use events::Event;
pub use fields::{Nanoseconds, Satellite, Second};
pub use happenings::Happening;
pub use kinds::{RECORD_BYTES, RecordKind, reread};
pub use offsets::Offset;
