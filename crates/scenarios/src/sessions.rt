ghost use Rattle.std.specs.Prelude.{IfOk};
ghost use Rattle.script.specs.declared.commands.Command.TheVariants.{Insert, Slot};
ghost use Rattle.scenarios.specs.Answering.{Replied, said};

use crate::answers::Answer;
use faults::Fault;
use records::Offset;
use reservoir::Reservoir;
use script::Command;
use std::alloc::{AllocError, Global};

// A scenario at work: its reservoir, and the memory for what it is answered.
#[derive(Drop)]
pub(crate) struct Session {
    pub heap: Global,
    pub sample: Reservoir<Offset>,
}

impl Session {
    // Offers the record with these fields. One that cannot exist is refused, and counts for nothing.
    fn insert(&mut self, second: u32, satellite: u32, nanoseconds: i32) -> Result<Answer, Fault>
        ensures { Replied (Insert second satellite nanoseconds) self.old.sample self.new.sample (said result) }
    {
        let offset = Offset::new(second, satellite, nanoseconds)?;
        self.sample.insert(offset).map(Answer::Inserted)
    }

    // The record in a slot, or why there is none.
    fn find(&self, i: u16) -> Result<Answer, Fault>
        ensures { Replied (Slot i) self.now.sample self.now.sample (said result) }
    {
        self.sample.slot(i).map(Answer::Found)
    }

    // One command: its answer, or its refusal. A result in a result, since a refusal is kept among the answers, and a
    // want of memory ends the work.
    pub fn answer(&mut self, command: Command) -> Result<Result<Answer, Fault>, AllocError>
        ensures { IfOk result (λ a. Replied command self.old.sample self.new.sample (said a)) }
    {
        match command {
            Command::Insert {
                second,
                satellite,
                nanoseconds,
            } => Ok(self.insert(second, satellite, nanoseconds)),
            Command::Slot(i) => Ok(self.find(i)),
            Command::Report => Ok(Ok(Answer::Told(self.report()?))),
        }
    }
}
