ghost use Rattle.std.specs.Prelude.{◌≡◌, Some};
ghost use Rattle.storetranscripts.specs.Lines.{name_of, said_text};

use faults::{Fault, FaultNumbers};
use replays::Answer;
use std::fmt;
use storescript::Call;

// A call's first word alone: a Display of a call would show its numbers too.
fn name(call: Call) -> &'static str
    ensures { result.now ≡ name_of call }
{
    match call {
        Call::Restart => "restart",
        Call::Flush => "flush",
        Call::Read { .. } => "read",
        Call::Write { .. } => "write",
    }
}

// A call with its answer or refusal, as they are printed.
#[derive(Clone, Copy)]
pub(crate) struct Said {
    pub(crate) call: Call,
    pub(crate) answer: Result<Answer, Fault>,
}

// The call's name goes first, so that a line is understood by itself.
impl fmt::Display for Said {
    ghost output = { λ x. Some (said_text x.call x.answer) };

    fn fmt<W: fmt::Write>(&self, f: &mut fmt::Formatter<W>) -> fmt::Result {
        let name = name(self.call);
        match self.answer {
            Ok(Answer::Done) => write!(f, "{name} ok"),
            Ok(Answer::Filled(value)) => write!(f, "{name} ok {value}"),
            Ok(Answer::Mixed) => write!(f, "{name} ok mixed"),
            Err(fault) => write!(f, "{name} refused {}", FaultNumbers(fault)),
        }
    }
}
