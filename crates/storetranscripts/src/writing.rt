ghost use Rattle.std.specs.Prelude.{◌≡◌, ◌++◌, ◌∷◌, [], string_bytes, Some};
ghost use Rattle.languages.specs.Transcripts.{AddsLines};
ghost use Rattle.storeparsing.specs.Scripts.{plan_of};
ghost use Rattle.storetranscripts.specs.Lines.{answers_text};
ghost use Rattle.storetranscripts.specs.Transcripts.{Lines};

use crate::lines::Said;
use faults::Fault;
use replays::{Answer, play};
use std::alloc::Global;
use std::fmt;
use storescript::{Call, Scenario, Unread};

// The lines of calls that were answered or refused. The calls stay the scenario's, so the answers stand beside them. As
// `transcripts` has it of commands: what is written of an item is made on the way, so that each writes its own.
#[derive(Drop)]
struct Answered<'a> {
    calls: &'a [Call],
    answers: &'a [Result<Answer, Fault>],
}

impl fmt::Display for Answered<'_> {
    ghost output = { λ x. Some (answers_text x.calls.now x.answers.now) };

    fn fmt<W: fmt::Write>(&self, f: &mut fmt::Formatter<W>) -> fmt::Result {
        for (&call, &answer) in self.calls.iter().zip(self.answers) {
            writeln!(f, "{}", Said { call, answer })?;
        }
        Ok(())
    }
}

// Plays a scenario and writes its lines. Only a want of memory can end that.
pub(crate) fn scenario(heap: Global, out: &mut String, scenario: Scenario) -> Result<(), Unread>
    ensures { AddsLines Lines (string_bytes out.old) (plan_of scenario) (string_bytes out.new) result }
{
    let Scenario {
        stack,
        fuses,
        choices,
        calls,
    } = scenario;
    let answers = play(heap, stack, fuses, choices, calls.as_slice())?;
    let calls = calls.as_slice();
    let answers = answers.as_slice();
    write!(out, "{}", Answered { calls, answers })?;
    Ok(())
}
