ghost use Rattle.std.specs.Prelude.{◌++◌, map, string_bytes, Ok, Some};
ghost use Rattle.failures.specs.Answers.{UnlessMemory};
ghost use Rattle.scenarios.specs.Answering.{said};
ghost use Rattle.transcripts.specs.Transcripts.{answers_text, skipped_text, scenario_text};

use failures::Failure;
use faults::{Fault, FaultNumbers};
use printing::{Said, name};
use scenarios::{Answer, work};
use script::{Command, ReservoirScenario, Unread};
use std::alloc::Global;
use std::fmt;

// The lines of commands that were answered or refused. The commands stay the caller's, so the answers stand beside
// them.
// A loop here and one in Skipped, since what is written of an item is made on the way and no slice of it exists.
#[derive(Drop)]
struct Answered<'a> {
    commands: &'a [Command],
    answers: &'a [Result<Answer, Fault>],
}

impl fmt::Display for Answered<'_> {
    ghost output = { λ x. Some (answers_text x.commands.now (map said x.answers.now)) };

    fn fmt<W: fmt::Write>(&self, f: &mut fmt::Formatter<W>) -> fmt::Result {
        for (&command, answer) in self.commands.iter().zip(self.answers) {
            writeln!(f, "{}", Said { command, answer })?;
        }
        Ok(())
    }
}

// The lines of commands whose reservoir was refused.
#[derive(Drop)]
struct Skipped<'a>(&'a [Command]);

impl fmt::Display for Skipped<'_> {
    ghost output = { λ x. Some (skipped_text x.0.now) };

    fn fmt<W: fmt::Write>(&self, f: &mut fmt::Formatter<W>) -> fmt::Result {
        for command in self.0 {
            writeln!(f, "{} skipped", name(*command))?;
        }
        Ok(())
    }
}

// Works a scenario of a reservoir and writes its lines. Only a want of memory can end that.
pub(crate) fn reservoir(
    heap: Global,
    out: &mut String,
    played: &ReservoirScenario,
) -> Result<(), Unread>
    ensures { UnlessMemory (λ done. string_bytes out.new) (Ok (string_bytes out.old ++ scenario_text played.now.size played.now.seed played.now.commands.items)) result }
{
    let commands = played.commands.as_slice();
    match work(heap, played.size, played.seed, commands) {
        Ok(answers) => {
            let answers = answers.as_slice();
            write!(out, "reservoir ok\n{}", Answered { commands, answers })?;
        }
        Err(Failure::Because(fault)) => {
            let numbers = FaultNumbers(fault);
            write!(out, "reservoir refused {numbers}\n{}", Skipped(commands))?;
        }
        // A refused reservoir is printed, a want of memory ends the work.
        Err(Failure::Memory) => return Err(Failure::Memory),
    }
    Ok(())
}
