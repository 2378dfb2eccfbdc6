ghost use Rattle.scenarios.specs.Answering.{ScenarioAnswered};

use crate::answers::{Answer, Stopped};
use crate::sessions::Session;
use failures::Failure;
use faults::Fault;
use reservoir::Reservoir;
use script::Command;
use std::alloc::Global;

// Works the commands of a scenario in order, and answers each by the sample of just the records accepted before it. It
// takes no whole Scenario, whose commands are a Vec: a caller may have them in any slice.
pub fn work(
    heap: Global,
    size: u16,
    seed: u64,
    commands: &[Command],
) -> Result<Vec<Result<Answer, Fault>>, Stopped>
    ensures { ScenarioAnswered seed size commands.now result }
{
    let sample = Reservoir::new(size, seed).map_err(Failure::Because)?;
    let mut session = Session { heap, sample };
    let mut answers = Vec::new(heap);
    for command in commands {
        answers.push(session.answer(*command)?)?;
    }
    Ok(answers)
}
