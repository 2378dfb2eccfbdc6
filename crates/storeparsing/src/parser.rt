ghost use Rattle.std.specs.Prelude.{◌≡◌, map};
ghost use Rattle.failures.specs.Answers.{UnlessMemory};
ghost use Rattle.languages.specs.Scripts.{Added};
ghost use Rattle.storeparsing.specs.Lines.{more_by};
ghost use Rattle.storeparsing.specs.Scripts.{Plan, plan_of, is_open, grown, grow_last, add_text, Parsed};

use crate::forms::{Line, More};
use crate::lines::read;
use failures::Failure;
use languages::Language;
use std::alloc::Global;
use storescript::{Device, Expected, Scenario, Unread};

// Whether fuses and choices may still be told: a bench has all of them before its first call.
fn is_open(scenario: &Scenario) -> bool
    ensures { result ≡ is_open (plan_of scenario.now) }
{
    scenario.stack.device == Device::Bench && scenario.calls.is_empty()
}

// Goes on with a scenario.
fn grow(scenario: &mut Scenario, more: More) -> Result<(), Failure<Expected>>
    ensures { UnlessMemory (λ done. plan_of scenario.new) (grown (plan_of scenario.old) (more_by more)) result }
{
    match more {
        More::Asks(call) => scenario.calls.push(call)?,
        More::Fuses(fuses) if is_open(scenario) => scenario.fuses.extend_from_slice(&fuses)?,
        More::Choices(choices) if is_open(scenario) => scenario
            .choices
            .extend_from_slice(&choices)?,
        _ => return Err(Failure::Because(Expected::BenchOnly)),
    }
    Ok(())
}

// Goes on with the last scenario.
fn go_on(scenarios: &mut Vec<Scenario>, more: More) -> Result<(), Failure<Expected>>
    ensures { Added plan_of (grow_last (map plan_of scenarios.old.items) (more_by more)) scenarios.new.items result }
{
    let last = scenarios
        .last_mut()
        .ok_or(Failure::Because(Expected::StackFirst))?;
    grow(last, more)
}

// The language of faultsim's scripts.
struct Faultsim;

impl Language for Faultsim {
    type Scenario = Scenario;

    type Expected = Expected;

    ghost Plan = { Plan };

    ghost plan = { plan_of };

    ghost add = { add_text };

    fn add(
        heap: Global,
        scenarios: &mut Vec<Scenario>,
        line: &str,
    ) -> Result<(), Failure<Expected>> {
        match read(heap, line)? {
            None => Ok(()),
            Some(Line::Starts(stack)) => {
                scenarios.push(Scenario {
                    stack,
                    fuses: Vec::new(heap),
                    choices: Vec::new(heap),
                    calls: Vec::new(heap),
                })?;
                Ok(())
            }
            Some(Line::Goes(more)) => go_on(scenarios, more),
        }
    }
}

// A script's scenarios, or its first bad line.
pub fn parse(heap: Global, text: &str) -> Result<Vec<Scenario>, Unread>
    ensures { Parsed text.now result }
{
    languages::parse::<Faultsim>(heap, text)
}
