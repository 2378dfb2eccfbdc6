ghost use Rattle.std.specs.Prelude.{◌≡◌, map};
ghost use Rattle.failures.specs.Answers.{UnlessMemory};
ghost use Rattle.languages.specs.Scripts.{Added};
ghost use Rattle.languages.specs.Scripts as any;
ghost use Rattle.languages.specs.Expecting.{shown};
ghost use Rattle.parsing.specs.Scripts.{new_reservoir, new_card, start_plan, go_on, add_named, add_text, Parsed};
ghost use Rattle.parsing.specs.Words.{read_reservoir, read_stack};
ghost use Rattle.script.specs.Shown.{ScriptPlan, script_plan};
ghost use Rattle.script.specs.declared.expectations.Expected.TheVariants.{ScenarioFirst};
ghost use Rattle.words.specs.Words.{texts};

use crate::cards;
use crate::commands::command;
use crate::starts::{reservoir, stack};
use failures::Failure;
use languages::Language;
use script::{CardScenario, Expected, Nights, ReservoirScenario, Scenario, Unread};
use std::alloc::Global;
use words::words;

// A scenario that a `reservoir` line starts.
fn new_reservoir(heap: Global, words: &[&str]) -> Result<Scenario, Expected>
    ensures { shown script_plan result ≡ shown new_reservoir (read_reservoir (texts words.now)) }
{
    let (size, seed) = reservoir(words)?;
    Ok(Scenario::Reservoir(ReservoirScenario {
        size,
        seed,
        commands: Vec::new(heap),
    }))
}

// A scenario that a `stack` line starts: of offsets, unless it is told otherwise.
fn new_card(heap: Global, words: &[&str]) -> Result<Scenario, Expected>
    ensures { shown script_plan result ≡ shown new_card (read_stack (texts words.now)) }
{
    Ok(Scenario::Card(CardScenario {
        stack: stack(words)?,
        fuses: Vec::new(heap),
        choices: Vec::new(heap),
        nights: Nights::Offsets(Vec::new(heap)),
        ends_with_memory: false,
    }))
}

// Goes on with a scenario.
fn go_on(
    heap: Global,
    scenario: &mut Scenario,
    name: &str,
    words: &[&str],
) -> Result<(), Failure<Expected>>
    ensures { UnlessMemory (λ done. script_plan scenario.new) (go_on (script_plan scenario.old) name.now (texts words.now)) result }
{
    match scenario {
        Scenario::Reservoir(reservoir) => {
            let command = command(name, words).map_err(Failure::Because)?;
            reservoir.commands.push(command)?;
        }
        Scenario::Card(card) => cards::grow(heap, card, name, words)?,
    }
    Ok(())
}

// Goes on with the last scenario.
fn go_on_last(
    heap: Global,
    scenarios: &mut Vec<Scenario>,
    name: &str,
    words: &[&str],
) -> Result<(), Failure<Expected>>
    ensures { Added script_plan (any.change_last ScenarioFirst (λ p. go_on p name.now (texts words.now)) (map script_plan scenarios.old.items)) scenarios.new.items result }
{
    let last = scenarios
        .last_mut()
        .ok_or(Failure::Because(Expected::ScenarioFirst))?;
    go_on(heap, last, name, words)
}

// Starts a scenario behind the others.
fn start(
    scenarios: &mut Vec<Scenario>,
    made: Result<Scenario, Expected>,
) -> Result<(), Failure<Expected>>
    ensures { Added script_plan (start_plan (map script_plan scenarios.old.items) (shown script_plan made)) scenarios.new.items result }
{
    scenarios.push(made.map_err(Failure::Because)?)?;
    Ok(())
}

// Adds a line to the scenarios, by its name: a new one, or more in the last.
fn add_named(
    heap: Global,
    scenarios: &mut Vec<Scenario>,
    name: &str,
    words: &[&str],
) -> Result<(), Failure<Expected>>
    ensures { Added script_plan (add_named (map script_plan scenarios.old.items) name.now (texts words.now)) scenarios.new.items result }
{
    match name {
        "reservoir" => start(scenarios, new_reservoir(heap, words)),
        "stack" => start(scenarios, new_card(heap, words)),
        _ => go_on_last(heap, scenarios, name, words),
    }
}

// The language of rack's scripts.
struct Rack;

impl Language for Rack {
    type Scenario = Scenario;

    type Expected = Expected;

    ghost Plan = { ScriptPlan };

    ghost plan = { script_plan };

    ghost add = { add_text };

    fn add(
        heap: Global,
        scenarios: &mut Vec<Scenario>,
        line: &str,
    ) -> Result<(), Failure<Expected>> {
        let words = words(heap, line)?;
        match words.as_slice() {
            [] => Ok(()),
            [name, rest @ ..] => add_named(heap, scenarios, name, rest),
        }
    }
}

// A script's scenarios, or its first bad line.
pub fn parse(heap: Global, text: &str) -> Result<Vec<Scenario>, Unread>
    ensures { Parsed text.now result }
{
    languages::parse::<Rack>(heap, text)
}
