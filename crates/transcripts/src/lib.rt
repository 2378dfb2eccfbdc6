// A whole script, from its text to the text of all that it is answered.
#![tactic(auto)]

ghost use Rattle.std.specs.Prelude.{string_bytes};
ghost use Rattle.languages.specs.Transcripts.{AddsLines, AtMostOne};
ghost use Rattle.script.specs.Plans.{plan_of};
ghost use Rattle.transcripts.specs.Transcripts.{Lines, Transcript, Transcribed};

use parsing::parse;
use script::{Scenario, Unread};
use std::alloc::Global;

mod playing;
mod writing;

// Works a scenario and writes its lines.
fn write_scenario(heap: Global, out: &mut String, scenario: Scenario) -> Result<(), Unread>
    ensures { AddsLines Lines (string_bytes out.old) (plan_of scenario) (string_bytes out.new) result }
{
    match scenario {
        Scenario::Reservoir(reservoir) => writing::reservoir(heap, out, &reservoir)?,
        Scenario::Card(card) => playing::card(heap, out, card)?,
    }
    Ok(())
}

// Reads a script whole, then works its scenarios in order and writes what each asks for. A script with a bad line is not
// worked at all.
pub fn transcript(heap: Global, script: &str) -> Result<String, Unread>
    ensures text { Transcribed script.now result }
    ensures determined { AtMostOne (Transcript script.now) }
{
    let scenarios = parse(heap, script)?;
    let mut out = String::new(heap);
    for scenario in scenarios {
        write_scenario(heap, &mut out, scenario)?;
    }
    Ok(out)
}
