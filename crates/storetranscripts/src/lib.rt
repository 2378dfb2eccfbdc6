// A whole script of store calls, from its text to the text of all that it is answered.
#![tactic(auto)]

ghost use Rattle.languages.specs.Transcripts.{AtMostOne};
ghost use Rattle.storetranscripts.specs.Transcripts.{Transcript, Transcribed};

use std::alloc::Global;
use storeparsing::parse;
use storescript::Unread;

mod lines;
mod writing;

// Reads a script whole, then plays its scenarios in order and writes a line for each call. A script with a bad line is
// not played at all.
pub fn transcript(heap: Global, script: &str) -> Result<String, Unread>
    ensures text { Transcribed script.now result }
    ensures determined { AtMostOne (Transcript script.now) }
{
    let scenarios = parse(heap, script)?;
    let mut out = String::new(heap);
    for scenario in scenarios {
        writing::scenario(heap, &mut out, scenario)?;
    }
    Ok(out)
}
