ghost use Rattle.std.specs.Prelude.{◌≡◌, ℕ, List, Result, map};
ghost use Rattle.languages.specs.Scripts.{of_line, Added, Parsed};

use crate::bad_lines::{BadLine, Unread};
use failures::Failure;
use std::alloc::Global;

// A language whose scripts are read line by line, each line to be added to the scenarios of the lines before it.
pub trait Language {
    type Scenario: Drop;

    type Expected: Drop;

    // A scenario as the script has it, without the memory that it lies in.
    ghost Plan: { Type 0 };

    ghost plan: { Self.Scenario → Plan };

    // What a line's bytes make of the plans so far, or what was expected there.
    ghost add: { List Plan → List ℕ → Result (List Plan) Self.Expected };

    // Adds what a line says to the scenarios so far.
    fn add(
        heap: Global,
        scenarios: &mut Vec<Self::Scenario>,
        line: &str,
    ) -> Result<(), Failure<Self::Expected>>
        ensures { Added plan (add (map plan scenarios.old.items) line.now) scenarios.new.items result };
}

// A failure to read a line, as that of the script. A match, and no method of Failure that takes a closure: a public one
// would have to ask that the closure may be called.
fn of_line<E>(line: usize, failure: Failure<E>) -> Unread<E>
    ensures { result ≡ of_line line failure }
{
    match failure {
        Failure::Because(expected) => Failure::Because(BadLine { line, expected }),
        Failure::Memory => Failure::Memory,
    }
}

// A script's scenarios, or its first bad line.
pub fn parse<L: Language>(heap: Global, text: &str) -> Result<Vec<L::Scenario>, Unread<L::Expected>>
    ensures { Parsed L.plan L.add text.now result }
{
    let mut scenarios = Vec::new(heap);
    for (i, line) in text.split('\n').enumerate() { // i up to the number of line feeds
        L::add(heap, &mut scenarios, line).map_err(|failure| of_line(i + 1, failure))?;
    }
    Ok(scenarios)
}
