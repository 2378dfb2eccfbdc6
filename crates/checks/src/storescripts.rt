use crate::looking::same;
use std::process::Abort;
use std::test::Fail;
use storeparsing::parse;
use storescript::{Call, Device, Scenario, Stack};

// A script of store calls, and the words for its bad line.
const BAD: [(&str, &str); 20] = [
    (
        "boot\n",
        "line 1: expected stack, fuses, choices, restart, flush, read or write",
    ),
    (
        "\nflush\n",
        "line 2: expected stack before any other command",
    ),
    (
        "fuses 1\n",
        "line 1: expected stack before any other command",
    ),
    ("fuses x\n", "line 1: expected F from 0 to 4294967295"),
    (
        "stack image\n",
        "line 1: expected stack, perhaps mirror, image or bench, and BLOCKS",
    ),
    (
        "stack mirror 1\n",
        "line 1: expected stack, perhaps mirror, image or bench, and BLOCKS",
    ),
    (
        "stack raid bench 1\n",
        "line 1: expected stack, perhaps mirror, image or bench, and BLOCKS",
    ),
    (
        "stack bench 65537\n",
        "line 1: expected BLOCKS from 0 to 65536",
    ),
    (
        "stack image 1\nfuses\n",
        "line 2: expected fuses and choices after a bench stack, before its first call",
    ),
    (
        "stack mirror bench 1\nrestart\nchoices 1\n",
        "line 3: expected fuses and choices after a bench stack, before its first call",
    ),
    (
        "stack bench 1\nfuses 1 4294967296\n",
        "line 2: expected F from 0 to 4294967295",
    ),
    (
        "stack bench 1\nchoices 255 256\n",
        "line 2: expected C from 0 to 255",
    ),
    (
        "stack image 1\nrestart now\n",
        "line 2: expected restart alone",
    ),
    ("stack image 1\nflush 0\n", "line 2: expected flush alone"),
    ("stack image 1\nread\n", "line 2: expected read B"),
    (
        "stack image 1\nread +1\n",
        "line 2: expected B from 0 to 4294967295",
    ),
    ("stack image 1\nwrite 0\n", "line 2: expected write B V"),
    ("write 0 1 2\n", "line 1: expected write B V"),
    (
        "stack image 1\nwrite -1 256\n",
        "line 2: expected B from 0 to 4294967295",
    ),
    (
        "stack image 1\nwrite 0 256\n",
        "line 2: expected V from 0 to 255",
    ),
];

#[test]
fn store_scripts_name_their_first_bad_line(rt: HostRuntime) -> Result<(), Fail> {
    for (case, (script, said)) in BAD.iter().enumerate() {
        let text = match parse(rt.alloc(), script) {
            Ok(_scenarios) => String::new(rt.alloc()),
            Err(unread) => format!(in rt.alloc(); "{unread}")?,
        };
        same(&rt, text.as_str(), said, case);
    }
    Ok(())
}

// A script with two scenarios.
const GOOD: &str =
    "stack mirror bench 65536 # both copies\n\nfuses 1 2\nchoices\nfuses 3\nchoices 255\nwrite 0 7\nread 4294967295\n\nstack image 0\nrestart\nflush";

// The first of them has all that a bench may be told, the second nothing.
fn read_as_written(rt: &impl Abort, first: &Scenario, second: &Scenario) {
    let stack = Stack {
        device: Device::Bench,
        mirrored: true,
        blocks: 65_536,
    };
    let write = Call::Write { block: 0, value: 7 };
    let read = Call::Read {
        block: 4_294_967_295,
    };
    same(rt, first.stack, stack, 1);
    same(rt, first.fuses.as_slice(), [1, 2, 3].as_slice(), 1);
    same(rt, first.choices.as_slice(), [255].as_slice(), 1);
    same(rt, first.calls.as_slice(), [write, read].as_slice(), 1);
    let stack = Stack {
        device: Device::Image,
        mirrored: false,
        blocks: 0,
    };
    same(rt, second.stack, stack, 2);
    same(rt, second.fuses.is_empty(), true, 2);
    same(rt, second.choices.is_empty(), true, 2);
    let calls = [Call::Restart, Call::Flush];
    same(rt, second.calls.as_slice(), calls.as_slice(), 2);
}

#[test]
fn store_scripts_are_read(rt: HostRuntime) {
    match parse(rt.alloc(), GOOD).ok().as_deref() {
        Some([first, second]) => read_as_written(&rt, first, second),
        _ => panic!(rt; "two scenarios are read"),
    }
}
