ghost use Rattle.std.specs.Prelude.{Some};
ghost use Rattle.storescript.specs.Texts.{expected_text};

use std::fmt;

// What a bad line should have had.
#[derive(Clone, Copy, Debug, PartialEq, Eq)]
pub enum Expected {
    CommandName,
    StackFirst,
    StackWords,
    Blocks,
    BenchOnly,
    Fuse,
    Choice,
    RestartWords,
    FlushWords,
    ReadWords,
    WriteWords,
    Block,
    Value,
}

// Why a script was not read.
pub type Unread = languages::Unread<Expected>;

// What was expected, in the words of the language's own description.
impl fmt::Display for Expected {
    ghost output = { λ x. Some (expected_text x) };

    fn fmt<W: fmt::Write>(&self, f: &mut fmt::Formatter<W>) -> fmt::Result {
        let text = match self {
            Expected::CommandName =>
                "expected stack, fuses, choices, restart, flush, read or write",
            Expected::StackFirst => "expected stack before any other command",
            Expected::StackWords => "expected stack, perhaps mirror, image or bench, and BLOCKS",
            Expected::Blocks => "expected BLOCKS from 0 to 65536",
            Expected::BenchOnly =>
                "expected fuses and choices after a bench stack, before its first call",
            Expected::Fuse => "expected F from 0 to 4294967295",
            Expected::Choice => "expected C from 0 to 255",
            Expected::RestartWords => "expected restart alone",
            Expected::FlushWords => "expected flush alone",
            Expected::ReadWords => "expected read B",
            Expected::WriteWords => "expected write B V",
            Expected::Block => "expected B from 0 to 4294967295",
            Expected::Value => "expected V from 0 to 255",
        };
        f.write_str(text)
    }
}
