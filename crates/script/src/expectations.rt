ghost use Rattle.std.specs.Prelude.{Some};
ghost use Rattle.script.specs.Texts.{expected_text};

use std::fmt;

// What a bad line should have had.
#[derive(Clone, Copy)]
pub enum Expected {
    ScenarioFirst,
    // Of a scenario's commands, by what it is of.
    CommandName,
    CardCommandName,
    ReservoirWords,
    StackWords,
    KindWords,
    FormatWords,
    InsertWords,
    EventWords,
    SlotWords,
    ReportWords,
    Alone,
    Size,
    LogBlocks,
    Seed,
    Blocks,
    Fuse,
    Choice,
    Second,
    Satellite,
    Offset,
    Slot,
    // Where in its scenario a line stands.
    BenchOnly,
    BeforeFormat,
    FormatFirst,
    CloseFirst,
    CardLast,
}

// Why a script was not read.
pub type Unread = languages::Unread<Expected>;

// What was expected, in the words of the language's own description.
impl fmt::Display for Expected {
    ghost output = { λ x. Some (expected_text x) };

    fn fmt<W: fmt::Write>(&self, f: &mut fmt::Formatter<W>) -> fmt::Result {
        let text = match self {
            Expected::ScenarioFirst => "expected reservoir or stack before any other command",
            Expected::CommandName => "expected reservoir, stack, insert, slot or report",
            Expected::CardCommandName =>
                "expected reservoir, stack, fuses, choices, kind, format, mount, wake, insert, commit, refresh, slot, close, report or card",
            Expected::ReservoirWords => "expected reservoir M SEED",
            Expected::StackWords =>
                "expected stack image BLOCKS, stack mirror image BLOCKS or stack mirror bench BLOCKS",
            Expected::KindWords => "expected kind offset or kind event",
            Expected::FormatWords => "expected format M LOG SEED",
            Expected::InsertWords => "expected insert SECOND SATELLITE OFFSET",
            Expected::EventWords =>
                "expected insert SECOND lost SATELLITE, insert SECOND gained SATELLITE or insert SECOND holdover",
            Expected::SlotWords => "expected slot I",
            Expected::ReportWords => "expected report alone",
            Expected::Alone => "expected no word after this one",
            Expected::Size => "expected M from 0 to 65535",
            Expected::LogBlocks => "expected LOG from 0 to 255",
            Expected::Seed => "expected SEED below 2^64, decimal or hex after 0x",
            Expected::Blocks => "expected BLOCKS from 0 to 65536",
            Expected::Fuse => "expected F from 0 to 4294967295",
            Expected::Choice => "expected C from 0 to 255",
            Expected::Second => "expected SECOND from 0 to 4294967295",
            Expected::Satellite => "expected SATELLITE from 0 to 4294967295",
            Expected::Offset => "expected OFFSET from -2147483648 to 2147483647",
            Expected::Slot => "expected I from 0 to 65535",
            Expected::BenchOnly => "expected fuses and choices of a bench alone",
            Expected::BeforeFormat => "expected fuses, choices and kind before the first format",
            Expected::FormatFirst => "expected format before any call or report",
            Expected::CloseFirst => "expected close before a further format",
            Expected::CardLast => "expected reservoir or stack after card",
        };
        f.write_str(text)
    }
}
