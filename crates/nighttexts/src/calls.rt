ghost use Rattle.std.specs.Prelude.{◌≡◌, ◌++◌, string_bytes, IfOk};
ghost use Rattle.nighttexts.specs.Lines.{call_name, call_line};

use crate::kinds::Worded;
use faults::FaultNumbers;
use ledgers::{Answer, Call};
use std::alloc::AllocError;

// A call's first word.
pub(crate) fn name<K>(call: &Call<K>) -> &'static str
    ensures { result.now ≡ call_name call.now }
{
    match call {
        Call::Mount => "mount",
        Call::Wake => "wake",
        Call::Insert(_) => "insert",
        Call::Commit => "commit",
        Call::Refresh => "refresh",
        Call::Slot(_) => "slot",
        Call::Close => "close",
    }
}

// A call's line with its answer.
pub(crate) fn write_call<K: Worded>(
    out: &mut String,
    call: &Call<K>,
    answer: &Answer<K>,
) -> Result<(), AllocError>
    ensures { IfOk result (λ _. string_bytes out.new ≡ string_bytes out.old ++ call_line K.words call.now answer.now) }
{
    let name = name(call);
    match answer {
        Answer::Mounted(count) | Answer::Committed(count) => writeln!(out, "{name} ok {count}"),
        Answer::Refreshed(blocks) => writeln!(out, "{name} ok {blocks}"),
        Answer::Inserted(Some(slot)) => writeln!(out, "{name} ok {slot}"),
        Answer::Inserted(None) => writeln!(out, "{name} ok none"),
        Answer::Woken | Answer::Closed => writeln!(out, "{name} ok"),
        Answer::Found(record) => {
            write!(out, "{name} ok ")?;
            record.write_words(out)?;
            out.push_str("\n")
        }
        Answer::Refused(fault) => writeln!(out, "{name} refused {}", FaultNumbers(*fault)),
        Answer::OutOfTurn => writeln!(out, "{name} out of turn"),
    }
}
