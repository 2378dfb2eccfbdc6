ghost use Rattle.std.specs.Prelude.{◌≡◌, ◌≤◌, ◌++◌, length, vec_items, string_bytes, IfOk};
ghost use Rattle.nighttexts.specs.Reports.{ledger_line, night_rows_text, records_found, sample_text, night_report_text};

use crate::kinds::Worded;
use ledgers::{Answer, Ledger};
use std::alloc::{AllocError, Global};

// A ledger's line.
fn write_ledger<K: Copy + Drop>(out: &mut String, ledger: &Ledger<K>) -> Result<(), AllocError>
    ensures { IfOk result (λ _. string_bytes out.new ≡ string_bytes out.old ++ ledger_line ledger.now) }
{
    let counted = ledger.counted();
    let settled = ledger.settled();
    let state = if ledger.is_open() { "open" } else { "shut" };
    match ledger.waiting() {
        Some(waiting) => writeln!(
            out,
            "counted {counted} settled {settled} waiting {waiting} {state}"
        ),
        None => writeln!(
            out,
            "counted {counted} settled {settled} waiting none {state}"
        ),
    }
}

// A line for each slot in which a record was found.
fn write_rows<K: Worded>(out: &mut String, answers: &[Answer<K>]) -> Result<(), AllocError>
    ensures { IfOk result (λ _. string_bytes out.new ≡ string_bytes out.old ++ night_rows_text K.words 0 answers.now) }
{
    for (slot, answer) in answers.iter().enumerate() { // slot up to answers.len() - 1
        if let Answer::Found(record) = answer {
            write!(out, "slot {slot}: ")?;
            record.write_words(out)?;
            out.push_str("\n")?;
        }
    }
    Ok(())
}

// The records that were found.
fn records_found<K: Copy + Drop>(heap: Global, answers: &[Answer<K>]) -> Result<Vec<K>, AllocError>
    ensures { IfOk result (λ v. vec_items v ≡ records_found answers.now) }
{
    let mut records = Vec::new(heap);
    for answer in answers {
        if let Answer::Found(record) = answer {
            records.push(*record)?;
        }
    }
    Ok(records)
}

// The filled slots, and what is said of all of them.
fn write_sample<K: Worded>(
    heap: Global,
    out: &mut String,
    answers: &[Answer<K>],
) -> Result<(), AllocError>
    requires { length answers.now ≤ 65535 }
    ensures { IfOk result (λ _. string_bytes out.new ≡ string_bytes out.old ++ sample_text K.words K.summary answers.now) }
{
    let records = records_found(heap, answers)?;
    write_rows(out, answers)?;
    K::write_summary(records.as_slice(), out)
}

// The ledger, and the sample while the ledger is open and the sampler awake.
pub(crate) fn write_report<K: Worded>(
    heap: Global,
    out: &mut String,
    ledger: &Ledger<K>,
    is_awake: bool,
    answers: &[Answer<K>],
) -> Result<(), AllocError>
    requires { length answers.now ≤ 65535 }
    ensures { IfOk result (λ _. string_bytes out.new ≡ string_bytes out.old ++ night_report_text K.words K.summary ledger.now is_awake answers.now) }
{
    write_ledger(out, ledger)?;
    if ledger.is_open() && is_awake {
        write_sample(heap, out, answers)?;
    }
    Ok(())
}
