ghost use Rattle.std.specs.Prelude.{◌≡◌, map, Some};
ghost use Rattle.scenarios.specs.Answering.{row_of, said};
ghost use Rattle.printing.specs.Lines.{name_of, rows_text, report_text, reply_text};

use faults::{Fault, FaultNumbers};
use means::Mean;
use sampletexts::{MeanLine, OffsetNumbers, SlotLine};
use scenarios::{Answer, Report, Row};
use script::Command;
use std::fmt;

// A command's first word alone: a Display of a command would show its numbers too.
pub fn name(command: Command) -> &'static str
    ensures { result.now ≡ name_of command }
{
    match command {
        Command::Insert { .. } => "insert",
        Command::Slot(_) => "slot",
        Command::Report => "report",
    }
}

// A line for each filled slot. A loop of its own, since what is written of a row is made on the way and no slice of it
// exists.
#[derive(Drop)]
struct Rows<'a>(&'a [Row]);

impl fmt::Display for Rows<'_> {
    ghost output = { λ x. Some (rows_text (map row_of x.0.now)) };

    fn fmt<W: fmt::Write>(&self, f: &mut fmt::Formatter<W>) -> fmt::Result {
        for row in self.0 {
            let slot = usize::from(row.slot);
            let record = OffsetNumbers(row.offset);
            writeln!(f, "{}", SlotLine { slot, record })?;
        }
        Ok(())
    }
}

// The lines of a report.
#[derive(Drop)]
struct Whole<'a>(&'a Report);

impl fmt::Display for Whole<'_> {
    ghost output = { λ x. Some (report_text x.0.now.count (map row_of x.0.now.rows.items) x.0.now.sum) };

    fn fmt<W: fmt::Write>(&self, f: &mut fmt::Formatter<W>) -> fmt::Result {
        let Whole(report) = self;
        let rows = Rows(report.rows.as_slice());
        let mean = MeanLine(Mean {
            sum: report.sum,
            count: report.rows.len() as u64,
        });
        write!(f, "counted {}\n{rows}{mean}", report.count)
    }
}

// A command with its answer or refusal, as they are printed.
#[derive(Drop)]
pub struct Said<'a> {
    pub command: Command,
    pub answer: &'a Result<Answer, Fault>,
}

impl fmt::Display for Said<'_> {
    ghost output = { λ x. Some (reply_text x.command (said x.answer.now)) };

    fn fmt<W: fmt::Write>(&self, f: &mut fmt::Formatter<W>) -> fmt::Result {
        let name = name(self.command);
        match self.answer {
            Ok(Answer::Inserted(Some(slot))) => write!(f, "{name} ok {slot}"),
            Ok(Answer::Inserted(None)) => write!(f, "{name} ok none"),
            Ok(Answer::Found(offset)) => write!(f, "{name} ok {}", OffsetNumbers(*offset)),
            Ok(Answer::Told(report)) => write!(f, "{}", Whole(report)),
            Err(fault) => write!(f, "{name} refused {}", FaultNumbers(*fault)),
        }
    }
}
