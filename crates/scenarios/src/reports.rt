ghost use Rattle.std.specs.Prelude.{◌≡◌, ◌≤◌, map, length, IfOk, Ok, vec_len};
ghost use Rattle.script.specs.declared.commands.Command.TheVariants.{Report as Asked};
ghost use Rattle.scenarios.specs.Replies.{sample_rows, sum_of};
ghost use Rattle.scenarios.specs.Answering.{Replied, OfFields, row_of, said};
ghost use Rattle.scenarios.specs.declared.answers.Answer.TheVariants.{Told};

use crate::answers::{Report, Row};
use crate::sessions::Session;
use std::alloc::AllocError;

// The exact sum of the nanoseconds; 672 of them cannot overflow it.
fn sum(rows: &[Row]) -> i64
    requires { length rows.now ≤ 672 }
    ensures { result ≡ sum_of (map row_of rows.now) }
{
    rows.iter()
        .map(|row| i64::from(row.offset.nanoseconds.value()))
        .sum()
}

impl Session {
    // The filled slots, ascending.
    fn rows(&self) -> Result<Vec<Row>, AllocError>
        ensures value { OfFields self.now.sample (λ seed size xs. IfOk result (λ v. map row_of v.items ≡ sample_rows seed size xs)) }
        ensures bound { IfOk result (λ v. vec_len v ≤ 672) }
    {
        (0..self.sample.size()) // slot up to size - 1
            .filter_map(|slot| {
                let offset = self.sample.slot(slot).ok()?;
                Some(Row { slot, offset })
            })
            .collect(self.heap)
    }

    // The sample as it stands.
    pub(crate) fn report(&self) -> Result<Report, AllocError>
        ensures { IfOk result (λ t. Replied Asked self.now.sample self.now.sample (said (Ok (Told t)))) }
    {
        let rows = self.rows()?;
        let sum = sum(rows.as_slice());
        Ok(Report {
            count: self.sample.count(),
            rows,
            sum,
        })
    }
}
