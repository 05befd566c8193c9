// Rows of a table that stand for values.
ghost use Rattle.std.specs.Prelude.{Option};
ghost use Rattle.sqlite.specs.Order.{Row as Columns};
ghost use Rattle.sms_records.specs.Reading.{Gives};

use sms_records::RecordErr;
use sqlite::Row;
use std::alloc::Global;

// A value that a row of a table stands for.
pub trait TableRow: Sized + Drop {
    // What the columns of a row stand for.
    ghost meaning: { Columns → Option Self };

    // The value of the row; `Bad` exactly where it stands for nothing. Otherwise a refusal is want of memory.
    fn read_row(alloc: Global, row: &Row) -> Result<Self, RecordErr>
        ensures { Gives (λ value. value) result (meaning row.now) };
}
