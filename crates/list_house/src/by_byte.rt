// The lists by their kind byte.
ghost use Rattle.std.specs.Prelude.{◌≡◌};
ghost use Rattle.list_house.specs.mirror.Rows.{asked_rows, kept_rows};

use crate::tables::{Rows, report_rows, rows, stored_report_rows, stored_rows};

// The kind byte of a report; every other has the rows of a statement.
// Kept: a number, since it is a byte of an image, and `asked_rows` and `kept_rows` answer for each byte.
pub const REPORT: usize = 2;

// The rows of the list that files are asked to keep to.
pub fn rows_of(kind: usize) -> Rows
    ensures { result ≡ asked_rows kind }
{
    if kind == REPORT {
        return report_rows();
    }
    rows()
}

// The rows of the list that stored images keep to.
pub fn kept_rows_of(kind: usize) -> Rows
    ensures { result ≡ kept_rows kind }
{
    if kind == REPORT {
        return stored_report_rows();
    }
    stored_rows()
}
