//! The row of a number: at once where no number before it is missing, else by binary search.

ghost use Rattle.std.specs.Prelude.{◌≡◌, ◌<◌, IfSome, IfNone, None, length, slice_get};
ghost use Rattle.late_cert.specs.Rows.{RowsRise, IsNamedAt, row_of};

use crate::rows::JobRow;
use slot_types::JobNo;

// The place of a number's row, by binary search.
fn search(rows: &[JobRow], number: JobNo) -> Option<usize>
    requires { RowsRise rows.now }
    ensures inside { IfSome result (λ i. i < length rows.now) }
    ensures row { IfSome result (λ i. row_of rows.now number ≡ slice_get rows.now i) }
    ensures named { IfSome result (λ i. IsNamedAt rows.now i number) }
    ensures absent { IfNone result (row_of rows.now number ≡ None) }
{
    let mut low = 0;
    let mut high = rows.len();
    while low < high {
        let middle = low + (high - low) / 2;
        if rows[middle].number < number {
            low = middle + 1;
        } else {
            high = middle;
        }
    }
    if low < rows.len() && rows[low].number == number {
        Some(low)
    } else {
        None
    }
}

// The place of a number's row, where the rows rise by number. It is the number itself where no number below is missing.
pub(crate) fn place(rows: &[JobRow], number: JobNo) -> Option<usize>
    requires { RowsRise rows.now }
    ensures inside { IfSome result (λ i. i < length rows.now) }
    ensures row { IfSome result (λ i. row_of rows.now number ≡ slice_get rows.now i) }
    ensures named { IfSome result (λ i. IsNamedAt rows.now i number) }
    ensures absent { IfNone result (row_of rows.now number ≡ None) }
{
    let own = number.0 as usize;
    if own < rows.len() && rows[own].number == number {
        return Some(own);
    }
    search(rows, number)
}

// The row of a number, where the rows rise by number.
pub(crate) fn find(rows: &[JobRow], number: JobNo) -> Option<JobRow>
    requires { RowsRise rows.now }
    ensures { result ≡ row_of rows.now number }
{
    let i = place(rows, number)?;
    Some(rows[i])
}
