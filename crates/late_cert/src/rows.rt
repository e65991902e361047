//! What is known of jobs and collections.

ghost use Rattle.std.specs.Prelude.{◌≡◌, ◌↔◌, IsTrue};
ghost use Rattle.late_cert.specs.Rows.{RowsRise};
ghost use Rattle.late_cert.specs.Schedule.{lateness_of};

use slot_types::{Items, JobNo};

/// What is known of a job or of a collection. Slots are counted from 0.
#[derive(Clone, Copy, PartialEq, Eq, Debug, Drop)]
pub struct JobRow {
    pub number: JobNo,
    /// The first slot that may carry it.
    pub release: u32,
    /// Its deadline: the slot before which it should be done.
    pub due: u32,
    /// How many slots carried it so far.
    pub work: u32,
    /// One more than the last slot that carried it, once it is done.
    pub completion: Option<u32>,
}

/// Rows of jobs and collections. A collection that was waived has none.
pub type JobRows = Items<JobRow>;

/// How many slots a completion comes after a deadline; negative where it comes before.
pub fn lateness(completion: u32, due: u32) -> i64
    ensures { result ≡ lateness_of completion due }
{
    i64::from(completion) - i64::from(due)
}

/// Whether each row's number is above that of the row before, as [`check`](crate::check) and
/// [`build`](crate::build) require.
pub fn rows_rise(rows: &JobRows) -> bool
    ensures { IsTrue result ↔ RowsRise rows.now }
{
    numbers_rise(rows.as_slice())
}

fn numbers_rise(rows: &[JobRow]) -> bool
    ensures { IsTrue result ↔ RowsRise rows.now }
{
    for i in 1..rows.len() {
        if rows[i].number <= rows[i - 1].number {
            return false;
        }
    }
    true
}
