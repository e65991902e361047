//! Reports: what became of the jobs and collections of each die.

ghost use Rattle.std.specs.Prelude.{◌≡◌, IfOk};
ghost use Rattle.slot_types.specs.Refusal.{FailsForMemory};
ghost use Rattle.late_cert.specs.Rows.{RowsRise};

use late_cert::{Certificate, JobRow, JobRows};
use slot_types::{Items, JobNo, Reads, Refusal, TaskNo};
use std::alloc::Global;

/// What a row of a report is about.
#[derive(Clone, Copy, PartialEq, Eq, Debug, Drop)]
pub enum RowKind {
    /// A job.
    Job,
    /// A collection that was not waived.
    Collect,
    /// A collection that was waived.
    Waived,
}

/// What became of a job or of a collection. Slots are counted from 0.
#[derive(Clone, PartialEq, Eq, Debug, Drop)]
pub struct ReportRow {
    pub row: RowKind,
    /// The number of the job or collection on its die.
    pub job: JobNo,
    pub task: TaskNo,
    pub release: u32,
    pub due: u32,
    /// How many slots carried it.
    pub work: u32,
    /// One more than the last slot that carried it, once it is done.
    pub completion: Option<u32>,
    /// How many slots the completion comes after the deadline, negative where it comes before.
    pub lateness: Option<i64>,
    /// The pages that a done or a waived collection gave its task.
    pub given: Option<u32>,
    /// What the reads of a done job gave, in their order.
    pub reads: Reads,
}

impl ReportRow {
    ghost use Rattle.report_texts.specs.JobRows.{job_row_of};

    /// The row as a certificate is checked against it; none of a collection that was waived.
    pub(crate) fn job_row(&self) -> Option<JobRow>
        ensures { result ≡ job_row_of self.now }
    {
        match self.row {
            RowKind::Job | RowKind::Collect => Some(JobRow {
                number: self.job,
                release: self.release,
                due: self.due,
                work: self.work,
                completion: self.completion,
            }),
            RowKind::Waived => None,
        }
    }
}

/// The rows of a die, by number.
pub type ReportRows = Items<ReportRow>;

/// What became of a die's jobs and collections, and the certificate of its worst lateness.
#[derive(Clone, PartialEq, Eq, Debug, Drop)]
pub struct DieReport {
    pub die: u32,
    pub rows: ReportRows,
    /// The certificate of the worst job, where something is done.
    pub cert: Option<Certificate>,
}

impl DieReport {
    ghost use Rattle.report_texts.specs.JobRows.{job_rows_of};
    ghost use Rattle.report_texts.specs.Numbering.{IsNumbered};

    /// The rows of the jobs, and of the collections that were not waived, in their order: what the die's certificate is
    /// checked against.
    ///
    /// Where the die's rows have the numbers 0, 1, 2, .., as in each report that
    /// [`ReportReader`](crate::ReportReader) gives, these rise by number, which [`check`](late_cert::check) requires. The
    /// only refusal is NoMemory.
    pub fn job_rows(&self, alloc: Global) -> Result<JobRows, Refusal>
        ensures rows { IfOk result (λ rows. rows ≡ job_rows_of self.now.rows) }
        ensures rise { IsNumbered self.now.rows → IfOk result RowsRise }
        ensures refused { FailsForMemory result }
    {
        let mut found = JobRows::new(alloc);
        for row in self.rows.as_slice() {
            if let Some(job_row) = row.job_row() {
                found.push(job_row)?;
            }
        }
        Ok(found)
    }
}

/// The dies that have rows, by number.
pub type Report = Items<DieReport>;
