//! The work of a report: what certificates are checked against, and no more.

ghost use Rattle.std.specs.Prelude.{◌≡◌, OnOk};
ghost use Rattle.slot_types.specs.Refusal.{FailsForMemory};
ghost use Rattle.report_texts.specs.ReportWork.{no_work_on, with_work};

use crate::report_certs::{Finish, finish_in, worse_of};
use crate::reports::ReportRow;
use late_cert::{Certificate, JobRows};
use slot_types::{Items, Refusal};
use std::alloc::Global;

/// What a report says of a die's work.
#[derive(Clone, PartialEq, Eq, Debug, Drop)]
pub struct DieWork {
    pub die: u32,
    /// The rows of jobs and collections, without the waived ones, in their order.
    pub rows: JobRows,
    /// How the worst of them ended, where something is done.
    pub worst: Option<Finish>,
    /// The certificate of the worst job, where something is done.
    pub cert: Option<Certificate>,
}

/// The work of the dies that have rows, by number.
pub type ReportWork = Items<DieWork>;

impl DieWork {
    /// No work yet of a die.
    pub fn new(alloc: Global, die: u32) -> DieWork
        ensures { result ≡ no_work_on die }
    {
        DieWork {
            die,
            rows: JobRows::new(alloc),
            worst: None,
            cert: None,
        }
    }

    /// Adds one more row: a waived collection is no work. The only refusal is NoMemory.
    pub fn add(&mut self, row: &ReportRow) -> Result<(), Refusal>
        ensures ok { OnOk result (self.new ≡ with_work self.old row.now) }
        ensures refused { FailsForMemory result }
    {
        if let Some(job_row) = row.job_row() {
            self.rows.push(job_row)?;
        }
        self.worst = worse_of(self.worst, finish_in(row));
        Ok(())
    }
}
