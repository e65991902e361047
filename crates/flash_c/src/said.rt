//! What a die is asked, as C has it.

ghost use Rattle.std.specs.Prelude.{◌≡◌};
ghost use Rattle.flash_c.specs.Conversions.{load_of, job_of, outcome_of, worst_of, overdue_as, certificate_of, done_of, row_of, row_in};

use crate::counts::{count_of, flag};
use crate::shapes::{
    FlashCertificate, FlashJob, FlashLoad, FlashOutcome, FlashOverdue, FlashRow, FlashWorst,
};
use late_cert::{Certificate, JobRow};
use plan_rules::Load;
use slot_core::{Outcome, Overdue, Worst};
use slot_types::{JobHead, JobNo};

pub(crate) fn load_of(load: Load) -> FlashLoad
    ensures { result ≡ load_of load }
{
    FlashLoad {
        demand: load.demand,
        common: load.common,
    }
}

pub(crate) fn job_of(head: JobHead) -> FlashJob
    ensures { result ≡ job_of head }
{
    FlashJob {
        collects: flag(head.collects),
        task: head.task.0,
        release: head.release,
        due: head.due,
    }
}

pub(crate) fn outcome_of(outcome: &Outcome) -> FlashOutcome
    ensures { result ≡ outcome_of outcome.now }
{
    let mut said = FlashOutcome {
        lateness: 0,
        state: 0,
        completion: 0,
        given: 0,
        reads: 0,
    };
    match outcome {
        Outcome::Waiting => {}
        Outcome::Waived { given } => {
            said.state = 2;
            said.given = *given;
        }
        Outcome::Done {
            completion,
            lateness,
            given,
            reads,
        } => {
            said.state = 1;
            said.completion = *completion;
            said.lateness = *lateness;
            said.given = *given;
            said.reads = count_of(reads.len());
        }
    }
    said
}

pub(crate) fn worst_of(worst: Worst) -> FlashWorst
    ensures { result ≡ worst_of worst }
{
    FlashWorst {
        lateness: worst.lateness,
        job: worst.job.0,
    }
}

pub(crate) fn overdue_as(overdue: Overdue) -> FlashOverdue
    ensures { result ≡ overdue_as overdue }
{
    FlashOverdue {
        late_by: overdue.late_by,
        job: overdue.job.0,
        due: overdue.due,
    }
}

pub(crate) fn certificate_of(built: &Certificate) -> FlashCertificate
    ensures { result ≡ certificate_of built.now }
{
    FlashCertificate {
        job: built.job.0,
        start: built.start,
        due: built.due,
        completion: built.completion,
        jobs: count_of(built.jobs.len()),
    }
}

/// Whether there is a completion, and which.
fn done_of(completion: Option<u32>) -> (u32, u32)
    ensures { result ≡ done_of completion }
{
    match completion {
        Some(completion) => (1, completion),
        None => (0, 0),
    }
}

pub(crate) fn row_of(row: JobRow) -> FlashRow
    ensures { result ≡ row_of row }
{
    let (done, completion) = done_of(row.completion);
    let number = row.number;
    FlashRow {
        number: number.0,
        release: row.release,
        due: row.due,
        work: row.work,
        done,
        completion,
    }
}

pub(crate) fn row_in(row: &FlashRow) -> JobRow
    ensures { result ≡ row_in row.now }
{
    JobRow {
        number: JobNo(row.number),
        release: row.release,
        due: row.due,
        work: row.work,
        completion: if row.done == 0 {
            None
        } else {
            Some(row.completion)
        },
    }
}
