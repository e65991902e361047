//! What became of a job, but for the bytes of its reads.

ghost use Rattle.std.specs.Prelude.{◌≤◌};
ghost use Rattle.slot_core.specs.Outcomes.{head_in, outcome_in};
ghost use Rattle.task_outcomes.specs.Told.{told_as};
ghost use Rattle.task_outcomes.specs.Rings.{TellsDone};

use job_table::{Job, Stage};
use late_cert::lateness;
use slot_types::{JobNo, TaskNo};

/// What became of a job, but for what its reads gave.
#[derive(Clone, Copy, PartialEq, Eq, Debug, Drop)]
pub struct DoneJob {
    pub task: TaskNo,
    pub life: u64,
    pub job: JobNo,
    pub release: u64,
    pub due: u64,
    pub completion: u64,
    pub lateness: i64,
    /// How many pages they gave.
    pub reads: usize,
}

/// What became of a job of a life that began in this slot of the clock: nothing where it is a collection, or isn't done.
pub(crate) fn done_job(began: u64, number: JobNo, job: &Job) -> Option<DoneJob>
    requires early { began ≤ 2305843009213693952 }
    ensures { TellsDone job.now.reads (told_as began number (head_in job.now) (outcome_in job.now)) result }
{
    let completion = match job.stage() {
        Stage::Done { completion, .. } => completion,
        _ => return None,
    };
    if job.collects() {
        return None;
    }
    Some(DoneJob {
        task: job.task(),
        life: began,
        job: number,
        release: began + u64::from(job.release()),
        due: began + u64::from(job.due()),
        completion: began + u64::from(completion),
        lateness: lateness(completion, job.due()),
        reads: job.reads().len(),
    })
}
