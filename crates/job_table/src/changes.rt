//! Changes of the jobs, and of the marks by task.

ghost use Rattle.std.specs.Prelude.{◌≡◌, ◌<◌, true, length, slice_get};
ghost use Rattle.job_table.specs.Jobs.{with_stage};
ghost use Rattle.job_table.specs.Table.{changed_at};
ghost use Rattle.job_table.specs.Entering.{marks_with};
ghost use Rattle.job_table.specs.Waivers.{AreWaived, without_waivers};
ghost use Rattle.job_table.specs.SoundTable.{AreOfTasks, marks_after};

use crate::flat_jobs::FlatJobs;
use crate::jobs::Job;
use crate::stages::Stage;
use slot_types::{JobHead, JobNo, Waived};

/// A job is over. If it is a collection, its task has no pending one any more.
pub(crate) fn end_job(jobs: &mut FlatJobs, collecting: &mut Vec<bool>, number: JobNo, stage: Stage)
    requires number { number < length jobs.old.jobs }
    requires tasks { AreOfTasks jobs.old.jobs (length collecting.old.items) }
    ensures jobs { jobs.new
        ≡ record jobs.old { jobs = changed_at jobs.old.jobs number (with_stage stage) } }
    ensures marks { collecting.new.items
        ≡ marks_after (slice_get jobs.old.jobs number) collecting.old.items }
{
    unmark(collecting, &jobs.at(number));
    jobs.set_stage(number, stage);
}

/// The task of a collection has no pending one any more.
fn unmark(collecting: &mut Vec<bool>, job: &Job)
    requires { job.now.collects ≡ true → job.now.task < length collecting.old.items }
    ensures { collecting.new.items ≡ marks_after (Some job.now) collecting.old.items }
{
    if job.collects() {
        collecting[job.task().0 as usize] = false;
    }
}

/// If a collection was accepted, its task has a pending one.
pub(crate) fn mark(collecting: &mut Vec<bool>, head: JobHead)
    requires { head.collects ≡ true → head.task < length collecting.old.items }
    ensures { collecting.new.items ≡ marks_with head collecting.old.items }
{
    if head.collects {
        collecting[head.task.0 as usize] = true;
    }
}

/// Takes waivers back.
pub(crate) fn take_back(jobs: &mut FlatJobs, waived: &[Waived])
    requires { AreWaived jobs.old.jobs waived.now }
    ensures { jobs.new
        ≡ record jobs.old { jobs = without_waivers jobs.old.jobs waived.now } }
{
    for w in waived {
        jobs.set_stage(w.number, Stage::Pending);
    }
}
