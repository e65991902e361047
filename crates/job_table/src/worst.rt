//! Who was done with the greatest lateness.

ghost use Rattle.std.specs.Prelude.{◌≡◌, MatchOption};
ghost use Rattle.job_table.specs.Worst.{is_worse, IsWorst, IsDoneAt, IsWorstBeside, NothingDoneBeside};

use crate::flat_jobs::FlatJobs;
use crate::jobs::Job;
use slot_types::JobNo;

/// The worst, where one has just been done and the others' worst is known.
pub(crate) fn worse_of(jobs: &FlatJobs, worst: Option<u32>, number: u32) -> u32
    requires done { IsDoneAt jobs.now.jobs number }
    requires others { MatchOption worst (NothingDoneBeside jobs.now.jobs number)
        (IsWorstBeside jobs.now.jobs number) }
    ensures { IsWorst jobs.now.jobs result }
{
    match worst {
        Some(other) => {
            if is_worse(
                number,
                &jobs.at(JobNo(number)),
                other,
                &jobs.at(JobNo(other)),
            ) {
                number
            } else {
                other
            }
        }
        None => number,
    }
}

/// Whether a done job is worse than another.
fn is_worse(number: u32, job: &Job, other_number: u32, other: &Job) -> bool
    ensures { result ≡ is_worse number job.now other_number other.now }
{
    let lateness = job.lateness();
    let other_lateness = other.lateness();
    if lateness != other_lateness {
        return lateness > other_lateness;
    }
    let completion = job.completion();
    let other_completion = other.completion();
    completion < other_completion || completion == other_completion && number < other_number
}
