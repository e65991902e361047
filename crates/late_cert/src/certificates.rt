//! Certificates.

use slot_types::{Items, JobNo};

/// Numbers of jobs and collections.
pub type JobList = Items<JobNo>;

/// Jobs that fill the slots from a start to a completion. [`check`](crate::check) says whether they do.
#[derive(Clone, PartialEq, Eq, Debug, Drop)]
pub struct Certificate {
    /// The job whose lateness is certified. What a certificate says of schedules doesn't depend on it.
    pub job: JobNo,
    /// The first of the slots that the jobs fill.
    pub start: u32,
    /// The job's deadline. None of the jobs is due later.
    pub due: u32,
    /// The job's completion: one more than the last of the slots that the jobs fill.
    pub completion: u32,
    /// The jobs, in rising order.
    pub jobs: JobList,
}
