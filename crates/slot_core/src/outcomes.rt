//! What became of the jobs and collections of a die, and who of them is worst.

ghost use Rattle.std.specs.Prelude.{◌≡◌, ◌↔◌, ◌⊎◌, [], Some, None, IsOk, IfOk, IfErr};
ghost use Rattle.slot_types.specs.Refusal.{FailsForMemory};
ghost use Rattle.die_log.specs.Model.Log.{job_at};
ghost use Rattle.slot_core.specs.Outcomes.{reads_given, outcome_in, outcome_at, head_in, head_at, worst_of, worst_as};

use crate::die_core::DieCore;
use flash_die::Nand;
use job_table::{Job, Stage};
use late_cert::lateness;
use slot_types::{JobHead, JobNo, PageData, Reads, Refusal};
use std::alloc::Global;

/// What became of a job or a collection.
#[derive(Clone, PartialEq, Eq, Debug, Drop)]
pub enum Outcome {
    /// It is neither done nor waived.
    Waiting,
    /// It is done: `completion` is 1 + its last slot, and `lateness` how many slots that is after its deadline,
    /// negative where it is before. `given` counts the pages that a collection gave its task, 0 for a job, and `reads`
    /// has what a job's reads gave, in order.
    Done {
        completion: u32,
        lateness: i64,
        given: u32,
        reads: Reads,
    },
    /// It is a collection that was waived, and gave its task `given` pages.
    Waived {
        given: u32,
    },
}

/// The done job or collection with the greatest lateness.
#[derive(Clone, Copy, PartialEq, Eq, Debug, Drop)]
pub struct Worst {
    pub job: JobNo,
    /// Its completion minus its deadline; negative where it was early.
    pub lateness: i64,
}

/// A copy of what reads gave; of nothing it takes no memory.
fn copy_of(alloc: Global, reads: &[PageData]) -> Result<Reads, Refusal>
    ensures ok { IfOk result (λ copy. copy ≡ reads.now) }
    ensures nothing { reads.now ≡ [] → IsOk result }
    ensures refused { FailsForMemory result }
{
    if reads.is_empty() {
        return Ok(Reads::new(alloc));
    }
    match Vec::from_slice(alloc, reads) {
        Ok(items) => Ok(Reads::from_vec(items)),
        Err(_) => Err(Refusal::NoMemory),
    }
}

/// What became of a job, with a copy of what its reads gave.
pub(crate) fn outcome_in(alloc: Global, job: &Job) -> Result<Outcome, Refusal>
    ensures ok { IfOk result (λ outcome. outcome ≡ outcome_in job.now) }
    ensures nothing { reads_given (outcome_in job.now) ≡ [] → IsOk result }
    ensures refused { FailsForMemory result }
{
    match job.stage() {
        Stage::Pending => Ok(Outcome::Waiting),
        Stage::Waived { given } => Ok(Outcome::Waived { given }),
        Stage::Done { completion, given } => match copy_of(alloc, job.reads()) {
            Ok(reads) => Ok(Outcome::Done {
                completion,
                lateness: lateness(completion, job.due()),
                given,
                reads,
            }),
            Err(refusal) => Err(refusal),
        },
    }
}

/// What a job was accepted with.
pub(crate) fn head_in(job: &Job) -> JobHead
    ensures { result ≡ head_in job.now }
{
    JobHead {
        collects: job.collects(),
        task: job.task(),
        release: job.release(),
        due: job.due(),
    }
}

/// A number with its lateness.
fn worst_as(found: (JobNo, i64)) -> Worst
    ensures { result ≡ worst_as found.0 found.1 }
{
    let (job, lateness) = found;
    Worst { job, lateness }
}

impl<N: Nand> DieCore<N> {
    /// What became of the job or collection of a number, by the log.
    ///
    /// `UnknownJob` where the log has none of that number; else `NoMemory` where it is done and memory is refused for
    /// what its reads gave. Where no read gave anything (it waits, was waived, is a collection, or only wrote), no
    /// memory is taken.
    pub fn outcome(&self, alloc: Global, job: JobNo) -> Result<Outcome, Refusal>
        ensures ok { IfOk result (λ outcome.
            outcome_at self.now.start self.now.log job ≡ Some outcome) }
        ensures unknown { (result ≡ Err Refusal.UnknownJob) ↔ (job_at self.now.log job ≡ None) }
        ensures nothing { (outcome : Outcome)
            → outcome_at self.now.start self.now.log job ≡ Some outcome
            → reads_given outcome ≡ [] → IsOk result }
        ensures refused { IfErr result (λ refusal.
            (refusal ≡ Refusal.UnknownJob) ⊎ (refusal ≡ Refusal.NoMemory)) }
    {
        match self.table.job(job) {
            None => Err(Refusal::UnknownJob),
            Some(kept) => outcome_in(alloc, &kept),
        }
    }

    /// What the job or collection of a number was accepted with. `UnknownJob` where the log has none of that number.
    pub fn job(&self, number: JobNo) -> Result<JobHead, Refusal>
        ensures ok { IfOk result (λ head. head_at self.now.log number ≡ Some head) }
        ensures unknown { (result ≡ Err Refusal.UnknownJob) ↔ (job_at self.now.log number ≡ None) }
        ensures refused { IfErr result (λ refusal. refusal ≡ Refusal.UnknownJob) }
    {
        match self.table.job(number) {
            None => Err(Refusal::UnknownJob),
            Some(kept) => Ok(head_in(&kept)),
        }
    }

    /// The done job or collection with the greatest lateness, of equal ones the one completed first, or none where
    /// nothing is done. The die keeps it, so this takes the same short time however long the log is.
    pub fn worst(&self) -> Option<Worst>
        ensures { result ≡ worst_of self.now.start.plan self.now.log }
    {
        match self.table.worst() {
            Some(found) => Some(worst_as(found)),
            None => None,
        }
    }
}
