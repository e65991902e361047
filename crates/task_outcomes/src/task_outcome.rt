//! What became of a job, as it is reported to its task.

use slot_types::{JobNo, Reads, TaskNo};

/// What became of a job that is done, as it is reported to its task. Slots are those of the clock of all lives.
#[derive(Clone, PartialEq, Eq, Debug, Drop)]
pub struct TaskOutcome {
    pub task: TaskNo,
    /// The slot in which its life began.
    pub life: u64,
    /// Its number among the jobs and collections of that life.
    pub job: JobNo,
    pub release: u64,
    pub due: u64,
    /// 1 + the slot in which it was done.
    pub completion: u64,
    /// Its completion minus its deadline: 0 or less, since a die that keeps its plan is never late.
    pub lateness: i64,
    /// What its reads gave, in order.
    pub reads: Reads,
}
