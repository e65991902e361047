//! What became of the jobs and collections of a die.

ghost use Rattle.std.specs.Prelude.{◌≡◌, IfOk};
ghost use Rattle.slot_types.specs.Refusal.{FailsForMemory};
ghost use Rattle.flashplan_run_figures.specs.Ends.{AreEndCounts, how_many, is_of, late_by, lateness_in};
ghost use Rattle.flashplan_run_figures.specs.Ranks.{IsRising};

use slot_types::Refusal;
use std::alloc::Global;

/// What became of a job or a collection that was asked for.
#[derive(Clone, Copy, PartialEq, Eq, Debug, Drop)]
pub enum Ended {
    Waiting {
        /// Whether it can't be done in time any more: its deadline isn't after the slots that were carried out.
        late: bool,
    },
    Done {
        lateness: i64,
    },
    Waived,
    /// It wasn't accepted.
    Refused,
}

/// A job or a collection that a task asked for, and what became of it.
#[derive(Clone, Copy, PartialEq, Eq, Debug, Drop)]
pub struct JobEnd {
    pub task: u32,
    pub collects: bool,
    pub ended: Ended,
}

/// How many jobs and collections came to what.
#[derive(Clone, Copy, PartialEq, Eq, Debug, Drop)]
pub struct EndCounts {
    /// Jobs.
    pub done: u32,
    pub waiting: u32,
    pub refused: u32,
    /// Jobs that were done late, or wait past their deadline.
    pub late: u32,
    /// Collections.
    pub collected: u32,
    pub waived: u32,
    pub collecting: u32,
    pub uncollected: u32,
}

/// What is counted of jobs and collections.
#[derive(Clone, Copy, Drop)]
enum Kind {
    DoneJob,
    WaitingJob,
    RefusedJob,
    /// Done after its deadline, or waiting past it.
    LateJob,
    DoneCollection,
    WaivedCollection,
    WaitingCollection,
    RefusedCollection,
}

impl Kind {
    ghost use Rattle.flashplan_run_figures.specs.Ends.{is_kind};

    /// Whether an end is of this kind.
    fn has(self, end: &JobEnd) -> bool
        ensures { result ≡ is_kind self end.now }
    {
        match (self, end.ended) {
            (Kind::DoneJob, Ended::Done { .. }) => !end.collects,
            (Kind::RefusedJob, Ended::Refused) => !end.collects,
            (Kind::WaitingJob, Ended::Waiting { .. }) => !end.collects,
            (Kind::LateJob, Ended::Waiting { late }) => !end.collects && late,
            (Kind::LateJob, Ended::Done { lateness }) => !end.collects && lateness > 0,
            (Kind::DoneCollection, Ended::Done { .. }) => end.collects,
            (Kind::WaivedCollection, Ended::Waived) => end.collects,
            (Kind::WaitingCollection, Ended::Waiting { .. }) => end.collects,
            (Kind::RefusedCollection, Ended::Refused) => end.collects,
            _ => false,
        }
    }
}

/// Whether an end is one of a task, or of any.
fn is_of(end: &JobEnd, task: Option<u32>) -> bool
    ensures { result ≡ is_of task end.now }
{
    match task {
        None => true,
        Some(task) => end.task == task,
    }
}

/// How many ends of a task, or of all tasks, are of a kind.
fn how_many(ends: &[JobEnd], task: Option<u32>, kind: Kind) -> u32
    ensures { result ≡ how_many task kind ends.now }
{
    let mut count: u32 = 0;
    for end in ends {
        if is_of(end, task) && kind.has(end) {
            count = count.saturating_add(1);
        }
    }
    count
}

/// How many jobs and collections of a task, or of all tasks, came to what.
pub(crate) fn counts_of(ends: &[JobEnd], task: Option<u32>) -> EndCounts
    ensures { AreEndCounts task ends.now result }
{
    EndCounts {
        done: how_many(ends, task, Kind::DoneJob),
        waiting: how_many(ends, task, Kind::WaitingJob),
        refused: how_many(ends, task, Kind::RefusedJob),
        late: how_many(ends, task, Kind::LateJob),
        collected: how_many(ends, task, Kind::DoneCollection),
        waived: how_many(ends, task, Kind::WaivedCollection),
        collecting: how_many(ends, task, Kind::WaitingCollection),
        uncollected: how_many(ends, task, Kind::RefusedCollection),
    }
}

/// How late a job of a task was done, or of any task; none of a collection, of a job that isn't done, or of another task.
fn late_by(end: &JobEnd, task: Option<u32>) -> Option<i64>
    ensures { result ≡ late_by task end.now }
{
    if end.collects || !is_of(end, task) {
        return None;
    }
    match end.ended {
        Ended::Done { lateness } => Some(lateness),
        _ => None,
    }
}

/// How late the done jobs of a task were, or of all tasks, in their order. The only refusal is NoMemory.
fn lateness_in(alloc: Global, ends: &[JobEnd], task: Option<u32>) -> Result<Vec<i64>, Refusal>
    ensures is { IfOk result (λ found. found.items ≡ lateness_in task ends.now) }
    ensures refused { FailsForMemory result }
{
    let mut found = Vec::new(alloc);
    for end in ends {
        if let Some(lateness) = late_by(end, task) {
            found.push(lateness)?;
        }
    }
    Ok(found)
}

/// How late the done jobs of a task were, or of all tasks: rising. The only refusal is NoMemory.
pub(crate) fn rising_of(
    alloc: Global,
    ends: &[JobEnd],
    task: Option<u32>,
) -> Result<Vec<i64>, Refusal>
    ensures is { IfOk result (λ found. IsRising (lateness_in task ends.now) found.items) }
    ensures refused { FailsForMemory result }
{
    let mut found = lateness_in(alloc, ends, task)?;
    found.sort()?;
    Ok(found)
}
