//! What a port is answered.

use ongoing_die::{AskAtStop, AskRefusal, AskStop, Taken};
use planned_ports::{AskAtRefused, AskRefused, OutcomeRefused, TaskOutcome};

/// What a port is answered, without the number of its first job, which counts all tasks' jobs.
#[derive(Clone, Copy, PartialEq, Eq, Debug, Drop)]
pub(crate) enum Heard {
    Enters { release: u64, due: u64, jobs: u32 },
    Waits { release: u64, due: u64 },
    /// An operation is on a page that isn't the port's.
    Foreign { page: u32 },
    /// The task's own part of the plan refuses it.
    Plan(AskRefusal),
    /// The slot that it is for is over.
    Past,
    /// The slot that it is for lies too far ahead.
    TooFarAhead { last: u64 },
    /// Any other refusal.
    Other(AskRefused),
}

/// What an answer says to the task.
pub(crate) fn as_heard(answer: Result<Taken, AskRefused>) -> Heard {
    match answer {
        Ok(
            Taken::Enters {
                release,
                due,
                jobs,
                ..
            },
        ) => Heard::Enters { release, due, jobs },
        Ok(Taken::Waits { release, due }) => Heard::Waits { release, due },
        Err(AskRefused::ForeignPage { page }) => Heard::Foreign { page },
        Err(AskRefused::Die(AskStop::Plan(refusal))) => Heard::Plan(refusal),
        Err(refused) => Heard::Other(refused),
    }
}

/// What an answer says to a task that asked for a slot of the clock.
pub(crate) fn as_heard_at(answer: Result<Taken, AskAtRefused>) -> Heard {
    match answer {
        Ok(taken) => as_heard(Ok(taken)),
        Err(AskAtRefused::ForeignPage { page }) => Heard::Foreign { page },
        Err(AskAtRefused::LockFull) => Heard::Other(AskRefused::LockFull),
        Err(AskAtRefused::Die(AskAtStop::Ended(stop))) => {
            Heard::Other(AskRefused::Die(AskStop::Ended(stop)))
        }
        Err(AskAtRefused::Die(AskAtStop::Past)) => Heard::Past,
        Err(AskAtRefused::Die(AskAtStop::Plan(refusal))) => Heard::Plan(refusal),
        Err(AskAtRefused::Die(AskAtStop::TooFarAhead { last })) => Heard::TooFarAhead { last },
        Err(AskAtRefused::Die(AskAtStop::WaitsAlready)) => {
            Heard::Other(AskRefused::Die(AskStop::WaitsAlready))
        }
    }
}

/// What a task hears of a job that is done: all of its outcome, but of each page that its reads gave the first byte.
#[derive(Clone, Copy, PartialEq, Eq, Debug, Drop)]
pub(crate) struct Told {
    pub(crate) task: u32,
    pub(crate) life: u64,
    pub(crate) job: u32,
    pub(crate) release: u64,
    pub(crate) due: u64,
    pub(crate) completion: u64,
    pub(crate) lateness: i64,
    /// Of its first read.
    pub(crate) byte: Option<u8>,
    /// Of its second one.
    pub(crate) next: Option<u8>,
}

/// The first byte of what a read gave.
fn byte_in(outcome: &TaskOutcome, read: usize) -> Option<u8> {
    match outcome.reads.get(read) {
        Some(page) => Some(page.0[0]),
        None => None,
    }
}

/// What an outcome tells.
fn in_short(outcome: &TaskOutcome) -> Told {
    Told {
        task: outcome.task.0,
        life: outcome.life,
        job: outcome.job.0,
        release: outcome.release,
        due: outcome.due,
        completion: outcome.completion,
        lateness: outcome.lateness,
        byte: byte_in(outcome, 0),
        next: byte_in(outcome, 1),
    }
}

/// What a port takes; none, too, where it is refused.
pub(crate) fn as_told(answer: Result<Option<TaskOutcome>, OutcomeRefused>) -> Option<Told> {
    match answer {
        Ok(Some(outcome)) => Some(in_short(&outcome)),
        _ => None,
    }
}
