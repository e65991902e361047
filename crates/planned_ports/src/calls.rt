//! What ports ask of a die, and what they are answered.

use ongoing_die::{AskAtStop, AskKind, AskStop, SlotStop, Taken};
use slot_types::{OpList, SlotReply, TaskNo};
use task_outcomes::TaskOutcome;

/// What a port asks of the die.
#[derive(Drop)]
pub enum Request {
    /// A job or a burst of the task, with these operations.
    Ask {
        kind: AskKind,
        task: TaskNo,
        ops: OpList,
    },
    /// A job or a burst of the task that is released in slot `at` of the clock, with these operations.
    AskAt {
        kind: AskKind,
        task: TaskNo,
        ops: OpList,
        at: u64,
    },
    /// The present slot.
    Slot,
    /// The first outcome that the task has to take.
    Outcome {
        task: TaskNo,
    },
}

/// What may be asked of a die in its turn, and changes nothing.
#[derive(Drop)]
pub enum Query {
    /// The present slot of the clock of all lives.
    Clock,
    /// How many outcomes the task has to take.
    Outcomes { task: TaskNo },
    /// How many outcomes of the task were dropped.
    Dropped { task: TaskNo },
}

/// What an ask is for, without its operations.
#[derive(Clone, Copy, PartialEq, Eq, Debug, Drop)]
pub struct AskHead {
    pub kind: AskKind,
    pub task: TaskNo,
    /// The slot of the clock that it is for; none where it is for the present one.
    pub at: Option<u64>,
}

/// What is answered to a request that isn't refused.
#[derive(Drop)]
pub enum Granted {
    /// The job or the burst enters, or waits for the next life.
    Job(Taken),
    /// The slot is carried out.
    Slot(SlotReply),
    /// The outcome is taken.
    Outcome(TaskOutcome),
}

/// Why a request is refused.
#[derive(Clone, Copy, PartialEq, Eq, Debug, Drop)]
pub enum Refused {
    /// The die refuses the ask.
    Ask(AskStop),
    /// The die refuses the ask for a slot of the clock.
    AskAt(AskAtStop),
    /// The die doesn't carry the slot out.
    Slot(SlotStop),
    /// The task has no outcome to take.
    NoOutcome,
    /// Memory is refused for what the reads of the outcome's job gave.
    NoMemory,
    /// 4,294,967,295 requests were granted since the ports were opened, and the lock takes no more. The die is as it was:
    /// once it is closed, it can be opened again.
    LockFull,
}
