//! Why calls of ports are refused.

use ongoing_die::{AskAtStop, AskStop, SlotStop};

/// Why a task's ask is refused.
#[derive(Clone, Copy, PartialEq, Eq, Debug, Drop)]
pub enum AskRefused {
    /// An operation is on a page that the port may not use: the first such. Nobody else is asked.
    ForeignPage { page: u32 },
    /// As 4,294,967,295 requests were granted since the die was opened, the lock takes no more.
    LockFull,
    /// The die refuses it.
    Die(AskStop),
}

/// Why a task's ask for a slot of the clock is refused.
#[derive(Clone, Copy, PartialEq, Eq, Debug, Drop)]
pub enum AskAtRefused {
    /// An operation is on a page that the port may not use: the first such. Nobody else is asked.
    ForeignPage { page: u32 },
    /// As 4,294,967,295 requests were granted since the die was opened, the lock takes no more.
    LockFull,
    /// The die refuses it.
    Die(AskAtStop),
}

/// Why a task's outcome isn't taken.
#[derive(Clone, Copy, PartialEq, Eq, Debug, Drop)]
pub enum OutcomeRefused {
    /// Memory is refused for what the reads of its job gave. It stays the first.
    NoMemory,
    /// As 4,294,967,295 requests were granted since the die was opened, the lock takes no more.
    LockFull,
}

/// Why a slot isn't carried out.
#[derive(Clone, Copy, PartialEq, Eq, Debug, Drop)]
pub enum SlotRefused {
    /// As 4,294,967,295 requests were granted since the die was opened, the lock takes no more.
    LockFull,
    /// The die doesn't carry it out.
    Die(SlotStop),
}
