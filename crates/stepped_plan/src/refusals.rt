//! Why a call is refused.

use ongoing_die::{AskStop, OngoingCheckpointRefusal, SlotStop};

/// Why an ask is refused.
#[derive(Clone, Copy, PartialEq, Eq, Debug, Drop)]
pub enum PlanAskStop {
    /// A slot has begun and is to be ended first: no task's doing, and not the die's.
    Begun,
    /// As a die that goes on by itself refuses it.
    Ask(AskStop),
}

/// Why a slot isn't begun, or isn't ended.
#[derive(Clone, Copy, PartialEq, Eq, Debug, Drop)]
pub enum PlanSlotStop {
    /// A slot has begun and is to be ended first.
    Begun,
    /// No slot has begun.
    NotBegun,
    /// A checkpoint stands from which the die was resumed.
    CheckpointStands,
    /// As a die that goes on by itself refuses it.
    Slot(SlotStop),
}

/// Why no checkpoint is taken.
#[derive(Clone, Copy, PartialEq, Eq, Debug, Drop)]
pub enum PlanCheckpointRefusal {
    /// As of a die that goes on by itself.
    Die(OngoingCheckpointRefusal),
    /// A slot has begun and is to be ended first.
    Begun,
}
