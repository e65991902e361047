//! Why a call of a die with two steps is refused.

use slot_core::{CheckpointRefusal, RenewalRefusal};
use slot_types::Refusal;

/// Why a call is refused.
#[derive(Clone, Copy, PartialEq, Eq, Debug, Drop)]
pub enum StepRefusal {
    /// As a die refuses it.
    Die(Refusal),
    /// A slot has begun and is to be ended first.
    Begun,
    /// No slot has begun.
    NotBegun,
    /// A checkpoint stands from which the die was resumed, and the slot would spend it.
    CheckpointStands,
}

/// Why a die isn't renewed.
#[derive(Clone, Copy, PartialEq, Eq, Debug, Drop)]
pub enum StepRenewalRefusal {
    /// As a die refuses it.
    Die(RenewalRefusal),
    /// A slot has begun and is to be ended first.
    Begun,
}

/// Why no checkpoint is taken.
#[derive(Clone, Copy, PartialEq, Eq, Debug, Drop)]
pub enum StepCheckpointRefusal {
    /// As a die refuses it.
    Die(CheckpointRefusal),
    /// A slot has begun and is to be ended first.
    Begun,
}
