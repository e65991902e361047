//! Why no die is made that goes on by itself, and why its calls are refused.

use planned_die::{AskRefusal, PlanRefusal, PlanResumeRefusal};
use slot_core::CheckpointRefusal;

/// Why no die is made that keeps its plan and goes on by itself.
#[derive(Clone, Copy, PartialEq, Eq, Debug, Drop)]
pub enum OngoingRefusal {
    /// As no die is made that keeps its plan.
    Plan(PlanRefusal),
    /// The longest life that was allowed is shorter than the deadline of this task's jobs: the first such task.
    ShortLife { task: u32 },
}

/// Why a die takes no further ask and carries out no further slot.
#[derive(Clone, Copy, PartialEq, Eq, Debug, Drop)]
pub enum LifeStop {
    /// A fault of the device has stopped the die.
    DieStopped,
    /// The life has ended, and the clock of all lives would go beyond slot 2 to the power of 61.
    ClockEnd,
    /// The life has ended, and a block was erased so often that its count might not suffice for a life more: the first
    /// such.
    WornOut { block: u32 },
}

/// Why an ask is refused.
#[derive(Clone, Copy, PartialEq, Eq, Debug, Drop)]
pub enum AskStop {
    /// The whole die takes none.
    Ended(LifeStop),
    /// The task's own part of the plan refuses it.
    Plan(AskRefusal),
    /// An ask of the task waits already: for the next life, since its jobs would have been due after the present one, or for
    /// a slot that was asked for.
    WaitsAlready,
}

/// Why an ask for a slot of the clock is refused, in the order in which the causes are looked at.
#[derive(Clone, Copy, PartialEq, Eq, Debug, Drop)]
pub enum AskAtStop {
    /// The whole die takes none.
    Ended(LifeStop),
    /// The slot is over.
    Past,
    /// The task's own part of the plan refuses it, as at that slot.
    Plan(AskRefusal),
    /// The slot lies ahead by the task's period or more, or after the first slot of the next life: the last slot for which
    /// the task may ask now.
    TooFarAhead { last: u64 },
    /// An ask of the task waits already.
    WaitsAlready,
}

/// Why a slot isn't carried out.
#[derive(Clone, Copy, PartialEq, Eq, Debug, Drop)]
pub enum SlotStop {
    /// The die carries out none.
    Ended(LifeStop),
    /// The device fails in this slot, which stops the die.
    DeviceFault,
}

/// Why no checkpoint is taken of a die that goes on by itself, in the order in which the causes are looked at.
#[derive(Clone, Copy, PartialEq, Eq, Debug, Drop)]
pub enum OngoingCheckpointRefusal {
    /// As none is taken of a die: it can't be renewed, since a fault has stopped it, work waits or a block is worn out; or
    /// there is no memory.
    Die(CheckpointRefusal),
    /// An ask of this task waits, of the first such task.
    AskWaits { task: u32 },
}

/// Why no die that goes on by itself goes on from a checkpoint, in the order in which the causes are looked at.
#[derive(Clone, Copy, PartialEq, Eq, Debug, Drop)]
pub enum OngoingResumeRefusal {
    /// As no die goes on that keeps its plan. It has `NoMemory`, also that for what waits.
    Plan(PlanResumeRefusal),
    /// The longest life that was allowed is shorter than the deadline of this task's jobs: the first such task.
    ShortLife { task: u32 },
}

/// A device on which no die was resumed, and why.
#[derive(Drop)]
pub struct OngoingNotResumed<N> {
    pub device: N,
    pub refusal: OngoingResumeRefusal,
}
