//! Why a task's ask is refused.

/// Why a task's ask is refused, in the order in which the causes are looked at.
#[derive(Clone, Copy, PartialEq, Eq, Debug, Drop)]
pub enum AskRefusal {
    /// A fault of the device has stopped the die.
    DieStopped,
    UnknownTask,
    /// A job without an operation.
    EmptyJob,
    /// A job of more operations than a job may have, 64, or than the task's `work`.
    TooManyOps { most: u32 },
    /// An operation on a page that the die doesn't have: the first such.
    BadPage { page: u32 },
    /// A job of more writes than the task's `writes`.
    TooManyWrites { most: u32 },
    /// With what the task asked for in its last period it would be more than its `work` or its `writes`: the first slot
    /// in which it isn't, if the task asks for nothing else before. It counts from the start of the present life, also
    /// where it lies in a later one.
    TooSoon { next: u64 },
    /// The job would be due after the last slot of the die's life.
    LifeEnd,
}
