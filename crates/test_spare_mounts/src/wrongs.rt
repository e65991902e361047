//! What may be wrong with the lives of a die.

use device_mount::MountRefusal;
use slot_types::Refusal;
use std::alloc::{AllocError, AllocFailed};

/// What was wrong first.
#[derive(Clone, Copy, PartialEq, Eq, Debug, Drop)]
pub(crate) enum Wrong {
    Memory,
    Refused(Refusal),
    /// No table was made, though the power stayed.
    Table(Refusal),
    /// No die was mounted, though the power stayed.
    Mount(MountRefusal),
    /// A read gave bytes that the page may not have.
    Read { page: u32 },
    /// A slot was refused, and the power stayed.
    Slot,
    /// What is to be shown came up too seldom.
    Rare,
}

impl From<AllocError> for Wrong {
    fn from(_: AllocError) -> Self {
        Wrong::Memory
    }
}

impl<T: Drop> From<AllocFailed<T>> for Wrong {
    fn from(_: AllocFailed<T>) -> Self {
        Wrong::Memory
    }
}

impl From<Refusal> for Wrong {
    fn from(refusal: Refusal) -> Self {
        Wrong::Refused(refusal)
    }
}
