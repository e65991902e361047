//! What may be wrong with a mount.

use device_mount::MountRefusal;
use slot_types::Refusal;
use std::alloc::{AllocError, AllocFailed};
use std::test::Fail;

/// What was wrong first.
#[derive(Clone, Copy, PartialEq, Eq, Debug, Drop)]
pub(crate) enum Wrong {
    /// Memory was refused, and not to a mount.
    Memory,
    Refused(Refusal),
    Mount(MountRefusal),
    /// A mount was refused for memory, and its part has changed.
    Changed,
    /// A page has other bytes than those of its last finished write.
    Read { page: u32 },
    /// What is to be shown didn't come up.
    Rare,
}

impl From<AllocError> for Wrong {
    fn from(_: AllocError) -> Self {
        Wrong::Memory
    }
}

impl<T: Drop> From<AllocFailed<T>> for Wrong {
    fn from(_: AllocFailed<T>) -> Self {
        Wrong::Memory
    }
}

impl From<Refusal> for Wrong {
    fn from(refusal: Refusal) -> Self {
        match refusal {
            Refusal::NoMemory => Wrong::Memory,
            refusal => Wrong::Refused(refusal),
        }
    }
}
