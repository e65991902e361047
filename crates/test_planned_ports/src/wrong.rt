//! What goes wrong in a test.

use crate::babblers::Babble;
use ongoing_die::OngoingRefusal;
use slot_types::Refusal;
use std::alloc::AllocError;

/// What was wrong first.
#[derive(Clone, Copy, PartialEq, Eq, Debug, Drop)]
pub(crate) enum Wrong {
    Memory,
    Die(OngoingRefusal),
    NotOpened,
    NoPort,
    NotClosed(Refusal),
    /// This step of a table, from 1 on, went otherwise.
    Step { step: usize },
    /// Slots were refused.
    Slots,
    /// A task wasn't answered as the rules say: in step from this ask on, or as often.
    Heard { ask: u32 },
    /// What a babbler may ask for now and then was refused otherwise than for what it asked for before.
    Babble(Babble),
    /// Something was late in this life, or isn't done.
    Late { life: u32 },
    /// The clock of all lives is at another slot.
    Clock,
    /// Another number of operations waits for the next life.
    Waiting,
}

impl From<AllocError> for Wrong {
    fn from(_: AllocError) -> Self {
        Wrong::Memory
    }
}
