//! What may be wrong with a die on a part whose blocks fail.

use planned_die::{AskRefusal, PlanRefusal};
use slot_types::Refusal;
use std::alloc::{AllocError, AllocFailed};

/// What was wrong first.
#[derive(Clone, Copy, PartialEq, Eq, Debug, Drop)]
pub(crate) enum Wrong {
    Memory,
    /// The device, the die or a call of it was refused.
    Refused(Refusal),
    Plan(PlanRefusal),
    ShortLife,
    /// An ask was refused, and not for the plan.
    Ask,
    /// A read gave other bytes than the last finished write of its page.
    Read { page: u32 },
    /// Once the die has stopped, the page isn't read with its last finished write.
    Lost { page: u32 },
    /// A slot cost more than the spare blocks that it used up account for.
    Cost { spent: u64, used: u32 },
    /// A slot was answered, and the device isn't at work.
    Answered,
    /// A slot was refused, and the device is at work.
    Unanswered,
    /// A slot was refused since the part is worn out, and this many spare blocks are left.
    Early { spares: u32 },
    /// Where this call was to fail, another number of spare blocks is left.
    Spares { failing: u64, left: u32 },
    /// Where this call was to fail, the die ended otherwise.
    End { failing: u64 },
    /// What is to be shown came up too seldom.
    Rare,
}

impl From<AllocError> for Wrong {
    fn from(_: AllocError) -> Self {
        Wrong::Memory
    }
}

impl<T: Drop> From<AllocFailed<T>> for Wrong {
    fn from(_: AllocFailed<T>) -> Self {
        Wrong::Memory
    }
}

impl From<Refusal> for Wrong {
    fn from(refusal: Refusal) -> Self {
        Wrong::Refused(refusal)
    }
}

impl From<PlanRefusal> for Wrong {
    fn from(refusal: PlanRefusal) -> Self {
        Wrong::Plan(refusal)
    }
}

impl From<AskRefusal> for Wrong {
    fn from(_: AskRefusal) -> Self {
        Wrong::Ask
    }
}
