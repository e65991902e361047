//! What a mount costs.

ghost use Rattle.std.specs.Prelude.{◌≡◌};
ghost use Rattle.flashplan_labelled_parts.specs.Mounts.{costs_by, took};

use die_mount::MountCall;

/// How many calls of the part a mount made.
#[derive(Clone, Copy, Drop)]
pub struct MountCosts {
    /// Labels that were read, of which each cell has one, or none.
    pub labels: u64,
    /// Pages that were read.
    pub reads: u64,
    /// Pages that were programmed.
    pub copies: u64,
    /// Slots of erases.
    pub erase_slots: u64,
    /// Erases that ended.
    pub erases: u64,
}

impl MountCosts {
    /// None.
    pub const NONE: MountCosts = MountCosts {
        labels: 0,
        reads: 0,
        copies: 0,
        erase_slots: 0,
        erases: 0,
    };

    /// How many slots these calls take at most: each is done within one.
    pub fn slots(self) -> u64
        ensures { result ≡ took self }
    {
        self.labels
            .saturating_add(self.reads)
            .saturating_add(self.copies)
            .saturating_add(self.erase_slots)
    }

    /// How many calls these are beside the labels.
    pub fn calls(self) -> u64 {
        self.reads
            .saturating_add(self.copies)
            .saturating_add(self.erase_slots)
    }

    /// By kind the greater of both.
    pub fn at_least(self, other: MountCosts) -> MountCosts {
        MountCosts {
            labels: self.labels.max(other.labels),
            reads: self.reads.max(other.reads),
            copies: self.copies.max(other.copies),
            erase_slots: self.erase_slots.max(other.erase_slots),
            erases: self.erases.max(other.erases),
        }
    }

    /// With one call of a mount more, which ends an erase or doesn't.
    pub(crate) fn with_call(self, call: MountCall, last: bool) -> MountCosts
        ensures { result ≡ costs_by call last self }
    {
        match call {
            MountCall::Read { .. } => MountCosts {
                reads: self.reads.saturating_add(1),
                ..self
            },
            MountCall::Program { .. } => MountCosts {
                copies: self.copies.saturating_add(1),
                ..self
            },
            MountCall::EraseSlot { .. } => MountCosts {
                erase_slots: self.erase_slots.saturating_add(1),
                erases: self.erases.saturating_add(u64::from(last)),
                ..self
            },
        }
    }
}
