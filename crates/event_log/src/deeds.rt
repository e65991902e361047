//! What an accepted call did.

ghost use Rattle.std.specs.Prelude.{◌≡◌};
ghost use Rattle.event_log.specs.Slots.{slot_by};
ghost use Rattle.event_log.specs.NoteRecords.{alike_deeds, erases_block};

use slot_types::JobNo;
use std::mem::size_of;

/// What an accepted call did. It names a job and the place of its operation, and not the bytes: those stand once, with
/// the job.
#[derive(Clone, Copy, PartialEq, Eq, Debug, Drop)]
pub enum Deed {
    /// A job was accepted under this number.
    Submit { number: JobNo },
    /// A collection was accepted under this number.
    Collect { number: JobNo },
    /// A slot passed idle.
    Idle,
    /// In a slot a job did its operation at this place, from 0, and has more to do.
    Operation { number: JobNo, place: u32 },
    /// In a slot a job did its last operation, which stands at this place.
    LastOperation { number: JobNo, place: u32 },
    /// In a slot a collection read a page into its buffer.
    CopyRead { number: JobNo, page: u32 },
    /// In a slot a collection programmed a page from its buffer.
    CopyProgram { number: JobNo, page: u32 },
    /// A collection did one slot of the erase of its block, and has more to do.
    EraseSlot { number: JobNo, block: u32 },
    /// A collection did the last slot of the erase of its block.
    LastEraseSlot { number: JobNo, block: u32 },
}

const _: () = prove!(size_of::<Deed>() == 12);

impl Deed {
    /// Whether two slots of one caller that waived nothing, and did this and that, are one record: both idle, or both in
    /// one erase, with more to come.
    pub(crate) fn is_alike(self, other: Deed) -> bool
        ensures { result ≡ alike_deeds self other }
    {
        match self {
            Deed::Idle => matches!(other, Deed::Idle),
            Deed::EraseSlot { number, block } => other.erases_block(number, block),
            _ => false,
        }
    }

    /// Whom its slot carried, or nothing where that was idle. An arrival has no slot.
    pub(crate) fn slot(&self) -> Option<Option<JobNo>>
        ensures { result ≡ slot_by self.now }
    {
        match self {
            Deed::Submit { .. } | Deed::Collect { .. } => None,
            Deed::Idle => Some(None),
            Deed::Operation { number, .. }
            | Deed::LastOperation { number, .. }
            | Deed::CopyRead { number, .. }
            | Deed::CopyProgram { number, .. }
            | Deed::EraseSlot { number, .. }
            | Deed::LastEraseSlot { number, .. } => Some(Some(*number)),
        }
    }

    /// Whether it is a slot in the erase of this block by this collection, with more to come.
    fn erases_block(self, collection: JobNo, erased: u32) -> bool
        ensures { result ≡ erases_block collection erased self }
    {
        match self {
            Deed::EraseSlot { number, block } => collection.0 == number.0 && erased == block,
            _ => false,
        }
    }
}
