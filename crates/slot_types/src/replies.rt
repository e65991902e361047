//! What a die answers, and the entries of its log.

use crate::acts::Act;
use crate::events::Event;
use crate::items::Items;
use crate::numbers::JobNo;
use crate::pages::PageData;
use crate::refusals::Refusal;
use crate::short_items::ShortItems;

/// A collection that was waived, and the pages that it gave its task.
#[derive(Clone, Copy, PartialEq, Eq, Default, Debug, Drop)]
pub struct Waived {
    pub number: JobNo,
    pub given: u32,
}

/// The collections that were waived in one slot, in the order of their keys. A slot waives at most one a task, so a die
/// has sixteen at most.
pub type WaivedList = ShortItems<Waived>;

/// What was done in a slot.
#[derive(Clone, PartialEq, Eq, Debug, Drop)]
pub struct SlotReply {
    /// The slot's number.
    pub slot: u32,
    pub waived: WaivedList,
    /// The job or collection that had the slot, and what it did; none where the slot was idle.
    pub ran: Option<(JobNo, Act)>,
    /// The job or collection that was done with it.
    pub finished: Option<JobNo>,
}

/// The answer to an event.
#[derive(Clone, PartialEq, Eq, Debug, Drop)]
pub enum Reply {
    /// A job or a collection was accepted under this number.
    Taken(JobNo),
    /// A slot was carried out.
    Slot(SlotReply),
    /// The event was refused, and changed nothing.
    Refused(Refusal),
}

/// What the reads of a job gave, in their order.
pub type Reads = Items<PageData>;

/// An accepted call: who made it, what it asked and what it was answered.
#[derive(Clone, PartialEq, Eq, Debug, Drop)]
pub struct Entry {
    pub caller: u32,
    pub event: Event,
    pub reply: Reply,
}
