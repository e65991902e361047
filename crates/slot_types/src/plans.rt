//! Plans: what a die has, and whom it serves.

ghost use Rattle.std.specs.Prelude.{◌↔◌, IsTrue};
ghost use Rattle.slot_types.specs.Shapes.{IsShape};

use crate::items::Items;
use crate::limits::{MAX_BLOCKS, MAX_ERASE_SLOTS, MAX_PAGES, MIN_BLOCKS, MIN_PAGES};

/// What a flash die has.
#[derive(Clone, Copy, PartialEq, Eq, Debug, Drop)]
pub struct Shape {
    /// How many blocks it has.
    pub blocks: u32,
    /// How many pages each block has.
    pub pages: u32,
    /// How many slots the erase of a block takes.
    pub erase_slots: u32,
}

impl Shape {
    /// Whether it is within its limits: 2 to 1,024 blocks, 2 to 256 pages a block, 1 to 64 erase slots.
    pub fn is_within_limits(self) -> bool
        ensures { IsTrue result ↔ IsShape self }
    {
        MIN_BLOCKS <= self.blocks
            && self.blocks <= MAX_BLOCKS
            && MIN_PAGES <= self.pages
            && self.pages <= MAX_PAGES
            && 1 <= self.erase_slots
            && self.erase_slots <= MAX_ERASE_SLOTS
    }
}

/// By task, of which there are 1 to 16, the most free pages that it may own tokens for: at least 1.
pub type Caps = Items<u32>;

/// What a task asks for. All times are in slots.
#[derive(Clone, Copy, PartialEq, Eq, Debug, Drop)]
pub struct TaskTimes {
    /// The period in slots, 1 to 1,048,576: a job of the task comes at most once in it, and has as long to be done.
    pub period: u32,
    /// A collection comes at each multiple of this, 1 to 1,048,576, and has as long to be done.
    pub collect_period: u32,
    /// The most operations of a job: 1 to 64.
    pub work: u32,
    /// The most writes among these.
    pub writes: u32,
}

/// By task what it asks for.
pub type TimesList = Items<TaskTimes>;

/// What the tasks of a die ask for.
#[derive(Clone, PartialEq, Eq, Debug, Drop)]
pub struct Times {
    /// The hyperperiod in slots: a multiple of all periods, 1 to 1,048,576. The demand is what all tasks ask for in a
    /// hyperperiod.
    pub common: u32,
    pub tasks: TimesList,
}

/// What a die is to hold, and for which tasks.
#[derive(Clone, PartialEq, Eq, Debug, Drop)]
pub struct DiePlan {
    pub shape: Shape,
    /// How many logical pages it keeps: at least 1.
    pub logical: u32,
    /// The most pages that a collection gives its task: 1 to the pages of a block.
    pub alpha: u32,
    pub caps: Caps,
    /// When the tasks ask, and for how much; none where the plan doesn't say.
    pub times: Option<Times>,
}

/// The plans of a store's dies, by die: all alike except for the caps and the times.
pub type StorePlan = Items<DiePlan>;
