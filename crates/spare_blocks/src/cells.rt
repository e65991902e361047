//! What a part's cells hold, and how its calls end.

use slot_types::PageData;

/// The label of a cell: whose page it holds, and the number of its program.
#[derive(Clone, Copy, PartialEq, Eq, Debug, Drop)]
pub struct Mark {
    pub page: u32,
    pub serial: u64,
}

/// What a programmed cell holds. It has a label where the part keeps labels and its program was given a page.
#[derive(Clone, Copy, PartialEq, Eq, Debug, Drop)]
pub struct Cell {
    pub bytes: PageData,
    pub mark: Option<Mark>,
}

/// How a program, a copy or a whole erase ended.
#[derive(Clone, Copy, PartialEq, Eq, Debug, Drop)]
pub enum Ended {
    Done,
    /// The block failed. The part itself is well.
    Failed,
}

/// How a slot of an erase ended.
#[derive(Clone, Copy, PartialEq, Eq, Debug, Drop)]
pub enum Erased {
    /// The erase needs more slots.
    Partly,
    /// The slot was the last, and the block is free.
    Wholly,
    /// The slot was the last, and the block failed. The part itself is well.
    Failed,
}

/// What a block of the part is for.
#[derive(Clone, Copy, PartialEq, Eq, Debug, Drop)]
pub enum BlockUse {
    /// It has this number among the blocks of the plan.
    InPlan(u32),
    /// It is free, and takes the number of the next block that fails.
    Spare,
    /// It isn't used any more: it was bad from the factory, or it failed.
    Bad,
}
