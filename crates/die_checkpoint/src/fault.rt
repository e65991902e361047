//! Why a checkpoint doesn't fit a plan.

/// Why a checkpoint doesn't fit a plan: the first cause that stands, in this order.
#[derive(Clone, Copy, PartialEq, Eq, Debug, Drop)]
pub enum CheckpointFault {
    /// It has another number of blocks, of pages or of tasks than the plan.
    OtherShape,
    /// The plan doesn't meet its bound.
    BadPlan,
    /// More pages are programmed in a block than it has: the first such block.
    Overfull { block: u32 },
    /// Two blocks are open, with some pages programmed and some free: the second of them.
    SecondOpen { block: u32 },
    /// A block was erased more than 4,293,918,718 times, so its count might not suffice for a life more: the first
    /// such.
    WornOut { block: u32 },
    /// A logical page lies in a cell that isn't programmed, or isn't there: the first such page.
    Unprogrammed { page: u32 },
    /// A task's balance is above its cap: the first such task.
    AboveCap { task: u32 },
    /// The spare pages, the balances and the whole reserves come to another number than that of the free pages.
    OtherSum { accounts: u64, free: u64 },
    /// There is no memory to look whether two logical pages lie in one cell. All else fits.
    NoMemory,
    /// A logical page lies in the cell of a page before it: the first such page.
    SharedCell { page: u32 },
}
