//! What stands on a die at a quiet moment.

use slot_types::{Items, Place};

/// What a checkpoint says of a block.
#[derive(Clone, Copy, PartialEq, Eq, Debug, Drop)]
pub struct BlockCounts {
    /// How many of its pages are programmed since its last erase: the first `filled`.
    pub filled: u32,
    /// How often it was erased.
    pub erases: u32,
}

/// What stands on a die at a quiet moment, one at which all that it accepted is done or was waived: then no block is in
/// erase, no task holds a page for a job, and each reserve is whole. It doesn't have the bytes of pages: they are on
/// the device.
///
/// Anybody may make one. [`check`](Checkpoint::check) says whether it fits a plan.
#[derive(Clone, PartialEq, Eq, Debug, Drop)]
pub struct Checkpoint {
    /// By logical page the cell in which it lies, if it lies in one.
    pub places: Items<Option<Place>>,
    /// The blocks, by number.
    pub blocks: Items<BlockCounts>,
    /// How many free pages nobody has a claim on.
    pub spare: u32,
    /// By task how many pages its next jobs may write.
    pub balances: Items<u32>,
}
