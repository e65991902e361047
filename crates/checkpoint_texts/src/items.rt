//! What a record of a checkpoint says.

use crate::saved::SavedPage;
use die_checkpoint::BlockCounts;

/// What a record of a checkpoint says.
#[derive(Clone, Copy, PartialEq, Eq, Debug, Drop)]
pub enum Item {
    /// The next logical page.
    Page(SavedPage),
    /// The next block.
    Block(BlockCounts),
    /// The balance of the next task.
    Task(u32),
    /// The die that the items before it are of is done: its number, and its spare pages.
    Die { number: u32, spare: u32 },
}
