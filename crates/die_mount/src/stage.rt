//! How far a mount is, and which call of the part comes next.

use crate::label::Label;
use slot_types::Place;

/// How far a mount is.
#[derive(Clone, Copy, PartialEq, Eq, Debug, Drop)]
pub enum Stage {
    /// The block that it erases first has had `slots` slots of its erase.
    First { block: u32, slots: u32 },
    /// The page of this cell is read next. Its block is the one that is emptied.
    Read { page: u32, from: Place },
    /// The page of this cell was read, and is programmed next.
    Program { page: u32, from: Place, to: Place },
    /// All pages of this block were copied, and it has had `slots` slots of its erase.
    Erase { block: u32, slots: u32 },
    /// As many pages are free as full accounts and a block come to.
    Done,
}

/// A call of the part.
#[derive(Clone, Copy, PartialEq, Eq, Debug, Drop)]
pub enum MountCall {
    /// One slot of the erase of this block.
    EraseSlot { block: u32 },
    /// Reads the page in this cell. The program that comes next has its bytes.
    Read { place: Place },
    /// Programs this cell with the bytes that were read last, and with this label.
    Program { place: Place, label: Label },
}
