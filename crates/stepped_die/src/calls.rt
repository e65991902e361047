//! What a driver is asked to do.

use slot_core::NextAct;
use slot_types::{JobNo, PageData, Place};

/// What a driver is asked to do in a slot: a call of the device, or to note a trim, which calls no device.
#[derive(Clone, Copy, PartialEq, Eq, Debug, Drop)]
pub enum Call {
    /// Read the cell, which was programmed with these bytes.
    Read {
        place: Place,
        bytes: PageData,
    },
    /// Program the cell with these bytes, in a block that was erased so often, as the die counts.
    Program {
        place: Place,
        bytes: PageData,
        erases: u32,
    },
    /// Do one slot of the erase of the block, which is its last slot or not.
    Erase {
        block: u32,
        last: bool,
    },
    /// Note, if notes are kept, that the logical page is blank from now on.
    Trim {
        page: u32,
    },
}

/// A slot that has begun.
#[derive(Clone, Copy, PartialEq, Eq, Debug, Drop)]
pub struct Begun {
    /// Who began it.
    pub caller: u32,
    /// The slot's number.
    pub slot: u32,
    /// What the driver is to do, if anything.
    pub call: Option<Call>,
    /// The job or collection that has the slot, and what it will do; none where the slot is idle.
    pub runs: Option<(JobNo, NextAct)>,
}
