//! The part of each mount, and its plan.

use crate::wrongs::Wrong;
use labelled_nand::LabelledMemory;
use slot_types::{Caps, DiePlan, Shape};
use std::alloc::Global;

/// A part: the die's blocks, and one that stands aside.
pub(crate) const PART: Shape = Shape {
    blocks: 9,
    pages: 4,
    erase_slots: 3,
};

const SHAPE: Shape = Shape { blocks: 8, ..PART };

pub(crate) const LOGICAL: u32 = 12;

/// The plan of each die: one task of four tokens, and 12 logical pages.
pub(crate) fn plan(alloc: Global) -> Result<DiePlan, Wrong> {
    let mut caps = Caps::new(alloc);
    caps.push(4)?;
    Ok(DiePlan {
        shape: SHAPE,
        logical: LOGICAL,
        alpha: 2,
        caps,
        times: None,
    })
}

/// A part on which nothing was ever written.
pub(crate) fn blank(alloc: Global) -> Result<LabelledMemory, Wrong> {
    Ok(LabelledMemory::new(alloc, PART, 0)?)
}
