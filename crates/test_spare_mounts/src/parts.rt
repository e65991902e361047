//! The part and its plan.

use slot_types::{Caps, DiePlan, Place, Refusal, Shape};
use spare_blocks::{BlockUse, Failures, SpareBlocks, WearingMemory};
use std::alloc::Global;

pub(crate) const LOGICAL: u32 = 12;

/// The die's blocks.
const SHAPE: Shape = Shape {
    blocks: 8,
    pages: 4,
    erase_slots: 3,
};

/// The die's blocks, and one that stands aside.
pub(crate) const NUMBERED: u32 = 9;

/// The numbered blocks, and spare ones.
const PART: Shape = Shape {
    blocks: 13,
    ..SHAPE
};

/// One task of four tokens.
pub(crate) fn plan(alloc: Global) -> Result<DiePlan, Refusal> {
    let mut caps = Caps::new(alloc);
    caps.push(4)?;
    Ok(DiePlan {
        shape: SHAPE,
        logical: LOGICAL,
        alpha: 2,
        caps,
        times: None,
    })
}

/// A part on which nothing was ever written.
pub(crate) fn blank(alloc: Global) -> Result<WearingMemory, Refusal> {
    WearingMemory::new(alloc, PART, 0, Failures::script(Vec::new(alloc), None))
}

/// The blocks of a device that are bad, for the list of the next life.
pub(crate) fn bad_blocks(
    alloc: Global,
    device: &SpareBlocks<WearingMemory>,
) -> Result<Vec<u32>, Refusal> {
    let mut bad = Vec::new(alloc);
    for block in 0..PART.blocks {
        if device.use_of(block) == BlockUse::Bad {
            bad.push(block)?;
        }
    }
    Ok(bad)
}

/// Of the blocks in erase some cells are torn: those that have a bit in this pattern.
pub(crate) fn tear(part: &mut WearingMemory, pattern: u32) {
    for block in 0..PART.blocks {
        if part.slots_done(block) > 0 {
            for page in 0..PART.pages {
                if (pattern >> page) % 2 == 1 {
                    part.tear(Place { block, page });
                }
            }
        }
    }
}
