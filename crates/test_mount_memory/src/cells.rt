//! What the cells of a part had.

use crate::parts::PART;
use crate::wrongs::Wrong;
use labelled_nand::{LabelledMemory, MarkedCell};
use slot_types::Place;
use std::alloc::Global;

/// By cell what it holds, block by block; none where it isn't programmed.
pub(crate) fn cells_of(
    alloc: Global,
    part: &LabelledMemory,
) -> Result<Vec<Option<MarkedCell>>, Wrong> {
    let mut cells = Vec::new(alloc);
    for block in 0..PART.blocks {
        for page in 0..PART.pages {
            cells.push(part.cell(Place { block, page }))?;
        }
    }
    Ok(cells)
}

/// Whether a part has these cells, and no block is in erase.
pub(crate) fn has_cells(part: &LabelledMemory, cells: &[Option<MarkedCell>]) -> bool {
    let mut rest = cells.iter();
    for block in 0..PART.blocks {
        if part.erasing(block) != 0 {
            return false;
        }
        for page in 0..PART.pages {
            let cell = part.cell(Place { block, page });
            if rest.next() != Some(&cell) {
                return false;
            }
        }
    }
    rest.next().is_none()
}
