//! A part in memory, whose cells keep labels.

use crate::cells::Cell;
use crate::part_calls::{Misuse, PartCall};
use slot_types::{DiePlan, PageData, Place, Refusal};
use std::alloc::Global;

/// A part with one block more than a plan has, in memory. Its calls take a slot each at most.
#[derive(Drop)]
pub struct Part {
    blocks: u32,
    /// How many pages a block has.
    pages: u32,
    /// How many slots an erase takes.
    erase_slots: u32,
    /// Block by block.
    cells: Vec<Cell>,
    /// By block how many slots its running erase has had.
    erasing: Vec<u32>,
}

impl Part {
    /// A part for a plan, all of whose blocks are erased. The only refusal is NoMemory.
    pub fn new(alloc: Global, plan: &DiePlan) -> Result<Part, Refusal> {
        let blocks = plan.shape.blocks.saturating_add(1);
        let cells = (blocks as usize).saturating_mul(plan.shape.pages as usize);
        Ok(Part {
            blocks,
            pages: plan.shape.pages,
            erase_slots: plan.shape.erase_slots,
            cells: vec![in alloc; Cell::Erased; cells]?,
            erasing: vec![in alloc; 0; blocks as usize]?,
        })
    }

    /// Another part that shows the same. The only refusal is NoMemory.
    pub fn twin(&self) -> Result<Part, Refusal> {
        Ok(Part {
            blocks: self.blocks,
            pages: self.pages,
            erase_slots: self.erase_slots,
            cells: self.cells.clone()?,
            erasing: self.erasing.clone()?,
        })
    }

    /// How many blocks it has: one more than the plan.
    pub fn blocks(&self) -> u32 {
        self.blocks
    }

    /// How many pages a block has.
    pub fn pages(&self) -> u32 {
        self.pages
    }

    fn index(&self, place: Place) -> usize {
        (place.block as usize)
            .saturating_mul(self.pages as usize)
            .saturating_add(place.page as usize)
    }

    /// What a cell shows, if it is there.
    pub fn cell(&self, place: Place) -> Option<Cell> {
        if place.page >= self.pages {
            return None;
        }
        self.cells.get(self.index(place)).copied()
    }

    /// Lets a cell show this, whatever it was.
    pub(crate) fn put(&mut self, place: Place, cell: Cell) {
        let index = self.index(place);
        if let Some(old) = self.cells.get_mut(index) {
            *old = cell;
        }
    }

    /// Lets all cells of a block show this.
    pub(crate) fn fill(&mut self, block: u32, cell: Cell) {
        for page in 0..self.pages {
            self.put(Place { block, page }, cell);
        }
    }

    /// How many slots the running erase of a block has had; 0 where none runs.
    pub fn erasing(&self, block: u32) -> u32 {
        self.erasing.get(block as usize).copied().unwrap_or(0)
    }

    pub(crate) fn set_erasing(&mut self, block: u32, slots: u32) {
        if let Some(own) = self.erasing.get_mut(block as usize) {
            *own = slots;
        }
    }

    /// Whether each cell of a block from this one on was erased since the power came.
    pub fn is_erased_from(&self, block: u32, page: u32) -> bool {
        for page in page..self.pages {
            if self.cell(Place { block, page }) != Some(Cell::Erased) {
                return false;
            }
        }
        true
    }

    /// A cell that a power-up finds erased looks blank, and nobody knows more of it.
    pub(crate) fn forget_erases(&mut self) {
        for k in 0..self.cells.len() {
            if let Some(cell) = self.cells.get_mut(k)
                && *cell == Cell::Erased
            {
                *cell = Cell::Blank;
            }
        }
    }
}

impl Part {
    /// Carries a call out. Answers the bytes that were read; blank bytes where nothing was. A call that is a misuse
    /// changes nothing.
    pub fn carry_out(&mut self, call: PartCall) -> Result<PageData, Misuse> {
        match call {
            PartCall::Read { place } => self.read(place),
            PartCall::Program {
                place,
                label,
                erases,
                bytes,
            } => {
                let good = Cell::Good {
                    label,
                    erases,
                    bytes,
                };
                self.program(place, good)
            }
            PartCall::EraseSlot { block } => self.erase_slot(block),
        }
    }

    /// The bytes of a cell.
    pub fn read(&self, place: Place) -> Result<PageData, Misuse> {
        if self.erasing(place.block) > 0 {
            return Err(Misuse::InErase);
        }
        match self.cell(place) {
            Some(Cell::Good { bytes, .. }) => Ok(bytes),
            Some(_) => Err(Misuse::NotGood),
            None => Err(Misuse::NoSuchCell),
        }
    }

    /// Whether the cells of a block before this one are programmed.
    fn is_next(&self, place: Place) -> bool {
        for page in 0..place.page {
            let before = Place {
                block: place.block,
                page,
            };
            if self.cell(before) == Some(Cell::Erased) {
                return false;
            }
        }
        true
    }

    /// Programs the next cell of a block that was erased.
    fn program(&mut self, place: Place, cell: Cell) -> Result<PageData, Misuse> {
        if self.erasing(place.block) > 0 {
            return Err(Misuse::InErase);
        }
        match self.cell(place) {
            Some(Cell::Erased) => {}
            Some(_) => return Err(Misuse::NotErased),
            None => return Err(Misuse::NoSuchCell),
        }
        if !self.is_next(place) {
            return Err(Misuse::NotNext);
        }
        self.put(place, cell);
        Ok(PageData::BLANK)
    }

    fn erase_slot(&mut self, block: u32) -> Result<PageData, Misuse> {
        if block >= self.blocks {
            return Err(Misuse::NoSuchCell);
        }
        let slots = self.erasing(block).saturating_add(1);
        if slots < self.erase_slots {
            self.set_erasing(block, slots);
        } else {
            self.set_erasing(block, 0);
            self.fill(block, Cell::Erased);
        }
        Ok(PageData::BLANK)
    }
}
