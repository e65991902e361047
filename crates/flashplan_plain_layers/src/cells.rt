//! The cells of a die: what each holds, and where each page lies.

use crate::lists::{add_one, at, set, take_one};
use slot_types::Shape;
use std::alloc::{AllocError, Global};

/// No page lies in a cell, or a page lies nowhere.
const NONE: u32 = u32::MAX;

/// Cells are numbered through all blocks. What a cell holds is the number of the write that made it, from 1.
#[derive(Drop)]
pub(crate) struct Cells {
    pages: usize,
    /// By cell the page that lies there.
    owners: Vec<u32>,
    /// By cell the write that it holds.
    writes: Vec<u32>,
    /// By block how many of its pages were programmed since its last erase.
    filled: Vec<u32>,
    /// By block how many pages lie in it.
    valid: Vec<u32>,
    /// By block how many erases it took.
    erases: Vec<u32>,
    /// By page its cell.
    places: Vec<u32>,
    open: Option<usize>,
    wholly_free: usize,
}

impl Cells {
    /// Cells of a fresh die, which keeps `logical` pages.
    pub(crate) fn new(alloc: Global, shape: Shape, logical: u32) -> Result<Cells, AllocError> {
        let pages = shape.pages as usize;
        let blocks = shape.blocks as usize;
        let cells = blocks.saturating_mul(pages);
        Ok(Cells {
            pages,
            owners: vec![in alloc; NONE; cells]?,
            writes: vec![in alloc; 0u32; cells]?,
            filled: vec![in alloc; 0u32; blocks]?,
            valid: vec![in alloc; 0u32; blocks]?,
            erases: vec![in alloc; 0u32; blocks]?,
            places: vec![in alloc; NONE; logical as usize]?,
            open: None,
            wholly_free: blocks,
        })
    }

    /// How many blocks are wholly free.
    pub(crate) fn wholly_free(&self) -> usize {
        self.wholly_free
    }

    /// How many pages of a block lie in it.
    pub(crate) fn valid(&self, block: usize) -> usize {
        at(self.valid.as_slice(), block, 0) as usize
    }

    /// How many pages can be programmed before any erase.
    pub(crate) fn free(&self) -> usize {
        let open = match self.open {
            Some(block) => self.pages.saturating_sub(self.filled(block)),
            None => 0,
        };
        self.wholly_free
            .saturating_mul(self.pages)
            .saturating_add(open)
    }

    fn filled(&self, block: usize) -> usize {
        at(self.filled.as_slice(), block, 0) as usize
    }

    /// Where a page lies.
    pub(crate) fn place(&self, page: u32) -> Option<usize> {
        match at(self.places.as_slice(), page as usize, NONE) {
            NONE => None,
            cell => Some(cell as usize),
        }
    }

    /// The write that a page holds, or 0 where it is blank.
    pub(crate) fn write_of(&self, page: u32) -> u32 {
        match self.place(page) {
            Some(cell) => at(self.writes.as_slice(), cell, 0),
            None => 0,
        }
    }

    /// The page that lies in a cell of a block.
    pub(crate) fn owner(&self, block: usize, place: usize) -> Option<u32> {
        let cell = block.saturating_mul(self.pages).saturating_add(place);
        match at(self.owners.as_slice(), cell, NONE) {
            NONE => None,
            page => Some(page),
        }
    }

    /// A page lies nowhere from now on.
    pub(crate) fn unbind(&mut self, page: u32) {
        if let Some(cell) = self.place(page) {
            set(self.owners.as_mut_slice(), cell, NONE);
            take_one(self.valid.as_mut_slice(), cell / self.pages.max(1));
            set(self.places.as_mut_slice(), page as usize, NONE);
        }
    }

    /// The open block; without one the wholly free block of the smallest number opens.
    fn opened(&mut self) -> Option<usize> {
        if self.open.is_none() {
            self.open = self.filled.iter().position(|filled| *filled == 0);
            if self.open.is_some() {
                self.wholly_free = self.wholly_free.saturating_sub(1);
            }
        }
        self.open
    }

    /// Programs a page with a write in the open block's next cell. Answers false where no cell is free.
    pub(crate) fn program(&mut self, page: u32, write: u32) -> bool {
        let Some(block) = self.opened() else {
            return false;
        };
        self.unbind(page);
        let cell = block
            .saturating_mul(self.pages)
            .saturating_add(self.filled(block));
        set(self.owners.as_mut_slice(), cell, page);
        set(self.writes.as_mut_slice(), cell, write);
        set(
            self.places.as_mut_slice(),
            page as usize,
            u32::try_from(cell).unwrap_or(NONE),
        );
        add_one(self.filled.as_mut_slice(), block);
        add_one(self.valid.as_mut_slice(), block);
        if self.filled(block) >= self.pages {
            self.open = None;
        }
        true
    }

    // Whether a block may be collected, and by what it is compared: its pages, its erases and its number.
    fn rank(&self, block: usize) -> Option<(usize, u32, usize)> {
        let valid = self.valid(block);
        if self.filled(block) < self.pages || valid >= self.pages {
            return None;
        }
        Some((valid, at(self.erases.as_slice(), block, 0), block))
    }

    /// The closed block with a stale page that has the fewest pages in it, then the fewest erases, then the smaller number.
    pub(crate) fn victim(&self) -> Option<usize> {
        let mut best = None;
        for block in 0..self.filled.len() {
            let Some(rank) = self.rank(block) else {
                continue;
            };
            best = match best {
                Some(least) if least <= rank => Some(least),
                _ => Some(rank),
            };
        }
        match best {
            Some((_, _, block)) => Some(block),
            None => None,
        }
    }

    /// A block's erase has ended: it is wholly free.
    pub(crate) fn erase(&mut self, block: usize) {
        set(self.filled.as_mut_slice(), block, 0);
        add_one(self.erases.as_mut_slice(), block);
        self.wholly_free = self.wholly_free.saturating_add(1);
    }
}
