//! A part in memory: what its cells show, what its calls do, and what is left of them where the power goes.

use crate::wrongs::{Misuse, Wrong};
use die_mount::{Label, MountCall};
use rand_core::utils::NextWord;
use rand_pcg::Pcg32;
use slot_types::Place;
use std::alloc::Global;

/// What a cell shows, and what may be done with it.
#[derive(Clone, Copy, PartialEq, Eq, Debug, Drop)]
pub enum Cell {
    /// It was erased since the power came, and may be programmed.
    Erased,
    /// It looks as if it were erased. Whether it may be programmed nobody knows.
    Blank,
    /// It shows no label.
    Torn,
    /// It shows a label, and the bytes of a page, which are a number here.
    Good { label: Label, bytes: u64 },
}

/// What is left of the call during which the power went.
#[derive(Clone, Copy, PartialEq, Eq, Debug, Drop)]
pub enum Leftover {
    /// Nothing was begun.
    Nothing,
    /// A torn cell, or a block in erase that is neither as it was nor erased.
    Half,
    /// All was done.
    Whole,
}

pub const LEFTOVERS: [Leftover; 3] = [Leftover::Nothing, Leftover::Half, Leftover::Whole];

/// A part whose cells keep labels.
#[derive(Drop)]
pub struct Chip {
    /// How many pages a block has.
    pages: u32,
    /// How many slots an erase takes.
    slots: u32,
    /// Block by block.
    cells: Vec<Cell>,
    /// By block how many slots its running erase has had.
    erasing: Vec<u32>,
    /// What was read last, since the last program.
    held: Option<u64>,
}

impl Chip {
    /// A part of `blocks` blocks, whose cells look blank.
    pub fn new(alloc: Global, blocks: u32, pages: u32, slots: u32) -> Result<Chip, Wrong> {
        let cells = (blocks as usize).saturating_mul(pages as usize);
        Ok(Chip {
            pages,
            slots,
            cells: vec![in alloc; Cell::Blank; cells]?,
            erasing: vec![in alloc; 0; blocks as usize]?,
            held: None,
        })
    }

    /// Another part that shows the same.
    pub fn twin(&self) -> Result<Chip, Wrong> {
        Ok(Chip {
            pages: self.pages,
            slots: self.slots,
            cells: self.cells.clone()?,
            erasing: self.erasing.clone()?,
            held: self.held,
        })
    }

    /// Whether both show the same.
    pub fn looks_like(&self, other: &Chip) -> bool {
        self.cells == other.cells && self.erasing == other.erasing
    }

    fn index(&self, place: Place) -> usize {
        (place.block as usize)
            .saturating_mul(self.pages as usize)
            .saturating_add(place.page as usize)
    }

    /// A cell, if there is one.
    pub fn cell(&self, place: Place) -> Option<Cell> {
        if place.page >= self.pages {
            return None;
        }
        self.cells.get(self.index(place)).copied()
    }

    /// Lets a cell show this, whatever it was.
    pub fn put(&mut self, place: Place, cell: Cell) {
        let index = self.index(place);
        if let Some(old) = self.cells.get_mut(index) {
            *old = cell;
        }
    }

    /// How many blocks are wholly erased, and how many cells are.
    pub fn erased(&self, blocks: u32) -> (u32, u32) {
        let (mut whole, mut cells) = (0u32, 0u32);
        for block in 0..blocks {
            let erased = self.erased_in(block);
            cells = cells.saturating_add(erased);
            if erased == self.pages {
                whole = whole.saturating_add(1);
            }
        }
        (whole, cells)
    }

    fn erased_in(&self, block: u32) -> u32 {
        let mut cells = 0u32;
        for page in 0..self.pages {
            if self.cell(Place { block, page }) == Some(Cell::Erased) {
                cells = cells.saturating_add(1);
            }
        }
        cells
    }

    /// Whether each label has a smaller serial.
    fn is_above(&self, serial: u64) -> bool {
        for cell in self.cells.as_slice() {
            if let Cell::Good { label, .. } = *cell {
                if label.serial >= serial {
                    return false;
                }
            }
        }
        true
    }
}

impl Chip {
    /// Carries a call out.
    pub fn carry_out(&mut self, call: MountCall) -> Result<(), Misuse> {
        match call {
            MountCall::EraseSlot { block } => self.erase_slot(block),
            MountCall::Read { place } => self.read(place),
            MountCall::Program { place, label } => self.program(place, label),
        }
    }

    /// The bytes in a cell.
    pub fn bytes(&self, place: Place) -> Result<u64, Misuse> {
        match self.cell(place) {
            Some(Cell::Good { bytes, .. }) => Ok(bytes),
            Some(_) => Err(Misuse::NotGood),
            None => Err(Misuse::NoSuchCell),
        }
    }

    fn is_in_erase(&self, block: u32) -> bool {
        match self.erasing.get(block as usize) {
            Some(slots) => *slots > 0,
            None => false,
        }
    }

    fn read(&mut self, place: Place) -> Result<(), Misuse> {
        if self.is_in_erase(place.block) {
            return Err(Misuse::InErase);
        }
        self.held = Some(self.bytes(place)?);
        Ok(())
    }

    /// Whether the cells of a block before this one are programmed.
    fn is_next(&self, place: Place) -> bool {
        for page in 0..place.page {
            let before = Place {
                block: place.block,
                page,
            };
            if self.cell(before) == Some(Cell::Erased) {
                return false;
            }
        }
        true
    }

    /// Programs the next cell of a block that was erased, with what was read, and with a serial above all.
    fn program(&mut self, place: Place, label: Label) -> Result<(), Misuse> {
        if self.is_in_erase(place.block) {
            return Err(Misuse::InErase);
        }
        match self.cell(place) {
            Some(Cell::Erased) => {}
            Some(_) => return Err(Misuse::NotErased),
            None => return Err(Misuse::NoSuchCell),
        }
        if !self.is_next(place) {
            return Err(Misuse::NotNext);
        }
        if !self.is_above(label.serial) {
            return Err(Misuse::OldSerial);
        }
        let Some(bytes) = self.held else {
            return Err(Misuse::NothingRead);
        };
        self.held = None;
        self.put(place, Cell::Good { label, bytes });
        Ok(())
    }

    fn erase_slot(&mut self, block: u32) -> Result<(), Misuse> {
        let Some(had) = self.erasing.get(block as usize).copied() else {
            return Err(Misuse::NoSuchCell);
        };
        let slots = had.saturating_add(1);
        if slots < self.slots {
            self.set_erasing(block, slots);
        } else {
            self.set_erasing(block, 0);
            self.fill(block, Cell::Erased);
        }
        Ok(())
    }

    fn set_erasing(&mut self, block: u32, slots: u32) {
        if let Some(own) = self.erasing.get_mut(block as usize) {
            *own = slots;
        }
    }

    fn fill(&mut self, block: u32, cell: Cell) {
        for page in 0..self.pages {
            self.put(Place { block, page }, cell);
        }
    }
}

impl Chip {
    /// The power goes during a call, of which this is left, and comes again.
    pub fn cut(
        &mut self,
        call: MountCall,
        leftover: Leftover,
        words: &mut Pcg32,
    ) -> Result<(), Misuse> {
        match (leftover, call) {
            (Leftover::Nothing, _) => {}
            (Leftover::Half, MountCall::Program { place, .. }) => self.put(place, Cell::Torn),
            (Leftover::Half, MountCall::EraseSlot { block }) => self.scramble(block, words),
            (Leftover::Half, MountCall::Read { .. }) => {}
            (Leftover::Whole, _) => self.carry_out(call)?,
        }
        self.power_comes(words);
        Ok(())
    }

    /// Each cell of a block keeps what it had, or shows no label any longer.
    fn scramble(&mut self, block: u32, words: &mut Pcg32) {
        let kept = words.next_word() % 9;
        for page in 0..self.pages {
            let word = words.next_word();
            if word % 8 < kept {
                continue;
            }
            let cell = if word % 16 < 8 {
                Cell::Blank
            } else {
                Cell::Torn
            };
            self.put(Place { block, page }, cell);
        }
    }

    /// An erase that was under way is none, and of no cell it is known that it was erased.
    pub fn power_comes(&mut self, words: &mut Pcg32) {
        self.held = None;
        let mut block = 0u32;
        for _ in 0..self.erasing.len() {
            if self.is_in_erase(block) {
                self.scramble(block, words);
            }
            self.set_erasing(block, 0);
            block = block.saturating_add(1);
        }
        for k in 0..self.cells.len() {
            if self.cells.get(k).copied() == Some(Cell::Erased) {
                if let Some(cell) = self.cells.get_mut(k) {
                    *cell = Cell::Blank;
                }
            }
        }
    }
}
