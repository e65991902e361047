//! A device in memory.

ghost use Rattle.std.specs.Prelude.{◌≡◌, ◌≤◌, ◌+◌, ◌*◌, ◌==◌, ◌↔◌, ℕ, IfOk, length, slice_index, slice_index_or, vec_capacity};
ghost use Rattle.slot_types.specs.Refusal.{FailsForMemory};
ghost use Rattle.slot_types.specs.Shapes.{IsShape};
ghost use Rattle.flash_die.specs.Flash.{blank, block_at, cell_at};
ghost use Rattle.flash_die.specs.Memory.{fresh_memory, cells_up_to, left_memory};

use crate::nand::Nand;
use slot_types::{PageData, Place, Refusal, Shape};
use std::alloc::Global;
use std::marker::Model;

/// A device in memory, which never fails. Contracts see its shape and its blocks.
///
/// `new` reserves the memory of all cells, and a cell is laid down as it is first programmed, or one after it: what is
/// never used is never touched. Each call takes constant time, except for the programs that lay down cells: together
/// they lay down each cell once, and one cell each where blocks are first filled in rising order.
#[derive(Drop)]
pub struct MemoryNand {
    shape: Shape,
    /// The cells of one block after the other, as far as they are laid down. There is room for all.
    cells: Vec<PageData>,
    /// By block how many of its cells are programmed.
    filled: Vec<u32>,
    /// By block how many slots its running erase has had.
    erasing: Vec<u32>,
    /// By block how many erases it has had.
    erases: Vec<u32>,
}

impl Model for MemoryNand {
    ghost use Rattle.flash_die.specs.Memory.{Memory};

    ghost Value = { Memory };

    ghost use Rattle.flash_die.specs.MemoryView.{memory_of, IsSoundMemory};

    ghost view = { memory_of };

    ghost invariant = { IsSoundMemory };
}

impl MemoryNand {
    /// A fresh device. It is refused with `BadShape` where the shape is out of its limits, or
    /// else with `NoMemory` where there is no memory for the cells.
    pub fn new(alloc: Global, shape: Shape) -> Result<Self, Refusal>
        ensures fresh { IfOk result (λ device. device ≡ fresh_memory shape) }
        ensures bad_shape { (result ≡ Err Refusal.BadShape) ↔ ¬ IsShape shape }
        ensures no_memory { IsShape shape → FailsForMemory result }
    {
        if !shape.is_within_limits() {
            return Err(Refusal::BadShape);
        }
        let blocks = shape.blocks as usize;
        let pages = shape.pages as usize;
        Ok(MemoryNand {
            shape,
            cells: Vec::with_capacity(alloc, blocks * pages)?,
            filled: vec![in alloc; 0; blocks]?,
            erasing: vec![in alloc; 0; blocks]?,
            erases: vec![in alloc; 0; blocks]?,
        })
    }

    /// A device as it was left. Of each block as many pages are programmed as `filled` says, it was erased as often as
    /// `erases` says, and none is in erase. The cells are in `cells`, those of one block after those of another, and
    /// each one beyond them is blank; what is there of a free cell has no meaning. Refused as [`new`](MemoryNand::new)
    /// refuses the shape.
    pub fn left(
        alloc: Global,
        shape: Shape,
        cells: Vec<PageData>,
        filled: &[u32],
        erases: &[u32],
    ) -> Result<Self, Refusal>
        requires few_cells { length cells.items ≤ shape.blocks * shape.pages }
        requires filled_blocks { length filled.now ≡ shape.blocks }
        requires erased_blocks { length erases.now ≡ shape.blocks }
        requires within { (block : ℕ) → slice_index filled.now block ≤ shape.pages }
        ensures left { IfOk result (λ device.
            device ≡ left_memory shape cells.items filled.now erases.now) }
        ensures bad_shape { (result ≡ Err Refusal.BadShape) ↔ ¬ IsShape shape }
        ensures no_memory { IsShape shape → FailsForMemory result }
    {
        if !shape.is_within_limits() {
            return Err(Refusal::BadShape);
        }
        let blocks = shape.blocks as usize;
        let pages = shape.pages as usize;
        let mut cells = cells;
        cells.reserve_exact(blocks * pages - cells.len())?;
        Ok(MemoryNand {
            shape,
            cells,
            filled: Vec::from_slice(alloc, filled)?,
            erasing: vec![in alloc; 0; blocks]?,
            erases: Vec::from_slice(alloc, erases)?,
        })
    }

    /// What a cell holds; one that is free, or that the device doesn't have, is blank.
    pub fn cell(&self, place: Place) -> PageData
        ensures { result ≡ cell_at self.now.blocks place }
    {
        match self.filled.get(place.block as usize) {
            Some(filled) if place.page < *filled => {
                read_cell(
                    &self.cells,
                    (place.block * self.shape.pages + place.page) as usize,
                )
            }
            _ => PageData::BLANK,
        }
    }

    /// Whether the next slot of the block's erase is its last.
    pub fn ends_erase(&self, block: u32) -> bool
        ensures { result
            ≡ ((block_at self.now.blocks block).erasing + 1 == self.now.shape.erase_slots) }
    {
        match self.erasing.get(block as usize) {
            Some(done) => *done + 1 == self.shape.erase_slots,
            None => 1 == self.shape.erase_slots,
        }
    }

    /// How often a block was erased; 0 where the device doesn't have it.
    pub fn erases(&self, block: u32) -> u32
        ensures { result ≡ (block_at self.now.blocks block).erases }
    {
        match self.erases.get(block as usize) {
            Some(erases) => *erases,
            None => 0,
        }
    }
}

impl Nand for MemoryNand {
    ghost use Rattle.std.specs.Prelude.{true};

    ghost shape_of = { λ m. m.shape };

    ghost blocks = { λ m. m.blocks };

    ghost failures = { λ _. 0 };

    ghost ends = { λ _ _ well _. well ≡ true };

    ghost never_fails = { true };

    fn shape(&self) -> Shape {
        self.shape
    }

    fn read(&mut self, place: Place) -> Result<PageData, Refusal> {
        let at = place.block * self.shape.pages + place.page;
        Ok(read_cell(&self.cells, at as usize))
    }

    fn program(&mut self, place: Place, bytes: PageData) -> Result<(), Refusal> {
        let at = place.block * self.shape.pages + place.page;
        lay_down(&mut self.cells, at as usize + 1);
        self.cells[at as usize] = bytes;
        self.filled[place.block as usize] = place.page + 1;
        Ok(())
    }

    fn program_page(&mut self, place: Place, _page: u32, bytes: PageData) -> Result<(), Refusal> {
        self.program(place, bytes)
    }

    fn erase_slot(&mut self, block: u32) -> Result<bool, Refusal> {
        let index = block as usize;
        let done = self.erasing[index] + 1;
        if done < self.shape.erase_slots {
            self.erasing[index] = done;
            return Ok(false);
        }
        self.filled[index] = 0;
        self.erasing[index] = 0;
        self.erases[index] += 1;
        Ok(true)
    }
}

/// What a cell holds. One that isn't laid down is free.
fn read_cell(cells: &[PageData], at: usize) -> PageData
    ensures { result ≡ slice_index_or cells.now at blank }
{
    match cells.get(at) {
        Some(bytes) => *bytes,
        None => PageData::BLANK,
    }
}

/// Lays down free cells up to `count`, for which there is room.
fn lay_down(cells: &mut Vec<PageData>, count: usize)
    requires room { count ≤ vec_capacity cells.old }
    ensures cells { cells.new.items ≡ cells_up_to count cells.old.items }
    ensures room { vec_capacity cells.old ≤ vec_capacity cells.new }
{
    if cells.len() < count {
        match cells.resize(count, PageData::BLANK) {
            Ok(()) => {}
            // In reserved room this takes no memory.
            Err(_) => unreachable!(),
        }
    }
}
