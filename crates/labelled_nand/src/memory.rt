//! A device in memory that keeps labels.

ghost use Rattle.std.specs.Prelude.{◌≡◌, ◌↔◌, ◌∷◌, ◌++◌, ◌+◌, ◌==◌, ◌<◌, ◌≤◌, [], All, length, map, replicate, slice_set, if◌then◌else◌, IfOk, Err};
ghost use Rattle.std.specs.Prelude.{slice_get, vec_capacity};
ghost use Rattle.slot_types.specs.Refusal.{FailsForMemory};
ghost use Rattle.slot_types.specs.Shapes.{IsShape};
ghost use Rattle.labelled_nand.specs.Memory.{closed_cells, device_blocks, device_labels, fresh_marked, marked_at, no_cells, powered_up, torn_cell, with_torn};
ghost use Rattle.labelled_nand.specs.MemoryView.{cells_of, IsSoundBlock};
ghost use Rattle.labelled_nand.specs.PoweredUp.{IsPoweredUp};

use crate::labelled::LabelledNand;
use crate::look::Look;
use die_mount::Label;
use flash_die::Nand;
use slot_types::{PageData, Place, Refusal, Shape};
use std::alloc::Global;
use std::marker::Model;

/// What a programmed cell holds.
#[derive(Clone, Copy, PartialEq, Eq, Debug, Drop)]
pub struct MarkedCell {
    pub bytes: PageData,
    /// None where a program wasn't given its page, or where it was cut.
    pub label: Option<Label>,
}

/// A cell without a label, as a program or an erase leaves it that was cut.
const TORN: MarkedCell = MarkedCell {
    bytes: PageData::BLANK,
    label: None,
};

/// A block: its programmed cells, the slots of its running erase, and its erases.
#[derive(Drop)]
struct MarkedBlock {
    cells: Vec<MarkedCell>,
    erasing: u32,
    erases: u32,
}

/// A device in memory that keeps labels, and never fails. Its memory, 40 bytes by cell, is taken by `new`; each call
/// takes constant time.
#[derive(Drop)]
pub struct LabelledMemory {
    shape: Shape,
    blocks: Vec<MarkedBlock>,
    /// The serial of the next program.
    next: u64,
}

impl Model for LabelledMemory {
    ghost use Rattle.labelled_nand.specs.Memory.{Marked};
    ghost use Rattle.labelled_nand.specs.MemoryView.{marked_of, IsSoundMarked};

    ghost Value = { Marked };

    ghost view = { marked_of };

    ghost invariant = { IsSoundMarked };
}

impl LabelledMemory {
    /// A fresh device, whose first program has this serial. It is refused with `BadShape` where the shape is out of its
    /// limits, or else with `NoMemory` where there is no memory for the cells.
    pub fn new(alloc: Global, shape: Shape, serial: u64) -> Result<Self, Refusal>
        ensures fresh { IfOk result (λ device. device ≡ fresh_marked shape serial) }
        ensures bad_shape { (result ≡ Err Refusal.BadShape) ↔ ¬ IsShape shape }
        ensures no_memory { IsShape shape → FailsForMemory result }
    {
        if !shape.is_within_limits() {
            return Err(Refusal::BadShape);
        }
        Ok(LabelledMemory {
            shape,
            blocks: free_blocks(alloc, shape)?,
            next: serial,
        })
    }

    /// How many slots the running erase of a block has had; 0 where none runs, or there is no such block.
    pub fn erasing(&self, block: u32) -> u32
        ensures { result ≡ (marked_at self.now.blocks block).erasing }
    {
        let block = block as usize;
        if block < self.blocks.len() {
            self.blocks[block].erasing
        } else {
            0
        }
    }

    /// What a cell holds, if it is programmed and there.
    pub fn cell(&self, place: Place) -> Option<MarkedCell>
        ensures { result ≡ slice_get (marked_at self.now.blocks place.block).cells place.page }
    {
        let block = place.block as usize;
        if block < self.blocks.len() {
            self.blocks[block].cells.get(place.page as usize).copied()
        } else {
            None
        }
    }

    /// A programmed cell loses its label and its bytes, as one whose program was cut, or of a block that was in erase.
    /// Where the cell isn't programmed nothing changes.
    pub fn tear(&mut self, place: Place)
        ensures { self.new ≡ with_torn place self.old }
    {
        let block = place.block as usize;
        if block < self.blocks.len() {
            tear_cell(&mut self.blocks[block], place.page as usize);
        }
    }

    /// The power went, and has come again. No cell counts as free: each block is closed, by cells without a label where
    /// it had fewer than its pages, and none is in erase. Erases are counted from here on, and programs are numbered
    /// from 0 on, until the owner says otherwise (`number_from`).
    ///
    /// A cell with a label keeps it. What a call that was cut has torn, [`tear`](LabelledMemory::tear) says.
    pub fn power_comes(&mut self)
        ensures comes { self.new ≡ powered_up self.old }
        ensures powered { IsPoweredUp self.new.shape (device_blocks self.new)
            (device_labels self.new) 0 }
    {
        let pages = self.shape.pages;
        for block in self.blocks.iter_mut() {
            close_block(block, pages);
        }
        self.next = 0;
    }
}

/// A cell of a block loses its label and its bytes, if it is programmed.
fn tear_cell(block: &mut MarkedBlock, page: usize)
    ensures cells { block.new.cells.items ≡ slice_set block.old.cells.items page torn_cell }
    ensures capacity { vec_capacity block.new.cells ≡ vec_capacity block.old.cells }
    ensures erasing { block.new.erasing ≡ block.old.erasing }
    ensures erases { block.new.erases ≡ block.old.erases }
{
    if page < block.cells.len() {
        block.cells[page] = TORN;
    }
}

/// The block counts as closed, with `pages` pages, for which it has room.
fn close_block(block: &mut MarkedBlock, pages: u32)
    requires within { length block.old.cells.items ≤ pages }
    requires room { pages ≤ vec_capacity block.old.cells }
    ensures closed { cells_of block.new ≡ closed_cells pages (cells_of block.old) }
    ensures capacity { vec_capacity block.new.cells ≡ vec_capacity block.old.cells }
{
    for _ in block.cells.len()..pages as usize {
        block.cells.push_reserved(TORN);
    }
    block.erasing = 0;
    block.erases = 0;
}

/// Blocks of which no page is programmed, with room for all.
fn free_blocks(alloc: Global, shape: Shape) -> Result<Vec<MarkedBlock>, Refusal>
    requires { 0 < shape.erase_slots }
    ensures blocks { IfOk result (λ blocks.
        map cells_of blocks.items ≡ replicate shape.blocks no_cells) }
    ensures sound { IfOk result (λ blocks.
        All (IsSoundBlock shape.pages shape.erase_slots) blocks.items) }
    ensures refused { FailsForMemory result }
{
    let mut blocks = Vec::new(alloc);
    for _ in 0..shape.blocks {
        blocks.push(MarkedBlock {
            cells: Vec::with_capacity(alloc, shape.pages as usize)?,
            erasing: 0,
            erases: 0,
        })?;
    }
    Ok(blocks)
}

/// Programs the next cell of a block, for which there is room.
fn program_cell(block: &mut MarkedBlock, cell: MarkedCell)
    requires room { length block.old.cells.items < vec_capacity block.old.cells }
    ensures cells { block.new.cells.items ≡ block.old.cells.items ++ cell ∷ [] }
    ensures capacity { vec_capacity block.new.cells ≡ vec_capacity block.old.cells }
    ensures erasing { block.new.erasing ≡ block.old.erasing }
    ensures erases { block.new.erases ≡ block.old.erases }
{
    block.cells.push_reserved(cell);
}

/// One slot of the erase of a block; says whether it was the last.
fn erase_block(block: &mut MarkedBlock, slots: u32) -> bool
    requires within { block.old.erasing < slots }
    requires few_erases { block.old.erases < 4294967295 }
    ensures last { result ≡ (block.old.erasing + 1 == slots) }
    ensures cells { block.new.cells.items ≡ (if result then [] else block.old.cells.items) }
    ensures erasing { block.new.erasing ≡ (if result then 0 else block.old.erasing + 1) }
    ensures erases { block.new.erases
        ≡ (if result then block.old.erases + 1 else block.old.erases) }
    ensures capacity { vec_capacity block.new.cells ≡ vec_capacity block.old.cells }
{
    let done = block.erasing + 1;
    if done < slots {
        block.erasing = done;
        return false;
    }
    block.cells.clear();
    block.erasing = 0;
    block.erases += 1;
    true
}

impl Nand for LabelledMemory {
    ghost use Rattle.std.specs.Prelude.{true};
    ghost use Rattle.labelled_nand.specs.Memory.{device_blocks, EndsMarked};

    ghost shape_of = { λ m. m.shape };

    ghost blocks = { λ m. device_blocks m };

    ghost failures = { λ _. 0 };

    ghost ends = { EndsMarked };

    ghost never_fails = { true };

    fn shape(&self) -> Shape {
        self.shape
    }

    fn read(&mut self, place: Place) -> Result<PageData, Refusal> {
        match self.blocks[place.block as usize]
            .cells
            .get(place.page as usize)
        {
            Some(cell) => Ok(cell.bytes),
            // A page that may be read is programmed.
            None => unreachable!(),
        }
    }

    fn program(&mut self, place: Place, bytes: PageData) -> Result<(), Refusal> {
        program_cell(
            &mut self.blocks[place.block as usize],
            MarkedCell { bytes, label: None },
        );
        Ok(())
    }

    fn program_page(&mut self, place: Place, page: u32, bytes: PageData) -> Result<(), Refusal> {
        let label = Some(Label {
            page,
            serial: self.next,
        });
        program_cell(
            &mut self.blocks[place.block as usize],
            MarkedCell { bytes, label },
        );
        self.next = self.next.saturating_add(1);
        Ok(())
    }

    fn erase_slot(&mut self, block: u32) -> Result<bool, Refusal> {
        let slots = self.shape.erase_slots;
        Ok(erase_block(&mut self.blocks[block as usize], slots))
    }
}

impl LabelledNand for LabelledMemory {
    ghost use Rattle.std.specs.Prelude.{⊤};
    ghost use Rattle.labelled_nand.specs.Memory.{device_labels};

    ghost labels = { device_labels };

    // it keeps nothing beside its cells
    ghost lasts = { λ _. ⊤ };

    ghost follows = { λ before after call ended. ended.labels };

    ghost keeps = { λ before after call well ended lasts. lasts };

    fn number_from(&mut self, serial: u64) {
        self.next = serial;
    }

    fn look(&mut self, place: Place) -> Result<Look, Refusal> {
        match self.blocks[place.block as usize]
            .cells
            .get(place.page as usize)
        {
            None => Ok(Look::Blank),
            Some(cell) => match cell.label {
                None => Ok(Look::Torn),
                Some(label) => Ok(Look::Good {
                    label,
                    bytes: cell.bytes,
                }),
            },
        }
    }
}
