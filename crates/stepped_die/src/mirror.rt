//! A device in memory that says what its calls do.

ghost use Rattle.std.specs.Prelude.{◌≡◌, ◌==◌, ◌+◌, ◌<◌, ◌≤◌, [], length, map, IfOk, slice_set};
ghost use Rattle.slot_types.specs.Refusal.{FailsForMemory};
ghost use Rattle.slot_types.specs.Shapes.{IsShape};
ghost use Rattle.page_map.specs.Placing.{IsCell};
ghost use Rattle.die_checkpoint.specs.Fits.{Fits};
ghost use Rattle.flash_die.specs.Flash.{cell_at, block_at};
ghost use Rattle.flash_die.specs.Memory.{fresh_memory};
ghost use Rattle.stepped_die.specs.Names.{name_in, names_in, memory_left};

use die_checkpoint::{BlockCounts, Checkpoint};
use flash_die::{MemoryNand, Nand};
use page_map::PageMap;
use slot_types::{DiePlan, PageData, Place, Refusal, Shape};
use std::alloc::Global;

/// A device in memory, which never fails. Its contract says of each call that is made what it does to the cells.
#[derive(Drop)]
pub struct MirrorNand {
    memory: MemoryNand,
}

impl MirrorNand {
    /// A fresh device, as [`MemoryNand::new`] makes it.
    pub fn new(alloc: Global, shape: Shape) -> Result<MirrorNand, Refusal>
        ensures fresh { IfOk result (λ device. device.memory ≡ fresh_memory shape) }
        ensures refused { IsShape shape → FailsForMemory result }
    {
        Ok(MirrorNand {
            memory: MemoryNand::new(alloc, shape)?,
        })
    }

    /// A device as a checkpoint that fits the plan says that one was left. The cell of each placed page holds the page's
    /// name; a cell in which no page lies, and that of a page beyond the names, is blank. Refused with `NoMemory` alone.
    pub fn left(
        alloc: Global,
        plan: &DiePlan,
        checkpoint: &Checkpoint,
        names: &[PageData],
    ) -> Result<MirrorNand, Refusal>
        requires { Fits plan.now checkpoint.now }
        ensures left { IfOk result (λ device.
            device.memory ≡ memory_left plan.now.shape checkpoint.now names.now) }
        ensures refused { FailsForMemory result }
    {
        let map = match PageMap::of_places(alloc, plan.shape, checkpoint.places.as_slice()) {
            Ok(map) => map,
            Err(_) => return Err(Refusal::NoMemory),
        };
        let blocks = checkpoint.blocks.as_slice();
        let filled = vec![in alloc; 0; blocks.len()]?;
        let erases = erases_of(alloc, blocks)?;
        let mut memory = match MemoryNand::left(
            alloc,
            plan.shape,
            Vec::new(alloc),
            filled.as_slice(),
            erases.as_slice(),
        ) {
            Ok(memory) => memory,
            Err(_) => return Err(Refusal::NoMemory),
        };
        for block in 0..blocks.len() {
            fill_block(&mut memory, &map, names, block as u32, blocks[block].filled);
        }
        Ok(MirrorNand { memory })
    }

    /// What a cell was programmed with; one that is free is blank.
    pub fn cell(&self, place: Place) -> PageData
        ensures { result ≡ cell_at self.now.memory.blocks place }
    {
        self.memory.cell(place)
    }

    /// How often a block was erased.
    pub fn erases(&self, block: u32) -> u32
        ensures { result ≡ (block_at self.now.memory.blocks block).erases }
    {
        self.memory.erases(block)
    }

    /// Whether the next slot of the block's erase is its last.
    pub fn ends_erase(&self, block: u32) -> bool
        ensures { result
            ≡ ((block_at self.now.memory.blocks block).erasing
            + 1 == self.now.memory.shape.erase_slots) }
    {
        self.memory.ends_erase(block)
    }
}

impl Nand for MirrorNand {
    ghost use Rattle.std.specs.Prelude.{true};
    ghost use Rattle.stepped_die.specs.DeviceCalls.{DoesWell};

    ghost shape_of = { λ d. d.memory.shape };

    ghost blocks = { λ d. d.memory.blocks };

    ghost failures = { λ _. 0 };

    ghost ends = { λ d call well e. DoesWell d.memory call well e.memory };

    ghost never_fails = { true };

    fn shape(&self) -> Shape {
        self.memory.shape()
    }

    fn read(&mut self, place: Place) -> Result<PageData, Refusal> {
        self.memory.read(place)
    }

    fn program(&mut self, place: Place, bytes: PageData) -> Result<(), Refusal> {
        self.memory.program(place, bytes)
    }

    fn program_page(&mut self, place: Place, page: u32, bytes: PageData) -> Result<(), Refusal> {
        self.memory.program_page(place, page, bytes)
    }

    fn erase_slot(&mut self, block: u32) -> Result<bool, Refusal> {
        self.memory.erase_slot(block)
    }
}

/// By block its erases.
fn erases_of(alloc: Global, blocks: &[BlockCounts]) -> Result<Vec<u32>, Refusal>
    ensures erases { IfOk result (λ erases. erases.items ≡ map (λ block. block.erases) blocks.now) }
    ensures refused { FailsForMemory result }
{
    let mut erases = Vec::new(alloc);
    for block in blocks {
        erases.push(block.erases)?;
    }
    Ok(erases)
}

/// The name of the page that lies in a cell; blank where none lies there.
fn name_in(map: &PageMap, names: &[PageData], block: u32, page: u32) -> PageData
    requires { IsCell map.now.shape (record { block = block; page = page }) }
    ensures { result ≡ name_in map.now.places names.now block page }
{
    match map.owner(Place { block, page }) {
        None => PageData::BLANK,
        Some(owner) => match names.get(owner as usize) {
            None => PageData::BLANK,
            Some(name) => *name,
        },
    }
}

/// Programs the first cells of a block of which none is programmed.
fn fill_block(memory: &mut MemoryNand, map: &PageMap, names: &[PageData], block: u32, filled: u32)
    requires shape { map.now.shape ≡ memory.old.shape }
    requires in_range { block < length memory.old.blocks }
    requires in_shape { block < memory.old.shape.blocks }
    requires free { (block_at memory.old.blocks block).pages ≡ [] }
    requires quiet { (block_at memory.old.blocks block).erasing ≡ 0 }
    requires within { filled ≤ memory.old.shape.pages }
    ensures shape { memory.new.shape ≡ memory.old.shape }
    ensures blocks { memory.new.blocks ≡ slice_set memory.old.blocks block
        (record (block_at memory.old.blocks
        block) { pages = names_in map.now.places names.now block filled }) }
{
    for page in 0..filled {
        match memory.program(Place { block, page }, name_in(map, names, block, page)) {
            Ok(()) => {}
            // A device in memory never fails.
            Err(_) => unreachable!(),
        }
    }
}
