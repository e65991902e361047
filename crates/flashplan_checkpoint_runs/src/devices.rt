//! Devices in memory, made from what was saved of them.

ghost use Rattle.std.specs.Prelude.{◌≡◌, ◌*◌, All, IfOk, length, map};
ghost use Rattle.slot_types.specs.Refusal.{FailsForMemory};
ghost use Rattle.slot_types.specs.Shapes.{IsShape};
ghost use Rattle.checkpoint_texts.specs.SavedDies.{checkpoint_of};
ghost use Rattle.die_checkpoint.specs.Fits.{Fits};
ghost use Rattle.flash_volume.specs.Cells.{contents};
ghost use Rattle.flash_volume.specs.Checkpoints.{IsAsLeft};
ghost use Rattle.flashplan_checkpoint_runs.specs.Devices.{LiesBelow, cells_with, cells_with_all, erases_of, fills_of, saved_cells, saved_device};
ghost use Rattle.flashplan_checkpoint_runs.specs.SavedDies.{HaveBytes, held_by};

use checkpoint_texts::{SavedDie, SavedPage};
use die_checkpoint::BlockCounts;
use flash_die::MemoryNand;
use slot_types::{DiePlan, PageData, Refusal, Shape};
use std::alloc::Global;

/// By block how many of its pages are programmed.
fn fills_in(alloc: Global, blocks: &[BlockCounts]) -> Result<Vec<u32>, Refusal>
    ensures ok { IfOk result (λ fills. fills.items ≡ fills_of blocks.now) }
    ensures refused { FailsForMemory result }
{
    let mut fills = Vec::with_capacity(alloc, blocks.len())?;
    for block in blocks {
        fills.push(block.filled)?;
    }
    Ok(fills)
}

/// By block how often it was erased.
fn erases_in(alloc: Global, blocks: &[BlockCounts]) -> Result<Vec<u32>, Refusal>
    ensures ok { IfOk result (λ erases. erases.items ≡ erases_of blocks.now) }
    ensures refused { FailsForMemory result }
{
    let mut erases = Vec::with_capacity(alloc, blocks.len())?;
    for block in blocks {
        erases.push(block.erases)?;
    }
    Ok(erases)
}

/// Puts the bytes of a page into its cell, if it lies in one.
fn put_page(shape: Shape, cells: &mut Vec<PageData>, page: &SavedPage)
    requires { LiesBelow shape (length cells.old.items) page.now }
    ensures { cells.new.items ≡ cells_with shape cells.old.items page.now.place page.now.bytes }
{
    if let Some(place) = page.place
        && let Some(bytes) = page.bytes
    {
        let at = place.block as usize * shape.pages as usize + place.page as usize;
        cells[at] = bytes;
    }
}

/// Puts the bytes of pages into their cells.
fn put_pages(shape: Shape, cells: &mut Vec<PageData>, pages: &[SavedPage])
    requires { All (LiesBelow shape (length cells.old.items)) pages.now }
    ensures { cells.new.items ≡ cells_with_all shape cells.old.items pages.now }
{
    for page in pages {
        put_page(shape, cells, page);
    }
}

/// The cells of a device, all blank but those of these pages.
fn cells_in(alloc: Global, shape: Shape, die: &SavedDie) -> Result<Vec<PageData>, Refusal>
    requires limits { IsShape shape }
    requires lie { All (LiesBelow shape (shape.blocks * shape.pages)) die.now.pages }
    ensures ok { IfOk result (λ cells. cells.items ≡ saved_cells shape die.now) }
    ensures refused { FailsForMemory result }
{
    let count = shape.blocks as usize * shape.pages as usize;
    let mut cells = Vec::new(alloc);
    cells.resize(count, PageData::BLANK)?;
    put_pages(shape, &mut cells, die.pages.as_slice());
    Ok(cells)
}

/// The device of a die that was saved: contents, counts and erases are as saved. What was in a cell in which no page lies
/// isn't kept, and is blank. The only refusal is NoMemory.
pub fn device_of(alloc: Global, plan: &DiePlan, die: &SavedDie) -> Result<MemoryNand, Refusal>
    requires fits { Fits plan.now (checkpoint_of die.now) }
    requires bytes { HaveBytes die.now.pages }
    ensures device { IfOk result (λ device. device ≡ saved_device plan.now.shape die.now) }
    ensures left { IfOk result (λ device. IsAsLeft (checkpoint_of die.now) device.blocks 0) }
    ensures holds { IfOk result (λ device.
        contents device.blocks (checkpoint_of die.now).places ≡ map held_by die.now.pages) }
    ensures refused { FailsForMemory result }
{
    let cells = cells_in(alloc, plan.shape, die)?;
    let fills = fills_in(alloc, die.blocks.as_slice())?;
    let erases = erases_in(alloc, die.blocks.as_slice())?;
    MemoryNand::left(alloc, plan.shape, cells, &fills, &erases)
}
