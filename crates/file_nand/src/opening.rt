//! A device is opened: what its store has, as its power comes.

ghost use Rattle.std.specs.Prelude.{◌≡◌, ◌≢◌, ◌↔◌, ◌-◌, ◌<◌, ◌≤◌, ℕ, Err, Some, None, IfOk, IfErr, IfSome, OnOk, length, replicate};
ghost use Rattle.flash_die.specs.Flash.{IsNextCell, block_at, blocks_after_program, free_block};
ghost use Rattle.labelled_nand.specs.Memory.{device_blocks, device_labels, no_cells};
ghost use Rattle.labelled_nand.specs.PoweredUp.{IsPoweredUp};
ghost use Rattle.saving_nand.specs.Saving.{IsLeftFor};
ghost use Rattle.saving_nand.specs.declared.saved.Saved.{Saved as Stood};
ghost use Rattle.slot_types.specs.Shapes.{IsShape};
ghost use Rattle.file_nand.specs.Filed.{filed_blocks, filed_labels};
ghost use Rattle.file_nand.specs.Opened.{IsFilled, IsOfPart, filled_on_part};

use crate::cells::CellStore;
use crate::file_nand::FileNand;
use crate::records::cell_of;
use crate::saves::{NoSaved, saved_in};
use flash_die::Nand;
use labelled_nand::{LabelledMemory, LabelledNand, MarkedCell};
use saving_nand::{Saved, SavingNand};
use slot_types::{Place, Refusal, Shape};
use std::alloc::Global;
use std::io;
use std::io::ErrorKind;

/// Why a device isn't opened.
#[derive(Drop)]
pub enum OpenRefusal {
    /// The shape is out of its limits.
    BadShape,
    /// Memory was asked for and not had.
    NoMemory,
    /// A cell can't be read.
    Fault(io::Error),
}

/// Programs the next cell of a block, with the label that it has.
fn put(mirror: &mut LabelledMemory, place: Place, cell: MarkedCell)
    requires next { IsNextCell (device_blocks mirror.old) mirror.old.shape.pages place }
    ensures blocks { device_blocks mirror.new
        ≡ blocks_after_program (device_blocks mirror.old) place.block cell.bytes }
    ensures shape { mirror.new.shape ≡ mirror.old.shape }
{
    // A device in memory never fails.
    match cell.label {
        Some(label) => {
            mirror.number_from(label.serial);
            match mirror.program_page(place, label.page, cell.bytes) {
                Ok(()) => {}
                Err(_) => unreachable!(),
            }
        }
        None => match mirror.program(place, cell.bytes) {
            Ok(()) => {}
            Err(_) => unreachable!(),
        },
    }
}

/// Programs the first `cells` cells of a free block, as the store has them.
fn fill_block<S: CellStore>(
    mirror: &mut LabelledMemory,
    store: &mut S,
    block: u32,
    cells: u32,
) -> io::Result<()>
    requires in_range { block < length (device_blocks mirror.old) }
    requires free { block_at (device_blocks mirror.old) block ≡ free_block }
    requires cells { cells ≤ mirror.old.shape.pages }
    ensures count { length (device_blocks mirror.new) ≡ length (device_blocks mirror.old) }
    ensures filled { OnOk result (IsFilled cells (block_at (device_blocks mirror.new) block)) }
    ensures others { (other : ℕ) → other ≢ block
        → block_at (device_blocks mirror.new) other ≡ block_at (device_blocks mirror.old) other }
    ensures shape { mirror.new.shape ≡ mirror.old.shape }
{
    for page in 0..cells {
        let place = Place { block, page };
        let record = store.read_cell(place)?;
        put(mirror, place, cell_of(place, &record));
    }
    Ok(())
}

/// Programs all cells of a fresh device as the store has them.
fn fill<S: CellStore>(mirror: &mut LabelledMemory, store: &mut S) -> io::Result<()>
    requires fresh { mirror.old.blocks ≡ replicate mirror.old.shape.blocks no_cells }
    ensures shape { mirror.new.shape ≡ mirror.old.shape }
{
    let Shape { blocks, pages, .. } = mirror.shape();
    for block in 0..blocks {
        fill_block(mirror, store, block, pages)?;
    }
    Ok(())
}

/// How many cells of a block are programmed, of a part of this shape, by what was saved.
fn filled_of(saved: &Saved, shape: Shape, block: u32) -> u32
    requires part { IsOfPart shape saved.now }
    requires block { block < shape.blocks }
    ensures filled { result ≡ filled_on_part (shape.blocks - 1) saved.now.aside
        saved.now.checkpoint.blocks block }
    ensures within { result ≤ shape.pages }
{
    if block == saved.aside {
        return 0;
    }
    let own = if block == shape.blocks - 1 {
        saved.aside
    } else {
        block
    };
    match saved.checkpoint.blocks.get(own as usize) {
        Some(counts) => counts.filled,
        None => unreachable!(),
    }
}

/// Programs the cells of a fresh device that were programmed when this was saved, as the store has them.
fn fill_saved<S: CellStore>(
    mirror: &mut LabelledMemory,
    store: &mut S,
    saved: &Saved,
) -> io::Result<()>
    requires fresh { mirror.old.blocks ≡ replicate mirror.old.shape.blocks no_cells }
    requires part { IsOfPart mirror.old.shape saved.now }
    ensures left { OnOk result (IsLeftFor mirror.new.shape (device_blocks mirror.new)
        (device_labels mirror.new) 0 saved.now) }
    ensures shape { mirror.new.shape ≡ mirror.old.shape }
{
    let shape = mirror.shape();
    for block in 0..shape.blocks {
        let cells = filled_of(saved, shape, block);
        fill_block(mirror, store, block, cells)?;
    }
    Ok(())
}

/// What the store has saved of a device of this shape, if it is whole.
fn saved_of<S: CellStore>(
    alloc: Global,
    shape: Shape,
    store: &mut S,
) -> Result<Option<Saved>, OpenRefusal>
    ensures part { IfOk result (λ saved. IfSome saved (IsOfPart shape)) }
    ensures shaped { IfErr result (λ no. ¬ (no ≡ OpenRefusal.BadShape)) }
{
    let bytes = match store.read_saved(alloc) {
        Ok(bytes) => bytes,
        Err(error) if error.kind() == ErrorKind::OutOfMemory => return Err(OpenRefusal::NoMemory),
        Err(error) => return Err(OpenRefusal::Fault(error)),
    };
    match saved_in(alloc, shape, bytes.as_slice()) {
        Ok(saved) => Ok(Some(saved)),
        Err(NoSaved::None) => Ok(None),
        Err(NoSaved::NoMemory) => Err(OpenRefusal::NoMemory),
    }
}

/// A fresh device is filled as the store has its cells: those that were programmed when this was saved, or all, as those
/// of a device whose power comes. Programs are numbered from 0 on.
fn filled<S: CellStore>(
    mirror: LabelledMemory,
    store: &mut S,
    saved: &Option<Saved>,
) -> io::Result<LabelledMemory>
    requires fresh { mirror.blocks ≡ replicate mirror.shape.blocks no_cells }
    requires part { IfSome saved.now (IsOfPart mirror.shape) }
    ensures left { IfOk result (λ filled. (one : Stood) → saved.now ≡ Some one
        → IsLeftFor filled.shape (device_blocks filled) (device_labels filled) 0 one) }
    ensures powered { IfOk result (λ filled. saved.now ≡ None
        → IsPoweredUp filled.shape (device_blocks filled) (device_labels filled) 0) }
    ensures shape { IfOk result (λ filled. filled.shape ≡ mirror.shape) }
    ensures next { IfOk result (λ filled. filled.next ≡ 0) }
{
    let mut mirror = mirror;
    match saved {
        Some(saved) => {
            fill_saved(&mut mirror, store, saved)?;
            mirror.number_from(0);
        }
        None => {
            fill(&mut mirror, store)?;
            mirror.power_comes();
        }
    }
    Ok(mirror)
}

impl<S: CellStore> FileNand<S> {
    /// The device of this shape whose cells the store has, as its power has come. Where a clean shutdown was saved whole,
    /// and not voided since, that is saved on it, and the cells are as they were left then: each that was programmed has
    /// its label and its bytes, where it is good, and the others are free. Else the device is one that was powered up. It
    /// reads each cell once, or those alone that were programmed.
    ///
    /// Refused, in this order: `BadShape`, where the shape is out of its limits; then `NoMemory`, or `Fault` with what can't
    /// be read. Nothing in the store has changed then.
    pub fn open_saved(alloc: Global, shape: Shape, store: S) -> Result<FileNand<S>, OpenRefusal>
        ensures ready { IfOk result (λ d. d.saved ≡ None
            → IsPoweredUp shape (filed_blocks d) (filed_labels d) d.failed) }
        ensures well { IfOk result (λ d. d.failed ≡ 0) }
        ensures shape { IfOk result (λ d. d.marked.shape ≡ shape) }
        ensures bad_shape { (result ≡ Err OpenRefusal.BadShape) ↔ ¬ IsShape shape }
    {
        let mut store = store;
        let mirror = match LabelledMemory::new(alloc, shape, 0) {
            Ok(mirror) => mirror,
            Err(Refusal::BadShape) => return Err(OpenRefusal::BadShape),
            Err(_) => return Err(OpenRefusal::NoMemory),
        };
        let saved = match saved_of(alloc, shape, &mut store) {
            Ok(saved) => saved,
            Err(refusal) => return Err(refusal),
        };
        match filled(mirror, &mut store, &saved) {
            Ok(mirror) => {
                let may_have = saved.is_some();
                Ok(FileNand {
                    mirror,
                    store,
                    failed: 0,
                    next: 0,
                    saved,
                    may_have,
                })
            }
            Err(error) => Err(OpenRefusal::Fault(error)),
        }
    }

    /// As [`open_saved`](FileNand::open_saved), for a mount alone: what is saved is void from now on, and the device is one
    /// that was powered up: a cell that is good has its label and its bytes, and each other one is without a label.
    ///
    /// Refused as that is, and with `Fault` where what is saved can't be voided.
    pub fn open(alloc: Global, shape: Shape, store: S) -> Result<FileNand<S>, OpenRefusal>
        ensures powered { IfOk result (λ d. IsPoweredUp shape (filed_blocks d) (filed_labels d) d.failed) }
        ensures void { IfOk result (λ d. d.saved ≡ None) }
        ensures shape { IfOk result (λ d. d.marked.shape ≡ shape) }
        ensures bad_shape { (result ≡ Err OpenRefusal.BadShape) ↔ ¬ IsShape shape }
    {
        let mut device = match FileNand::open_saved(alloc, shape, store) {
            Ok(device) => device,
            Err(refusal) => return Err(refusal),
        };
        match device.take_saved() {
            Ok(_) => {}
            Err(_) => return Err(OpenRefusal::Fault(io::Error::from(ErrorKind::Other))),
        }
        device.count_as_closed();
        Ok(device)
    }
}
