//! A table on a part: before anything is done there, and once its power has come.

ghost use Rattle.std.specs.Prelude.{◌≡◌, ◌<◌, ◌≤◌, false, length, IfOk, IfErr, OnOk};
ghost use Rattle.spare_blocks.specs.Parts.{FaultsAlone, part_block};
ghost use Rattle.spare_blocks.specs.Powering.{IsPoweredPart, IsPoweredTable, mark_in};
ghost use Rattle.spare_blocks.specs.Preparing.{IsNewRefusal, IsPrepareRefusal, IsPrepared, IsWholePart};
ghost use Rattle.spare_blocks.specs.Spares.{plan_shape};
ghost use Rattle.stepped_spares.specs.Telling.{IsWholeScan, Tells};

use crate::erased::erase_first;
use crate::moves::Stage;
use crate::scan::LabelScan;
use crate::table::SpareTable;
use slot_types::{Place, Refusal, Shape};
use spare_blocks::{Cell, LabelledWearing, Mark, WearingNand};
use std::alloc::Global;

/// The table of a part on which nothing was done yet, once each of its blocks that isn't listed as bad was erased.
/// Where it is at work it is as `SpareBlocks::new` leaves it: so many blocks have numbers, and these and the spare ones
/// are free.
pub fn begin_on<D: WearingNand>(
    alloc: Global,
    part: &mut D,
    blocks: u32,
    bad: &[u32],
) -> Result<SpareTable, Refusal>
    requires well { D.faulted part.old ≡ false }
    requires whole { IsWholePart (D.shape_of part.old).blocks (D.blocks part.old) }
    ensures prepared { IfOk result (λ spares. spares.stage ≡ Stage.Working
        → IsPrepared blocks bad.now spares.table (D.blocks part.new)) }
    ensures count { IfOk result (λ spares. spares.stage ≡ Stage.Working
        → length spares.table.blocks ≡ blocks) }
    ensures shape { D.shape_of part.new ≡ D.shape_of part.old }
{
    let whole = part.shape();
    let shape = Shape {
        blocks,
        pages: whole.pages,
        erase_slots: whole.erase_slots,
    };
    let mut spares = SpareTable::new(alloc, shape, whole.blocks, bad)?;
    erase_first(part, &mut spares);
    Ok(spares)
}

/// The labels in the cells of a block.
fn labels_of<D: LabelledWearing>(
    alloc: Global,
    part: &mut D,
    block: u32,
    pages: u32,
) -> Result<Vec<Option<Mark>>, Refusal>
    requires quiet { (part_block (D.blocks part.old) block).erasing ≡ 0 }
    requires closed { length (part_block (D.blocks part.old) block).cells ≡ pages }
    requires well { D.faulted part.old ≡ false }
    ensures tells { IfOk result (λ labels. Tells labels.items (part_block (D.blocks part.old) block)) }
    ensures count { IfOk result (λ labels. length labels.items ≡ pages) }
    ensures blocks { OnOk result (D.blocks part.new ≡ D.blocks part.old) }
    ensures well { OnOk result (D.faulted part.new ≡ false) }
    ensures shape { D.shape_of part.new ≡ D.shape_of part.old }
{
    let mut labels = Vec::new(alloc);
    for page in 0..pages {
        let cell = part.look(Place { block, page })?;
        labels.push(mark_in(cell))?;
    }
    Ok(labels)
}

/// A scan to which all blocks were reported.
fn scan_of<D: LabelledWearing>(
    alloc: Global,
    part: &mut D,
    shape: Shape,
    bad: &[u32],
) -> Result<LabelScan, Refusal>
    requires powered { IsPoweredPart (D.shape_of part.old) (D.blocks part.old) }
    requires pages { shape.pages ≡ (D.shape_of part.old).pages }
    requires well { D.faulted part.old ≡ false }
    ensures scan { IfOk result (λ scan.
        IsWholeScan shape (D.shape_of part.old).blocks bad.now (D.blocks part.old) scan) }
    ensures blocks { OnOk result (D.blocks part.new ≡ D.blocks part.old) }
    ensures well { OnOk result (D.faulted part.new ≡ false) }
    ensures shape { D.shape_of part.new ≡ D.shape_of part.old }
{
    let blocks = part.shape().blocks;
    let mut scan = LabelScan::new(alloc, shape, blocks, bad)?;
    for block in 0..blocks {
        let labels = labels_of(alloc, part, block, shape.pages)?;
        if scan.tell(labels.as_slice()).is_err() {
            unreachable!();
        }
    }
    Ok(scan)
}

/// The table of a part whose power has come. Where it is at work it is as `SpareBlocks::power_up` leaves it: numbers by
/// labels, no label lost but those that stand twice, and each spare block free.
pub fn power_up_on<D: LabelledWearing>(
    alloc: Global,
    part: &mut D,
    blocks: u32,
    bad: &[u32],
) -> Result<SpareTable, Refusal>
    requires powered { IsPoweredPart (D.shape_of part.old) (D.blocks part.old) }
    requires well { D.faulted part.old ≡ false }
    ensures powered { IfOk result (λ spares. spares.stage ≡ Stage.Working
        → IsPoweredTable (plan_shape blocks (D.shape_of part.old)) bad.now spares.table (D.shape_of part.old)
        (D.blocks part.old) (D.blocks part.new)) }
    ensures shape { D.shape_of part.new ≡ D.shape_of part.old }
{
    let whole = part.shape();
    let shape = Shape {
        blocks,
        pages: whole.pages,
        erase_slots: whole.erase_slots,
    };
    let scan = scan_of(alloc, part, shape, bad)?;
    let mut spares = scan.finish(alloc)?;
    erase_first(part, &mut spares);
    Ok(spares)
}

/// The label of a cell, if it has one.
fn mark_in(cell: Option<Cell>) -> Option<Mark>
    ensures { result ≡ mark_in cell }
{
    match cell {
        Some(cell) => cell.mark,
        None => None,
    }
}
