//! The scan of a part: what its cells show is reported to a mount.

ghost use Rattle.std.specs.Prelude.{◌≡◌, ◌≢◌, ◌+◌, ◌<◌, ◌≤◌, ◌↔◌, ℕ, [], Option, option_map, length, IsTrue, IfOk, IfErr, OnOk, OnErr};
ghost use Rattle.std.specs.Prelude.{vec_capacity};
ghost use Rattle.slot_types.specs.declared.pages.PageData.{PageData};
ghost use Rattle.flash_die.specs.Flash.{block_at};
ghost use Rattle.power_loss.specs.Aside.{part_of};
ghost use Rattle.power_loss.specs.Labels.{Label as Stands, Shown};
ghost use Rattle.die_mount.specs.Faults.{IsMountPlan};
ghost use Rattle.die_mount.specs.Scanned.{IsScanOf};
ghost use Rattle.die_mount.specs.Told.{HaveFitLabels, told_cells, told_label};
ghost use Rattle.labelled_nand.specs.Looks.{Shows};
ghost use Rattle.labelled_die.specs.Scanning.{blocks_shown, cells_shown, shown_by, IsSamePart, IsUntold, RefusesBlock, RefusesScan};

use die_mount::{Label, MountFault, Scan, ScanFault};
use labelled_nand::{LabelledNand, Look};
use plan_rules::bound;
use slot_types::{DiePlan, MAX_BLOCKS, Place, Refusal, Shape};
use std::alloc::Global;

/// Why a part isn't scanned.
#[derive(Clone, Copy, PartialEq, Eq, Debug, Drop)]
pub enum PartFault {
    /// The plan may not be used, or it leaves no block of a part's 1,024 aside.
    BadPlan,
    /// The part's shape isn't the plan's with one block more.
    OtherShape,
    /// Memory was asked for and not had.
    NoMemory,
    /// A cell has a label of a page that the plan doesn't have, or with a serial of 2^63 or more: the first such cell.
    OtherLabel { block: u32, cell: u32 },
    /// The part failed.
    DeviceFault,
}

/// The label of a good cell.
fn label_of(look: Look) -> Option<Label>
    ensures { (x : Option Stands) (held : PageData) → Shows x held look
        → result ≡ option_map told_label x }
{
    match look {
        Look::Good { label, .. } => Some(label),
        Look::Torn => None,
        Look::Blank => None,
    }
}

/// What the cells of a block show, in the place of what the list had: by cell its label, or none. The list takes no
/// memory: it has room for the block's pages. Refused with `DeviceFault` where the part failed.
pub fn look_at<N: LabelledNand>(
    part: &mut N,
    block: u32,
    pages: u32,
    cells: &mut Vec<Option<Label>>,
) -> Result<(), Refusal>
    requires in_range { block < length (N.blocks part.old) }
    requires pages { pages ≡ (N.shape_of part.old).pages }
    requires quiet { (block_at (N.blocks part.old) block).erasing ≡ 0 }
    requires well { N.failures part.old ≡ 0 }
    requires room { pages ≤ vec_capacity cells.old }
    ensures cells { OnOk result (cells.new.items
        ≡ told_cells (cells_shown (N.labels part.old).blocks block pages)) }
    ensures same { OnOk result (IsSamePart N.shape_of N.failures N.blocks N.labels part.old
        part.new) }
    ensures lasts { N.lasts part.old → N.lasts part.new }
    ensures room { vec_capacity cells.new ≡ vec_capacity cells.old }
    ensures fault { OnErr result (N.failures part.new ≡ 1) }
{
    cells.clear();
    for page in 0..pages {
        match part.look(Place { block, page }) {
            Ok(look) => cells.push_reserved(label_of(look)),
            Err(refusal) => return Err(refusal),
        }
    }
    Ok(())
}

/// Whether this is a plan of a die that leaves one of a part's blocks aside, and may be used.
fn is_mount_plan(plan: &DiePlan) -> bool
    ensures { IsTrue result ↔ IsMountPlan plan.now }
{
    bound(plan).is_ok() && plan.shape.blocks < MAX_BLOCKS
}

/// A scan of a part of this shape, to which nothing was reported yet.
fn first_scan(alloc: Global, plan: &DiePlan, shape: Shape) -> Result<Scan, PartFault>
    ensures scan { IfOk result (λ scan. IsScanOf (part_of plan.now) scan []) }
    ensures untold { IfOk result (λ scan. IsUntold scan.erases) }
    ensures plan { OnOk result (IsMountPlan plan.now) }
    ensures shape { OnOk result (shape ≡ (part_of plan.now).shape) }
    ensures fault { IfErr result (λ fault. (blocks : Shown) (failures : ℕ)
        → RefusesScan plan.now shape blocks failures fault) }
{
    if !is_mount_plan(plan) {
        return Err(PartFault::BadPlan);
    }
    let own = Shape {
        blocks: plan.shape.blocks + 1,
        pages: plan.shape.pages,
        erase_slots: plan.shape.erase_slots,
    };
    if shape != own {
        return Err(PartFault::OtherShape);
    }
    match Scan::new(alloc, plan) {
        Ok(scan) => Ok(scan),
        Err(MountFault::NoMemory) => Err(PartFault::NoMemory),
        Err(MountFault::BadPlan) => unreachable!(),
    }
}

/// Looks at each cell of the next block, and reports the labels to the scan.
fn tell_block<N: LabelledNand>(
    part: &mut N,
    plan: &DiePlan,
    block: u32,
    cells: &mut Vec<Option<Label>>,
    scan: &mut Scan,
) -> Result<(), PartFault>
    requires shape { N.shape_of part.old ≡ (part_of plan.now).shape }
    requires in_range { block < length (N.blocks part.old) }
    requires more { block < (N.shape_of part.old).blocks }
    requires quiet { (block_at (N.blocks part.old) block).erasing ≡ 0 }
    requires well { N.failures part.old ≡ 0 }
    requires room { plan.now.shape.pages ≤ vec_capacity cells.old }
    requires scan { IsScanOf (part_of plan.now) scan.old
        (blocks_shown (N.labels part.old).blocks plan.now.shape.pages block) }
    requires untold { IsUntold scan.old.erases }
    ensures scan { OnOk result (IsScanOf (part_of plan.now) scan.new
        (blocks_shown (N.labels part.old).blocks plan.now.shape.pages (block + 1))) }
    ensures untold { OnOk result (IsUntold scan.new.erases) }
    ensures fit { OnOk result (HaveFitLabels plan.now.logical
        (told_cells (cells_shown (N.labels part.old).blocks block plan.now.shape.pages))) }
    ensures same { OnOk result (IsSamePart N.shape_of N.failures N.blocks N.labels part.old
        part.new) }
    ensures unchanged { IfErr result (λ fault. fault ≢ PartFault.DeviceFault
        → IsSamePart N.shape_of N.failures N.blocks N.labels part.old part.new) }
    ensures lasts { N.lasts part.old → N.lasts part.new }
    ensures room { vec_capacity cells.new ≡ vec_capacity cells.old }
    ensures fault { IfErr result (RefusesBlock plan.now (N.labels part.old).blocks block
        (N.failures part.new)) }
{
    if look_at(part, block, plan.shape.pages, cells).is_err() {
        return Err(PartFault::DeviceFault);
    }
    match scan.tell(cells.as_slice(), None) {
        Ok(()) => Ok(()),
        Err(ScanFault::BadLabel { cell }) => Err(PartFault::OtherLabel { block, cell }),
        // There are as many blocks as the scan has, and as many cells as a block has.
        Err(ScanFault::NoMoreBlocks) => unreachable!(),
        Err(ScanFault::TooManyCells) => unreachable!(),
    }
}

/// Looks at each cell of a part, and reports the labels to a scan, and of erases nothing: a device counts them from power-up
/// on. The part has one block more than the plan, and none of its blocks is in erase. It takes time for each cell once, and memory for the scan.
///
/// Refused with the first fault that stands, as [`PartFault`] lists them; nothing on the part has changed then, unless
/// the part failed.
pub fn scan<N: LabelledNand>(alloc: Global, plan: &DiePlan, part: &mut N) -> Result<Scan, PartFault>
    requires counted { length (N.blocks part.old) ≡ (N.shape_of part.old).blocks }
    requires quiet { (block : ℕ) → (block_at (N.blocks part.old) block).erasing ≡ 0 }
    requires well { N.failures part.old ≡ 0 }
    ensures scanned { IfOk result (λ scan. IsScanOf (part_of plan.now) scan
        (shown_by (N.shape_of part.old) (N.labels part.old).blocks)) }
    ensures untold { IfOk result (λ scan. IsUntold scan.erases) }
    ensures whole { IfOk result (λ scan. scan.told ≡ scan.shape.blocks) }
    ensures same { OnOk result (IsSamePart N.shape_of N.failures N.blocks N.labels part.old
        part.new) }
    ensures unchanged { IfErr result (λ fault. fault ≢ PartFault.DeviceFault
        → IsSamePart N.shape_of N.failures N.blocks N.labels part.old part.new) }
    ensures lasts { N.lasts part.old → N.lasts part.new }
    ensures plan { OnOk result (IsMountPlan plan.now) }
    ensures shape { OnOk result (N.shape_of part.old ≡ (part_of plan.now).shape) }
    ensures fit { OnOk result ((block : ℕ) → block < (N.shape_of part.old).blocks
        → HaveFitLabels plan.now.logical
        (told_cells (cells_shown (N.labels part.old).blocks block plan.now.shape.pages))) }
    ensures fault { IfErr result (RefusesScan plan.now (N.shape_of part.old)
        (N.labels part.old).blocks (N.failures part.new)) }
{
    let shape = part.shape();
    let mut scan = first_scan(alloc, plan, shape)?;
    let Ok(mut cells) = Vec::with_capacity(alloc, plan.shape.pages as usize) else {
        return Err(PartFault::NoMemory);
    };
    for block in 0..shape.blocks {
        tell_block(part, plan, block, &mut cells, &mut scan)?;
    }
    Ok(scan)
}
