//! A mount that undoes a block: no block is idle, since a mount before it was cut as it copied.

ghost use Rattle.std.specs.Prelude.{◌≡◌, ◌≢◌, ◌↔◌, ◌+◌, ◌<◌, ◌≤◌, true, false, Some, IfErr, IfOk, IfSome, IsTrue, OnErr, OnOk, vec_capacity, take};
ghost use Rattle.die_mount.specs.Beginning.{IsIdleIn, IsScanned};
ghost use Rattle.die_mount.specs.Erasing.{IsFirstIdle};
ghost use Rattle.die_mount.specs.Mounting.{BeginsWith};
ghost use Rattle.die_mount.specs.Nexts.{BeginsFirst};
ghost use Rattle.die_mount.specs.Scanned.{IsScanOf};
ghost use Rattle.die_mount.specs.Told.{told_cells};
ghost use Rattle.labelled_die.specs.Scanning.{IsSamePart, IsUntold};
ghost use Rattle.power_loss.specs.Aside.{part_of};
ghost use Rattle.power_loss.specs.Labels.{FitPlan, Shown, labels_in};
ghost use Rattle.power_loss.specs.Mounted.{all_count, bytes_at};
ghost use Rattle.power_loss.specs.Recovery.{MayErase, without_block};
ghost use Rattle.part_mount.specs.OnPart.{BeginsToCount};
ghost use Rattle.device_mount.specs.Parts.{HasLabel, IsPartOf, KeepsPage, KeepsPages};
ghost use Rattle.device_mount.specs.Refusals.{LosesPage, RefusesBegin, RefusesMount};

use crate::refusals::MountRefusal;
use die_mount::{BeginFault, FirstErase, Label, Mount, MountFault, Scan};
use labelled_die::look_at;
use labelled_nand::LabelledNand;
use slot_types::{DiePlan, PageData, Place, Refusal};
use std::alloc::Global;

/// What the cells of a block show once more; of the block that is left out nothing.
fn look_again<N: LabelledNand>(
    part: &mut N,
    plan: &DiePlan,
    block: u32,
    without: u32,
    cells: &mut Vec<Option<Label>>,
) -> Result<(), Refusal>
    requires part { IsPartOf N.shape_of N.blocks N.labels N.failures plan.now part.old }
    requires block { block < plan.now.shape.blocks + 1 }
    requires room { plan.now.shape.pages ≤ vec_capacity cells.old }
    ensures cells { OnOk result (cells.new.items
        ≡ told_cells (labels_in (without_block without (N.labels part.old).blocks) block)) }
    ensures same { OnOk result (IsSamePart N.shape_of N.failures N.blocks N.labels part.old
        part.new) }
    ensures lasts { N.lasts part.old → N.lasts part.new }
    ensures room { vec_capacity cells.new ≡ vec_capacity cells.old }
    ensures failed { OnErr result (N.failures part.new ≡ 1) }
{
    if block == without {
        cells.clear();
        return Ok(());
    }
    look_at(part, block, plan.shape.pages, cells)
}

/// Goes over a block once more, and reports its labels; of the block that is left out none.
fn tell_again<N: LabelledNand>(
    part: &mut N,
    plan: &DiePlan,
    block: u32,
    without: u32,
    cells: &mut Vec<Option<Label>>,
    scan: &mut Scan,
) -> Result<(), Refusal>
    requires part { IsPartOf N.shape_of N.blocks N.labels N.failures plan.now part.old }
    requires block { block < plan.now.shape.blocks + 1 }
    requires room { plan.now.shape.pages ≤ vec_capacity cells.old }
    requires scan { IsScanOf (part_of plan.now) scan.old
        (take block (without_block without (N.labels part.old).blocks)) }
    ensures scan { OnOk result (IsScanOf (part_of plan.now) scan.new
        (take (block + 1) (without_block without (N.labels part.old).blocks))) }
    ensures same { OnOk result (IsSamePart N.shape_of N.failures N.blocks N.labels part.old
        part.new) }
    ensures lasts { N.lasts part.old → N.lasts part.new }
    ensures room { vec_capacity cells.new ≡ vec_capacity cells.old }
    ensures failed { OnErr result (N.failures part.new ≡ 1) }
{
    match look_again(part, plan, block, without, cells) {
        Ok(()) => {}
        Err(refusal) => return Err(refusal),
    }
    match scan.tell(cells.as_slice(), None) {
        Ok(()) => Ok(()),
        // The same labels were reported before.
        Err(_) => unreachable!(),
    }
}

/// The scan of the part's other blocks, once all of it was scanned.
fn scan_without<N: LabelledNand>(
    alloc: Global,
    plan: &DiePlan,
    part: &mut N,
    without: u32,
) -> Result<Scan, MountRefusal>
    requires part { IsPartOf N.shape_of N.blocks N.labels N.failures plan.now part.old }
    ensures scanned { IfOk result (λ scan. IsScanOf (part_of plan.now) scan
        (without_block without (N.labels part.old).blocks)) }
    ensures whole { IfOk result (λ scan. scan.told ≡ scan.shape.blocks) }
    ensures same { OnOk result (IsSamePart N.shape_of N.failures N.blocks N.labels part.old
        part.new) }
    ensures unchanged { IfErr result (λ refusal. refusal ≢ MountRefusal.DeviceFault
        → IsSamePart N.shape_of N.failures N.blocks N.labels part.old part.new) }
    ensures lasts { N.lasts part.old → N.lasts part.new }
    ensures refused { IfErr result (RefusesMount plan.now (N.shape_of part.old)
        (N.labels part.old).blocks (N.failures part.new)) }
{
    let mut scan = match Scan::new(alloc, plan) {
        Ok(scan) => scan,
        Err(MountFault::NoMemory) => return Err(MountRefusal::NoMemory),
        // The part was scanned with this plan.
        Err(MountFault::BadPlan) => unreachable!(),
    };
    let Ok(mut cells) = Vec::with_capacity(alloc, plan.shape.pages as usize) else {
        return Err(MountRefusal::NoMemory);
    };
    for block in 0..plan.shape.blocks + 1 {
        if tell_again(part, plan, block, without, &mut cells, &mut scan).is_err() {
            return Err(MountRefusal::DeviceFault);
        }
    }
    Ok(scan)
}

/// The bytes of a cell with a label.
fn read_labelled<N: LabelledNand>(
    part: &mut N,
    plan: &DiePlan,
    place: Place,
) -> Result<PageData, Refusal>
    requires part { IsPartOf N.shape_of N.blocks N.labels N.failures plan.now part.old }
    requires label { HasLabel (N.labels part.old).blocks place }
    ensures bytes { IfOk result (λ bytes. bytes ≡ bytes_at (N.labels part.old).blocks (Some place)) }
    ensures same { OnOk result (IsSamePart N.shape_of N.failures N.blocks N.labels part.old
        part.new) }
    ensures lasts { N.lasts part.old → N.lasts part.new }
    ensures failed { OnErr result (N.failures part.new ≡ 1) }
{
    match part.read(place) {
        Ok(bytes) => Ok(bytes),
        Err(refusal) => Err(refusal),
    }
}

/// Whether these are the same bytes.
fn are_same(one: PageData, other: PageData) -> bool
    ensures { IsTrue result ↔ (one ≡ other) }
{
    one == other
}

/// Whether two cells with labels hold the same bytes; blank ones, where the second is none.
fn has_same_bytes<N: LabelledNand>(
    part: &mut N,
    plan: &DiePlan,
    one: Place,
    other: Option<Place>,
) -> Result<bool, Refusal>
    requires part { IsPartOf N.shape_of N.blocks N.labels N.failures plan.now part.old }
    requires one { HasLabel (N.labels part.old).blocks one }
    requires other { IfSome other (HasLabel (N.labels part.old).blocks) }
    ensures bytes { IfOk result (λ is. IsTrue is ↔ (bytes_at (N.labels part.old).blocks (Some one)
        ≡ bytes_at (N.labels part.old).blocks other)) }
    ensures same { OnOk result (IsSamePart N.shape_of N.failures N.blocks N.labels part.old
        part.new) }
    ensures lasts { N.lasts part.old → N.lasts part.new }
    ensures failed { OnErr result (N.failures part.new ≡ 1) }
{
    let had = match read_labelled(part, plan, one) {
        Ok(bytes) => bytes,
        Err(refusal) => return Err(refusal),
    };
    match other {
        None => Ok(are_same(had, PageData::BLANK)),
        Some(place) => match read_labelled(part, plan, place) {
            Ok(bytes) => Ok(are_same(had, bytes)),
            Err(refusal) => Err(refusal),
        },
    }
}

/// Whether a page is found with the same bytes in both scans, the second of which is without a block.
fn keeps_page<N: LabelledNand>(
    part: &mut N,
    plan: &DiePlan,
    before: &Scan,
    again: &Scan,
    without: u32,
    page: u32,
) -> Result<bool, Refusal>
    requires part { IsPartOf N.shape_of N.blocks N.labels N.failures plan.now part.old }
    requires before { IsScanOf (part_of plan.now) before.now (N.labels part.old).blocks }
    requires again { IsScanOf (part_of plan.now) again.now
        (without_block without (N.labels part.old).blocks) }
    requires page { page < plan.now.logical }
    ensures kept { IfOk result (λ kept. kept ≡ true → FitPlan (part_of plan.now) (N.labels part.old).blocks
        → KeepsPage (N.labels part.old).blocks without page) }
    ensures lost { IfOk result (λ kept. kept ≡ false
        → ¬ KeepsPage (N.labels part.old).blocks without page) }
    ensures same { OnOk result (IsSamePart N.shape_of N.failures N.blocks N.labels part.old
        part.new) }
    ensures lasts { N.lasts part.old → N.lasts part.new }
    ensures failed { OnErr result (N.failures part.new ≡ 1) }
{
    match before.place(page) {
        None => Ok(true),
        Some(place) => {
            if place.block != without {
                // It is found there still.
                return Ok(true);
            }
            match has_same_bytes(part, plan, place, again.place(page)) {
                Ok(is) => Ok(is),
                Err(refusal) => Err(refusal),
            }
        }
    }
}

/// Whether each page is found with the same bytes in both scans.
fn keeps_pages<N: LabelledNand>(
    part: &mut N,
    plan: &DiePlan,
    before: &Scan,
    again: &Scan,
    without: u32,
) -> Result<bool, Refusal>
    requires part { IsPartOf N.shape_of N.blocks N.labels N.failures plan.now part.old }
    requires before { IsScanOf (part_of plan.now) before.now (N.labels part.old).blocks }
    requires again { IsScanOf (part_of plan.now) again.now
        (without_block without (N.labels part.old).blocks) }
    ensures kept { IfOk result (λ kept. kept ≡ true → FitPlan (part_of plan.now) (N.labels part.old).blocks
        → KeepsPages plan.now (N.labels part.old).blocks without) }
    ensures lost { IfOk result (λ kept. kept ≡ false
        → LosesPage plan.now (N.labels part.old).blocks without) }
    ensures same { OnOk result (IsSamePart N.shape_of N.failures N.blocks N.labels part.old
        part.new) }
    ensures lasts { N.lasts part.old → N.lasts part.new }
    ensures failed { OnErr result (N.failures part.new ≡ 1) }
{
    for page in 0..plan.logical {
        match keeps_page(part, plan, before, again, without, page) {
            Ok(true) => {}
            Ok(false) => return Ok(false),
            Err(refusal) => return Err(refusal),
        }
    }
    Ok(true)
}

/// A mount that goes by both scans, and undoes the block of which nothing was reported in the second.
fn undone(
    alloc: Global,
    plan: DiePlan,
    before: &Scan,
    again: Scan,
    block: u32,
) -> Result<Mount, MountRefusal>
    requires before { before.now.told ≡ before.now.shape.blocks }
    requires again { again.told ≡ again.shape.blocks }
    requires scanned { IsScanned plan again }
    requires untold { IsUntold before.now.erases }
    ensures begins { IfOk result (λ mount. (seen : Shown) → IsScanOf (part_of plan) before.now seen
        → IsScanOf (part_of plan) again (without_block block seen)
        → MayErase (part_of plan) all_count seen block → BeginsWith plan seen mount) }
    ensures first { IfOk result (BeginsFirst plan) }
    ensures counts { IfOk result BeginsToCount }
    ensures refused { IfErr result (RefusesBegin (IsIdleIn again block)) }
{
    match Mount::undo(alloc, plan, before, again, block) {
        Ok(mount) => Ok(mount),
        Err(BeginFault::NoMemory) => Err(MountRefusal::NoMemory),
        Err(BeginFault::NoIdleBlock) => Err(MountRefusal::NoIdleBlock),
        // The part was scanned with this plan.
        Err(BeginFault::BadPlan) => unreachable!(),
        // No erases were reported.
        Err(BeginFault::WornOut { .. }) => unreachable!(),
    }
}

/// A mount that undoes a block, without which each page is found with the bytes that it has.
pub(crate) fn undo<N: LabelledNand>(
    alloc: Global,
    plan: DiePlan,
    part: &mut N,
    before: &Scan,
    block: u32,
) -> Result<Mount, MountRefusal>
    requires part { IsPartOf N.shape_of N.blocks N.labels N.failures plan part.old }
    requires scanned { IsScanOf (part_of plan) before.now (N.labels part.old).blocks }
    requires whole { before.now.told ≡ before.now.shape.blocks }
    requires untold { IsUntold before.now.erases }
    requires none { IsFirstIdle (part_of plan) (N.labels part.old).blocks (FirstErase.Undo block) }
    requires may { FitPlan (part_of plan) (N.labels part.old).blocks
        → MayErase (part_of plan) all_count (N.labels part.old).blocks block }
    ensures begins { IfOk result (λ mount. FitPlan (part_of plan) (N.labels part.old).blocks
        → BeginsWith plan (N.labels part.old).blocks mount) }
    ensures first { IfOk result (BeginsFirst plan) }
    ensures counts { IfOk result BeginsToCount }
    ensures keeps { OnOk result (FitPlan (part_of plan) (N.labels part.old).blocks
        → KeepsPages plan (N.labels part.old).blocks block) }
    ensures same { OnOk result (IsSamePart N.shape_of N.failures N.blocks N.labels part.old
        part.new) }
    ensures unchanged { IfErr result (λ refusal. refusal ≢ MountRefusal.DeviceFault
        → IsSamePart N.shape_of N.failures N.blocks N.labels part.old part.new) }
    ensures lasts { N.lasts part.old → N.lasts part.new }
    ensures refused { IfErr result (RefusesMount plan (N.shape_of part.old)
        (N.labels part.old).blocks (N.failures part.new)) }
{
    let again = match scan_without(alloc, &plan, part, block) {
        Ok(again) => again,
        Err(refusal) => return Err(refusal),
    };
    match keeps_pages(part, &plan, before, &again, block) {
        Ok(true) => undone(alloc, plan, before, again, block),
        Ok(false) => Err(MountRefusal::NoIdleBlock),
        Err(_) => Err(MountRefusal::DeviceFault),
    }
}
