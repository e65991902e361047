//! A device once the power of its part has come: which block has which number is read off the labels.

ghost use Rattle.std.specs.Prelude.{◌≡◌, ◌+◌, ◌<◌, ◌≤◌, ◌↔◌, false, Some, length, replicate, IfOk, IfErr, IsTrue, OnOk};
ghost use Rattle.slot_types.specs.Refusal.{FailsForMemory};
ghost use Rattle.spare_blocks.specs.Parts.{FaultsAlone, part_block};
ghost use Rattle.spare_blocks.specs.Powering.{IsPoweredPart, IsPoweredSpared, IsSeen, AreSeen, IsHolder, IsGroup, IsFarther, IsFarthest, IsNumbered, AreNumbered, IsPoweredTable, SharesFirst, mark_in, seen_at, with_cell};
ghost use Rattle.spare_blocks.specs.Preparing.{IsNewRefusal, IsPrepareRefusal};
ghost use Rattle.spare_blocks.specs.Spares.{plan_shape};

use crate::blocks::{Health, SpareBlocks};
use crate::cells::{Cell, Ended, Mark};
use crate::labelled::LabelledWearing;
use crate::part::WearingNand;
use crate::table::BlockTable;
use slot_types::{Place, Refusal, Shape};
use std::alloc::Global;

/// What is seen of a block that has a label: its first one, in which cell, and the last cell that has one.
#[derive(Clone, Copy, PartialEq, Eq, Debug, Drop)]
pub struct Labelled {
    pub first: u32,
    pub mark: Mark,
    pub last: u32,
}

/// The label of a cell, if it has one.
fn mark_in(cell: Option<Cell>) -> Option<Mark>
    ensures { result ≡ mark_in cell }
{
    match cell {
        Some(cell) => cell.mark,
        None => None,
    }
}

/// What is seen of a block once its next cell was looked at, too.
pub fn with_cell(seen: Option<Labelled>, page: u32, mark: Option<Mark>) -> Option<Labelled>
    ensures { result ≡ with_cell page mark seen }
{
    match (seen, mark) {
        (seen, None) => seen,
        (Some(labelled), Some(_)) => Some(Labelled {
            first: labelled.first,
            mark: labelled.mark,
            last: page,
        }),
        (None, Some(mark)) => Some(Labelled {
            first: page,
            mark,
            last: page,
        }),
    }
}

/// What is seen of a block: nothing where no cell has a label.
fn see_block<D: LabelledWearing>(
    part: &mut D,
    block: u32,
    pages: u32,
) -> Result<Option<Labelled>, Refusal>
    requires quiet { (part_block (D.blocks part.old) block).erasing ≡ 0 }
    requires well { D.faulted part.old ≡ false }
    ensures seen { IfOk result (IsSeen (part_block (D.blocks part.old) block) pages) }
    ensures blocks { OnOk result (D.blocks part.new ≡ D.blocks part.old) }
    ensures faults { FaultsAlone result (D.faulted part.new) }
    ensures shape { D.shape_of part.new ≡ D.shape_of part.old }
{
    let mut seen = None;
    for page in 0..pages {
        let cell = part.look(Place { block, page })?;
        seen = with_cell(seen, page, mark_in(cell));
    }
    Ok(seen)
}

/// What is seen of each block that isn't listed as bad.
fn see_blocks<D: LabelledWearing>(
    alloc: Global,
    part: &mut D,
    bad: &[u32],
) -> Result<Vec<Option<Labelled>>, Refusal>
    requires powered { IsPoweredPart (D.shape_of part.old) (D.blocks part.old) }
    requires well { D.faulted part.old ≡ false }
    ensures seen { IfOk result (λ all. AreSeen (D.shape_of part.old) (D.blocks part.old) bad.now all.items) }
    ensures blocks { OnOk result (D.blocks part.new ≡ D.blocks part.old) }
    ensures well { OnOk result (D.faulted part.new ≡ false) }
    ensures refused { IfErr result IsPrepareRefusal }
    ensures shape { D.shape_of part.new ≡ D.shape_of part.old }
{
    let shape = part.shape();
    let mut all = Vec::new(alloc);
    for block in 0..shape.blocks {
        let seen = if bad.contains(&block) {
            None
        } else {
            see_block(part, block, shape.pages)?
        };
        all.push(seen)?;
    }
    Ok(all)
}

/// Whether both have the same first label, in the same cell.
fn shares_first(own: Labelled, other: Labelled) -> bool
    ensures { IsTrue result ↔ SharesFirst own other }
{
    own.first == other.first && own.mark == other.mark
}

/// Whether labels that go so far in this block go farther than those of another one; where both go as far, those of the
/// block of the smaller number do.
fn is_farther(last: u32, block: usize, far: u32, best: usize) -> bool
    ensures { IsTrue result ↔ IsFarther last block far best }
{
    last > far || (last == far && block < best)
}

/// The block in which labels go farthest so far, and the last cell there that has one.
#[derive(Clone, Copy, PartialEq, Eq, Debug, Drop)]
pub(crate) struct Farthest {
    pub(crate) block: usize,
    pub(crate) last: u32,
}

/// The same, once this block was looked at, too, if it has the same first label.
fn look_farther(
    seen: Option<Labelled>,
    block: usize,
    labelled: Labelled,
    best: Farthest,
) -> Farthest
    ensures { IsFarthest seen block labelled best result }
{
    match seen {
        Some(own)
            if shares_first(own, labelled) && is_farther(own.last, block, best.last, best.block) =>
            Farthest {
                block,
                last: own.last,
            },
        _ => best,
    }
}

/// Of the blocks that have the same first label as this one: that in which labels go farthest.
fn holder(all: &[Option<Labelled>], labelled: Labelled, block: usize) -> usize
    requires here { seen_at all.now block ≡ Some labelled }
    ensures { IsHolder all.now labelled result }
{
    let mut best = Farthest {
        block,
        last: labelled.last,
    };
    for other in 0..all.len() {
        best = look_farther(all[other], other, labelled, best);
    }
    best.block
}

/// What is seen of a block; nothing of one that isn't there.
fn seen_at(all: &[Option<Labelled>], block: usize) -> Option<Labelled>
    ensures { result ≡ seen_at all.now block }
{
    match all.get(block) {
        Some(seen) => *seen,
        None => None,
    }
}

/// What a block of the part is among those that were seen.
#[derive(Clone, Copy, PartialEq, Eq, Debug, Drop)]
pub enum Group {
    /// It has labels, and of the blocks with its first label it has the most: it needs a number.
    Own,
    /// Another block has its first label, and more.
    Covered,
    /// It has no label.
    Blank,
}

/// What a block of the part is among those that were seen.
pub fn group_of(all: &[Option<Labelled>], block: usize) -> Group
    ensures { IsGroup all.now block result }
{
    match seen_at(all, block) {
        Some(labelled) => {
            if holder(all, labelled, block) == block {
                Group::Own
            } else {
                Group::Covered
            }
        }
        None => Group::Blank,
    }
}

/// How many blocks need a number.
pub fn needed(all: &[Option<Labelled>]) -> u32 {
    let mut count: u32 = 0;
    for block in 0..all.len() {
        if group_of(all, block) == Group::Own {
            count = count.saturating_add(1);
        }
    }
    count
}

/// The part's next block gets a number where it needs one, or where it is blank and one is free for it. One that is
/// listed is bad; each other one is spare once it is erased, and bad where that fails.
fn number_block<D: WearingNand>(
    part: &mut D,
    table: &mut BlockTable,
    listed: bool,
    group: Group,
    is_free: bool,
) -> Result<(), Refusal>
    requires few { length table.old.uses < 4294967295 }
    requires whole { (part_block (D.blocks part.old) (length table.old.uses)).failed ≡ false }
    requires well { D.faulted part.old ≡ false }
    ensures numbered { OnOk result (IsNumbered listed group table.old table.new (D.blocks part.old) (D.blocks part.new)) }
    ensures well { OnOk result (D.faulted part.new ≡ false) }
    ensures refused { IfErr result IsPrepareRefusal }
    ensures shape { D.shape_of part.new ≡ D.shape_of part.old }
{
    if listed {
        return table.add_other(false);
    }
    match group {
        Group::Own => table.add_to_plan(),
        Group::Blank if is_free => table.add_to_plan(),
        _ => {
            let block = table.uses() as u32;
            match part.erase(block)? {
                Ended::Failed => table.add_other(false),
                Ended::Done => table.add_other(true),
            }
        }
    }
}

/// The table: blocks that need a number get one before blank ones do.
fn number_blocks<D: WearingNand>(
    alloc: Global,
    part: &mut D,
    blocks: u32,
    bad: &[u32],
    all: &[Option<Labelled>],
) -> Result<BlockTable, Refusal>
    requires powered { IsPoweredPart (D.shape_of part.old) (D.blocks part.old) }
    requires well { D.faulted part.old ≡ false }
    requires seen { AreSeen (D.shape_of part.old) (D.blocks part.old) bad.now all.now }
    ensures numbered { IfOk result (λ table. AreNumbered bad.now all.now table (D.blocks part.old) (D.blocks part.new)) }
    ensures all { IfOk result (λ table. length table.uses ≡ (D.shape_of part.old).blocks) }
    ensures well { OnOk result (D.faulted part.new ≡ false) }
    ensures refused { IfErr result IsPrepareRefusal }
    ensures shape { D.shape_of part.new ≡ D.shape_of part.old }
{
    let mut table = BlockTable::new(alloc);
    let mut free_numbers = blocks.saturating_sub(needed(all));
    for block in 0..part.shape().blocks {
        let group = group_of(all, block as usize);
        let listed = bad.contains(&block);
        number_block(part, &mut table, listed, group, free_numbers > 0)?;
        if !listed && group == Group::Blank {
            free_numbers = free_numbers.saturating_sub(1);
        }
    }
    Ok(table)
}

/// A part on which no device was made, and why.
#[derive(Drop)]
pub struct NotPowered<D> {
    pub part: D,
    pub refusal: Refusal,
}

/// The table of a device of this shape, by what its part shows.
fn table_of<D: LabelledWearing>(
    alloc: Global,
    part: &mut D,
    shape: Shape,
    bad: &[u32],
) -> Result<BlockTable, Refusal>
    requires powered { IsPoweredPart (D.shape_of part.old) (D.blocks part.old) }
    requires well { D.faulted part.old ≡ false }
    ensures made { IfOk result (λ table. IsPoweredTable shape bad.now table (D.shape_of part.old) (D.blocks part.old) (D.blocks part.new)) }
    ensures well { OnOk result (D.faulted part.new ≡ false) }
    ensures refused { IfErr result IsNewRefusal }
    ensures shape { D.shape_of part.new ≡ D.shape_of part.old }
{
    if !shape.is_within_limits() {
        return Err(Refusal::BadShape);
    }
    let all = see_blocks(alloc, part, bad)?;
    if needed(all.as_slice()) > shape.blocks {
        // No block is erased: the labels are of another plan, or of a block that should be listed.
        return Err(Refusal::BadShape);
    }
    let table = number_blocks(alloc, part, shape.blocks, bad, all.as_slice())?;
    if table.count() != shape.blocks as usize {
        return Err(Refusal::BadShape);
    }
    Ok(table)
}

/// So many numbers, each without an erase.
fn no_erases(alloc: Global, blocks: u32) -> Result<Vec<u32>, Refusal>
    ensures none { IfOk result (λ erases. erases.items ≡ replicate blocks 0) }
    ensures refused { FailsForMemory result }
{
    Ok(vec![in alloc; 0; blocks as usize]?)
}

impl<D: LabelledWearing> SpareBlocks<D> {
    /// A device of so many blocks on a part whose power has come: each of its blocks counts as closed, and none is in
    /// erase. Which block has which number the labels say: one with a label that no other block has gets a number, and
    /// of two that have the same ones, since one was being replaced, that which has more; blank ones get the numbers
    /// that are left. The numbers needn't be those of the life before. All other blocks are erased, and spare; those whose
    /// erase fails are bad, and so are the listed ones, which aren't touched. A block may be listed once the call has ended
    /// in which it failed.
    ///
    /// Refused with `BadShape` where the plan's shape is out of its limits, or the part has too few blocks for it or more
    /// blocks with labels; with `DeviceFault` where the part had a fault; and with `NoMemory`. The part is handed back
    /// then: powered up anew it may be tried again.
    pub fn power_up(alloc: Global, part: D, blocks: u32, bad: &[u32]) -> Result<Self, NotPowered<D>>
        requires well { D.faulted part ≡ false }
        requires powered { IsPoweredPart (D.shape_of part) (D.blocks part) }
        ensures powered { IfOk result (IsPoweredSpared D.blocks
            (plan_shape blocks (D.shape_of part)) (D.shape_of part) (D.blocks part) bad.now) }
        ensures refused { IfErr result (λ no. IsNewRefusal no.refusal) }
    {
        let whole = part.shape();
        let shape = Shape {
            blocks,
            pages: whole.pages,
            erase_slots: whole.erase_slots,
        };
        let mut part = part;
        let erases = match no_erases(alloc, blocks) {
            Ok(erases) => erases,
            Err(refusal) => return Err(NotPowered { part, refusal }),
        };
        match table_of(alloc, &mut part, shape, bad) {
            Ok(table) => Ok(SpareBlocks {
                part,
                shape,
                table,
                erases,
                health: Health::Working,
                failures: 0,
            }),
            Err(refusal) => Err(NotPowered { part, refusal }),
        }
    }
}
