//! The scan of a part: what is reported of its cells, block by block, and what a mount makes of that.

ghost use Rattle.std.specs.Prelude.{◌≡◌, ◌+◌, ◌<◌, ◌++◌, ◌∷◌, ◌↔◌, ◌≤◌, ◌^◌, ℕ, [], List, Option, length, count_by, Err, IfOk, IfErr, OnOk, OnErr};
ghost use Rattle.std.specs.Prelude.{IsTrue, IfSome, IfNone, None, replicate, slice_index_or, slice_set};
ghost use Rattle.slot_types.specs.Places.{is_in, place_of};
ghost use Rattle.slot_types.specs.declared.pages.PageData.{PageData};
ghost use Rattle.slot_types.specs.declared.plans.DiePlan.{DiePlan};
ghost use Rattle.die_log.specs.Model.Start.{blank_page};
ghost use Rattle.power_loss.specs.Aside.{part_of};
ghost use Rattle.power_loss.specs.Labels.{Label as Stands, Shown, FitPlan};
ghost use Rattle.power_loss.specs.Mounted.{all_count, mounted_place, mounted_places};
ghost use Rattle.power_loss.specs.Recovery.{CanUndo, IsAbove, MayErase, without_block};
ghost use Rattle.die_mount.specs.Beginning.{HasIdle, IsIdleIn, IsScanned};
ghost use Rattle.die_mount.specs.Erasing.{block_of, IsFirstIdle, IsFirstLost, HasAllOf};
ghost use Rattle.die_mount.specs.Faults.{HasMountFault, HasScanFault, IsFirstBad, IsNextBlock};
ghost use Rattle.die_mount.specs.Scanned.{IsScanOf};
ghost use Rattle.die_mount.specs.Told.{told_cells, HaveFitLabels};

use crate::erasing::FirstErase;
use crate::label::Label;
use crate::newest::{Newest, greatest_in, newer, take_block};
use page_map::PageMap;
use plan_rules::bound;
use slot_types::{DiePlan, MAX_BLOCKS, Place, Shape};
use std::alloc::Global;
use std::marker::Model;

/// Why a mount can't begin.
#[derive(Clone, Copy, PartialEq, Eq, Debug, Drop)]
pub enum MountFault {
    /// The plan may not be used, or it leaves no block of the part's 1,024 aside.
    BadPlan,
    /// Memory was asked for and not had.
    NoMemory,
}

/// Why cells can't be those of the next block.
#[derive(Clone, Copy, PartialEq, Eq, Debug, Drop)]
pub enum ScanFault {
    /// All blocks of the part were reported already.
    NoMoreBlocks,
    /// More cells than a block has pages.
    TooManyCells,
    /// A label with a page that the plan doesn't have, or with a serial of 2^63 or more: the first such cell.
    BadLabel { cell: u32 },
}

/// What was reported of a part's cells so far. The part has one block more than the die's plan.
#[derive(Drop)]
pub struct Scan {
    shape: Shape,
    /// By page the cell of its newest label.
    map: PageMap,
    /// By page the serial of its newest label.
    serials: Vec<u64>,
    /// How many blocks were reported.
    told: u32,
    newest: Option<Newest>,
    /// By block how often it was erased, as was reported, if it was.
    erases: Vec<Option<u32>>,
}

impl Model for Scan {
    ghost use Rattle.die_mount.specs.Scanned.{Scanned};

    ghost Value = { Scanned };

    ghost use Rattle.die_mount.specs.SoundScan.{scanned_of, IsSoundScan};

    ghost view = { scanned_of };

    ghost invariant = { IsSoundScan };
}

impl Scan {
    /// A scan to which nothing was reported yet, of a part with one block more than this plan has. It takes all its memory
    /// here.
    ///
    /// `BadPlan` exactly where the plan doesn't meet its bound or has 1,024 blocks; else `NoMemory` where there is no
    /// memory for it.
    pub fn new(alloc: Global, plan: &DiePlan) -> Result<Scan, MountFault>
        ensures ok { IfOk result (λ scan. IsScanOf (part_of plan.now) scan []) }
        ensures untold { IfOk result (λ scan.
            scan.erases ≡ replicate (plan.now.shape.blocks + 1) None) }
        ensures fault { IfErr result (HasMountFault plan.now) }
    {
        if bound(plan).is_err() || plan.shape.blocks >= MAX_BLOCKS {
            return Err(MountFault::BadPlan);
        }
        let shape = Shape {
            blocks: plan.shape.blocks + 1,
            pages: plan.shape.pages,
            erase_slots: plan.shape.erase_slots,
        };
        let Ok(map) = PageMap::new(alloc, shape, plan.logical) else {
            return Err(MountFault::NoMemory);
        };
        let Ok(serials) = vec![in alloc; 0; plan.logical as usize] else {
            return Err(MountFault::NoMemory);
        };
        let Ok(erases) = vec![in alloc; None; shape.blocks as usize] else {
            return Err(MountFault::NoMemory);
        };
        Ok(Scan {
            shape,
            map,
            serials,
            told: 0,
            newest: None,
            erases,
        })
    }

    /// Tells the labels of the next block, cell by cell from the first one on: none for a cell that isn't good. Cells
    /// past the end of the list have none. And tells how often the block was erased, where its labels say so: the
    /// greatest count of them. A block of which none is reported is taken to have had one erase more than any other, which
    /// may be off. It takes time for each cell once, and no memory.
    ///
    /// Refused with the first fault that stands, as [`ScanFault`] lists them; then the scan stays as it was.
    pub fn tell(&mut self, cells: &[Option<Label>], erases: Option<u32>) -> Result<(), ScanFault>
        ensures ok { OnOk result ((plan : DiePlan) (seen : Shown) (shown : List (Option Stands))
            → IsScanOf plan self.old seen → cells.now ≡ told_cells shown
            → IsScanOf plan self.new (seen ++ shown ∷ [])) }
        ensures erases { OnOk result (self.new.erases
            ≡ slice_set self.old.erases self.old.told erases) }
        ensures fits { OnOk result (IsNextBlock self.old cells.now) }
        ensures fault { IfErr result (HasScanFault self.old cells.now) }
        ensures stays { OnErr result (self.new ≡ self.old) }
    {
        if self.told >= self.shape.blocks {
            return Err(ScanFault::NoMoreBlocks);
        }
        if cells.len() > self.shape.pages as usize {
            return Err(ScanFault::TooManyCells);
        }
        if let Some(cell) = first_bad(self.map.pages(), cells) {
            return Err(ScanFault::BadLabel { cell: cell as u32 });
        }
        take_block(&mut self.map, &mut self.serials, self.told, cells);
        self.newest = newer(self.newest, self.told, greatest_in(cells));
        self.erases[self.told as usize] = erases;
        self.told += 1;
        Ok(())
    }

    /// Whether all blocks of the part were reported.
    pub fn is_whole(&self) -> bool
        ensures { IsTrue result ↔ (self.now.told ≡ self.now.shape.blocks) }
    {
        self.told == self.shape.blocks
    }

    /// How many blocks were reported: the number of the next one.
    pub fn told(&self) -> u32
        ensures { result ≡ self.now.told }
    {
        self.told
    }

    /// How many blocks the part has: one more than the plan.
    pub fn blocks(&self) -> u32
        ensures { result ≡ self.now.shape.blocks }
    {
        self.shape.blocks
    }

    /// The cell in which a page is found: that of its newest label. A page that the plan doesn't have is found nowhere.
    pub fn place(&self, page: u32) -> Option<Place>
        ensures known { result ≡ place_of self.now.places page }
        ensures newest { (plan : DiePlan) (seen : Shown) → IsScanOf plan self.now seen → page < plan.logical
            → result ≡ mounted_place (all_count page) page seen }
    {
        if page >= self.map.pages() {
            return None;
        }
        self.map.place(page)
    }

    /// How many pages are found in a block.
    pub fn valid(&self, block: u32) -> u32
        requires { block < self.now.shape.blocks }
        ensures { (plan : DiePlan) (seen : Shown) → IsScanOf plan self.now seen
            → result ≡ count_by (is_in block) (mounted_places all_count plan.logical seen) }
    {
        self.map.valid(block)
    }

    /// A serial above all that were reported: that of the next program.
    pub fn next_serial(&self) -> u64
        ensures above { (plan : DiePlan) (seen : Shown) → IsScanOf plan self.now seen
            → IsAbove seen all_count result }
        ensures range { result ≤ 2 ^ 63 }
    {
        match self.newest {
            Some(newest) => newest.serial + 1,
            None => 0,
        }
    }

    /// The block that a mount erases first. It looks at each block at most once.
    pub fn first_erase(&self) -> FirstErase
        requires { self.now.told ≡ self.now.shape.blocks }
        ensures first { (plan : DiePlan) (seen : Shown) → IsScanOf plan self.now seen
            → IsFirstIdle plan seen result }
        ensures may { (plan : DiePlan) (seen : Shown) → IsScanOf plan self.now seen → FitPlan plan seen
            → MayErase plan all_count seen (block_of result) }
        // Once an idle block is erased, each page is found where it was.
        ensures stays { (plan : DiePlan) (seen : Shown) (block : ℕ) → IsScanOf plan self.now seen → FitPlan plan seen
            → result ≡ FirstErase.Idle block
            → mounted_places all_count plan.logical (without_block block seen) ≡ self.now.places }
    {
        for block in 0..self.shape.blocks {
            if self.map.valid(block) == 0 {
                return FirstErase::Idle { block };
            }
        }
        match self.newest {
            Some(newest) => FirstErase::Undo {
                block: newest.block,
            },
            None => FirstErase::Idle { block: 0 },
        }
    }

    /// Of the pages that another scan found the first one that isn't found here. So after the scan of a part whose
    /// newest block is to be undone, told anew with no label in that block, says whether a page lay there alone.
    pub fn first_lost(&self, before: &Scan) -> Option<u32>
        ensures lost { IfSome result (IsFirstLost before.now.places self.now.places) }
        ensures kept { IfNone result (HasAllOf before.now.places self.now.places) }
        // Where the block may be undone, only a page with the bytes of a blank one is lost.
        ensures undone { (plan : DiePlan) (seen : Shown) (block : ℕ) (pages : List PageData)
            → IsScanOf plan before.now seen → IsScanOf plan self.now (without_block block seen)
            → CanUndo plan pages all_count seen block
            → IfSome result (λ page. slice_index_or pages page blank_page ≡ blank_page) }
    {
        for page in 0..before.map.pages() {
            if before.place(page).is_some() && self.place(page).is_none() {
                return Some(page);
            }
        }
        None
    }
}

impl Scan {
    /// Whether this is the plan for which the part was scanned, and a mount may go by it.
    pub(crate) fn fits(&self, plan: &DiePlan) -> bool
        ensures { IsTrue result ↔ IsScanned plan.now self.now }
    {
        if bound(plan).is_err() || plan.shape.blocks >= MAX_BLOCKS {
            return false;
        }
        self.shape.blocks == plan.shape.blocks + 1
            && self.shape.pages == plan.shape.pages
            && self.shape.erase_slots == plan.shape.erase_slots
            && self.map.pages() == plan.logical
    }

    /// Whether this is a block of the part in which no page is found.
    pub(crate) fn is_idle(&self, block: u32) -> bool
        ensures { IsTrue result ↔ IsIdleIn self.now block }
    {
        block < self.shape.blocks && self.map.valid(block) == 0
    }

    /// The first block in which no page is found. It looks at each block at most once.
    pub(crate) fn idle_block(&self) -> Option<u32>
        ensures some { IfSome result (IsIdleIn self.now) }
        ensures none { IfNone result (¬ HasIdle self.now) }
    {
        for block in 0..self.shape.blocks {
            if self.is_idle(block) {
                return Some(block);
            }
        }
        None
    }

    /// By block how often it was erased, as was reported, if it was.
    pub(crate) fn erases(&self) -> &[Option<u32>]
        ensures { result.now ≡ self.now.erases }
    {
        self.erases.as_slice()
    }

    /// The part's shape, and where the pages lie. The rest of the memory is given back.
    pub(crate) fn into_map(self) -> (Shape, PageMap)
        ensures shape { result.0 ≡ self.shape }
        ensures map { result.1 ≡ record { shape = self.shape; places = self.places } }
    {
        (self.shape, self.map)
    }
}

/// The first cell whose label has a page or a serial that isn't in range.
fn first_bad(pages: u32, cells: &[Option<Label>]) -> Option<usize>
    ensures found { IfSome result (IsFirstBad pages cells.now) }
    ensures in_range { IfSome result (λ cell. cell < length cells.now) }
    ensures none { IfNone result (HaveFitLabels pages cells.now) }
{
    for k in 0..cells.len() {
        if let Some(label) = cells[k] {
            if label.page >= pages || label.serial >= Label::SERIALS {
                return Some(k);
            }
        }
    }
    None
}
