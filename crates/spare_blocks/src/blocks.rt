//! A device on a part whose blocks may fail.

ghost use Rattle.std.specs.Prelude.{◌≡◌, ◌+◌, ◌≤◌, ◌<◌, Err, false, length, is_ok, slice_index, slice_set, IfOk, IfErr, IfSome, IsNone, OnOk};
ghost use Rattle.flash_die.specs.Flash.{IsNextCell, blocks_after_program};
ghost use Rattle.flash_die.specs.Calls.{FailsByFault};
ghost use Rattle.flash_die.specs.declared.nand.NandCall.TheVariants as calls;
ghost use Rattle.slot_types.specs.Shapes.{IsShape};
ghost use Rattle.spare_blocks.specs.Preparing.{IsWholePart, IsNewRefusal};
ghost use Rattle.spare_blocks.specs.Tables.{on_part, use_of, spares_in};

use crate::cells::{BlockUse, Ended, Erased};
use crate::fill::fill_a_spare;
use crate::part::WearingNand;
use crate::prepare::prepare;
use crate::table::BlockTable;
use flash_die::Nand;
use slot_types::{PageData, Place, Refusal, Shape};
use std::alloc::Global;
use std::marker::Model;

/// How a part is.
#[derive(Clone, Copy, PartialEq, Eq, Debug, Drop)]
pub enum Health {
    /// Each block of the plan is whole.
    Working,
    /// A block of the plan failed and no spare one was left: only reads end well.
    WornOut,
    /// The part itself had a fault: no call ends well.
    Faulted,
}

/// A device on the blocks of a part that have a number in the plan. Others stand by: when a block fails, a spare one
/// takes its number within the call, with the cells that it had, page and serial unchanged. The store sees nothing of
/// it.
///
/// A program costs one call of the part, and twice the pages of a block less one for each spare block that it uses up.
/// A slot of an erase costs one call of the part. A call is refused with `DeviceFault` where the part has a fault, and
/// where a block failed and no spare one was left; in the second case reads still end well.
///
/// Which block stands aside for a mount is no matter of this layer: it is one of the plan's blocks here.
#[derive(Drop)]
pub struct SpareBlocks<D: WearingNand> {
    pub(crate) part: D,
    /// The shape of the plan.
    pub(crate) shape: Shape,
    pub(crate) table: BlockTable,
    /// By number of the plan how many erases it has had.
    pub(crate) erases: Vec<u32>,
    pub(crate) health: Health,
    /// How many calls were refused.
    pub(crate) failures: u32,
}

impl<D: WearingNand> Model for SpareBlocks<D> {
    ghost use Rattle.spare_blocks.specs.Spares.{Spared, IsSoundSpared};

    ghost Value = { Spared D };

    ghost view = { λ d. record {
      part = d.part;
      shape = d.shape;
      table = d.table;
      erases = d.erases.items;
      health = d.health;
      failures = d.failures;
    } };

    ghost invariant = { λ d. IsSoundSpared D.shape_of D.blocks D.faulted (record {
      part = d.part;
      shape = d.shape;
      table = d.table;
      erases = d.erases.items;
      health = d.health;
      failures = d.failures;
    }) };
}

impl<D: WearingNand> SpareBlocks<D> {
    ghost use Rattle.spare_blocks.specs.Spares.{spared_blocks, EndsSpared, IsFreshSpared, plan_shape};

    /// A device of `blocks` blocks on a part that has more. Each of the part's blocks that isn't listed as bad is
    /// erased, which takes a while; those whose erase fails are bad too. The first of the others get the plan's
    /// numbers, and the rest are spare. Refused with `BadShape` where the plan's shape is out of its limits, or too
    /// few blocks are left; with `DeviceFault` where the part had a fault; and with `NoMemory`.
    pub fn new(alloc: Global, part: D, blocks: u32, bad: &[u32]) -> Result<Self, Refusal>
        requires well { D.faulted part ≡ false }
        requires whole { IsWholePart (D.shape_of part).blocks (D.blocks part) }
        ensures fresh { IfOk result (IsFreshSpared D.blocks (plan_shape blocks (D.shape_of part))
            bad.now) }
        ensures bad_shape { ¬ IsShape (plan_shape blocks (D.shape_of part))
            → result ≡ Err Refusal.BadShape }
        ensures refused { IfErr result IsNewRefusal }
    {
        let whole = part.shape();
        let shape = Shape {
            blocks,
            pages: whole.pages,
            erase_slots: whole.erase_slots,
        };
        if !shape.is_within_limits() {
            return Err(Refusal::BadShape);
        }
        let mut part = part;
        let table = prepare(alloc, &mut part, blocks, bad)?;
        if table.count() < blocks as usize {
            return Err(Refusal::BadShape);
        }
        Ok(SpareBlocks {
            part,
            shape,
            table,
            erases: vec![in alloc; 0; blocks as usize]?,
            health: Health::Working,
            failures: 0,
        })
    }

    /// How the part is.
    pub fn health(&self) -> Health
        ensures { result ≡ self.now.health }
    {
        self.health
    }

    /// What a block of the part is for; one that it doesn't have is bad.
    pub fn use_of(&self, block: u32) -> BlockUse
        ensures { result ≡ use_of self.now.table block }
    {
        self.table.use_of(block)
    }

    /// How many calls were refused.
    pub fn failures(&self) -> u32
        ensures { result ≡ self.now.failures }
    {
        self.failures
    }

    /// The part, to be asked.
    pub fn part(&self) -> &D
        ensures { result.now ≡ self.now.part }
    {
        &self.part
    }

    /// The part's block that has this number; none where the plan doesn't.
    pub fn on_part(&self, block: u32) -> Option<u32>
        ensures number { IfSome result (λ x. x ≡ on_part self.now.table block) }
        ensures block { IfSome result (λ x. use_of self.now.table x ≡ BlockUse.InPlan block) }
        ensures in_plan { IfSome result (λ _. block < self.now.shape.blocks) }
        ensures none { IsNone result → self.now.shape.blocks ≤ block }
    {
        if block < self.shape.blocks {
            Some(self.table.on_part(block))
        } else {
            None
        }
    }

    /// How many spare blocks are left.
    pub fn spares(&self) -> u32
        ensures { result ≡ spares_in self.now.table }
    {
        self.table.spares()
    }

    /// The part, given up with the rest.
    pub fn into_part(self) -> D
        ensures { result ≡ self.part }
    {
        self.part
    }

    /// Programs as both calls of a device do, with the page or without.
    fn program_cell(
        &mut self,
        place: Place,
        page: Option<u32>,
        bytes: PageData,
    ) -> Result<(), Refusal>
        requires next { IsNextCell (spared_blocks D.blocks self.old) self.old.shape.pages place }
        requires few_failures { self.old.failures < 4294967295 }
        ensures blocks { OnOk result (spared_blocks D.blocks self.new
            ≡ blocks_after_program (spared_blocks D.blocks self.old) place.block bytes) }
        ensures fails { FailsByFault false result self.old.failures self.new.failures }
        ensures shape { self.new.shape ≡ self.old.shape }
        ensures ends { EndsSpared D.blocks D.next D.spent D.keeps_labels self.old
            (calls.Program place page bytes) (is_ok result) self.new }
    {
        let Health::Working = self.health else {
            self.failures += 1;
            return Err(Refusal::DeviceFault);
        };
        let on = self.table.on_part(place.block);
        let cell = Place {
            block: on,
            page: place.page,
        };
        match self.part.program(cell, page, bytes) {
            Ok(Ended::Done) => Ok(()),
            Ok(Ended::Failed) => {
                match fill_a_spare(&mut self.part, &mut self.table, on, place.page, page, bytes) {
                    Ok(Some(spare)) => {
                        self.table.replace(place.block, spare);
                        Ok(())
                    }
                    Ok(None) => {
                        self.health = Health::WornOut;
                        self.failures += 1;
                        Err(Refusal::DeviceFault)
                    }
                    Err(_) => {
                        self.health = Health::Faulted;
                        self.failures += 1;
                        Err(Refusal::DeviceFault)
                    }
                }
            }
            Err(_) => {
                self.health = Health::Faulted;
                self.failures += 1;
                Err(Refusal::DeviceFault)
            }
        }
    }
}

/// One erase more of the block of this number.
fn count_erase(erases: &mut Vec<u32>, block: u32)
    requires block { block < length erases.old.items }
    requires few { slice_index erases.old.items block < 4294967295 }
    ensures { erases.new.items
        ≡ slice_set erases.old.items block (slice_index erases.old.items block + 1) }
{
    erases[block as usize] += 1;
}

impl<D: WearingNand> Nand for SpareBlocks<D> {
    ghost use Rattle.spare_blocks.specs.Spares.{spared_blocks, EndsSpared};

    ghost shape_of = { λ d. d.shape };

    ghost blocks = { spared_blocks D.blocks };

    ghost failures = { λ d. d.failures };

    ghost ends = { EndsSpared D.blocks D.next D.spent D.keeps_labels };

    ghost never_fails = { false };

    fn shape(&self) -> Shape {
        self.shape
    }

    fn read(&mut self, place: Place) -> Result<PageData, Refusal> {
        if self.health == Health::Faulted {
            self.failures += 1;
            return Err(Refusal::DeviceFault);
        }
        let cell = Place {
            block: self.table.on_part(place.block),
            page: place.page,
        };
        match self.part.read(cell) {
            Ok(bytes) => Ok(bytes),
            Err(_) => {
                self.health = Health::Faulted;
                self.failures += 1;
                Err(Refusal::DeviceFault)
            }
        }
    }

    fn program(&mut self, place: Place, bytes: PageData) -> Result<(), Refusal> {
        self.program_cell(place, None, bytes)
    }

    fn program_page(&mut self, place: Place, page: u32, bytes: PageData) -> Result<(), Refusal> {
        self.program_cell(place, Some(page), bytes)
    }

    fn erase_slot(&mut self, block: u32) -> Result<bool, Refusal> {
        let Health::Working = self.health else {
            self.failures += 1;
            return Err(Refusal::DeviceFault);
        };
        let on = self.table.on_part(block);
        match self.part.erase_slot(on) {
            Ok(Erased::Partly) => Ok(false),
            Ok(Erased::Wholly) => {
                count_erase(&mut self.erases, block);
                Ok(true)
            }
            Ok(Erased::Failed) => match self.table.first_spare() {
                Some(spare) => {
                    self.table.replace(block, spare);
                    count_erase(&mut self.erases, block);
                    Ok(true)
                }
                None => {
                    self.health = Health::WornOut;
                    self.failures += 1;
                    Err(Refusal::DeviceFault)
                }
            },
            Err(_) => {
                self.health = Health::Faulted;
                self.failures += 1;
                Err(Refusal::DeviceFault)
            }
        }
    }
}
