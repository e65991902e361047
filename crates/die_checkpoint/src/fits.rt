//! Whether a checkpoint fits a plan.

ghost use Rattle.std.specs.Prelude.{◌≡◌, ◌↔◌, IsTrue, IfErr, OnOk};
ghost use Rattle.page_map.specs.Placing.{HaveOwnCells};
ghost use Rattle.die_checkpoint.specs.Fits.{IsOfShape, IsOfPlan, HasBlocks, FitsButShared, Fits};
ghost use Rattle.die_checkpoint.specs.Faults.{HasCheckpointFault};

use crate::accounts::{first_above, free_of, sum_of};
use crate::blocks::{first_overfull, first_worn, second_open};
use crate::checkpoint::Checkpoint;
use crate::fault::CheckpointFault;
use crate::pages::first_astray;
use page_map::{PageMap, PlacesFault};
use plan_rules::bound;
use slot_types::DiePlan;
use std::alloc::Global;

impl Checkpoint {
    /// Whether a die of this plan may go on from here. It looks at each block, page and task once, and at each cell.
    ///
    /// Refused with the first cause that stands, as [`CheckpointFault`] lists them.
    pub fn check(&self, alloc: Global, plan: &DiePlan) -> Result<(), CheckpointFault>
        ensures fits { OnOk result (Fits plan.now self.now) }
        ensures fault { IfErr result (HasCheckpointFault plan.now self.now) }
    {
        self.check_plan(plan)?;
        self.check_blocks(plan)?;
        self.check_accounts(plan)?;
        self.check_cells(alloc, plan)
    }

    /// Whether it has as many blocks, pages and tasks as the plan, which may be used.
    fn check_plan(&self, plan: &DiePlan) -> Result<(), CheckpointFault>
        ensures ok { OnOk result (IsOfPlan plan.now self.now) }
        ensures fault { IfErr result (HasCheckpointFault plan.now self.now) }
    {
        if !self.is_of_shape(plan) {
            return Err(CheckpointFault::OtherShape);
        }
        match bound(plan) {
            Ok(()) => Ok(()),
            Err(_) => Err(CheckpointFault::BadPlan),
        }
    }

    fn is_of_shape(&self, plan: &DiePlan) -> bool
        ensures { IsTrue result ↔ IsOfShape plan.now self.now }
    {
        self.blocks.len() == plan.shape.blocks as usize
            && self.places.len() == plan.logical as usize
            && self.balances.len() == plan.caps.len()
    }

    /// Whether its blocks can be those of a die that goes on.
    fn check_blocks(&self, plan: &DiePlan) -> Result<(), CheckpointFault>
        requires plan { IsOfPlan plan.now self.now }
        ensures ok { OnOk result (HasBlocks plan.now self.now) }
        ensures fault { IfErr result (HasCheckpointFault plan.now self.now) }
    {
        let blocks = self.blocks.as_slice();
        if let Some(block) = first_overfull(blocks, plan.shape.pages) {
            return Err(CheckpointFault::Overfull { block });
        }
        if let Some(block) = second_open(blocks, plan.shape.pages) {
            return Err(CheckpointFault::SecondOpen { block });
        }
        if let Some(block) = first_worn(blocks) {
            return Err(CheckpointFault::WornOut { block });
        }
        Ok(())
    }

    /// Whether each page lies in a programmed cell, and the accounts share out the free pages.
    fn check_accounts(&self, plan: &DiePlan) -> Result<(), CheckpointFault>
        requires blocks { HasBlocks plan.now self.now }
        ensures ok { OnOk result (FitsButShared plan.now self.now) }
        ensures fault { IfErr result (HasCheckpointFault plan.now self.now) }
    {
        let blocks = self.blocks.as_slice();
        if let Some(page) = first_astray(self.places.as_slice(), blocks) {
            return Err(CheckpointFault::Unprogrammed { page });
        }
        if let Some(task) = first_above(plan.caps.as_slice(), self.balances.as_slice()) {
            return Err(CheckpointFault::AboveCap { task });
        }
        let reserves = plan.caps.len() as u64 * (plan.shape.pages - plan.alpha) as u64;
        let accounts = self.spare as u64 + sum_of(self.balances.as_slice()) + reserves;
        let free = free_of(blocks, plan.shape.pages);
        if accounts != free {
            return Err(CheckpointFault::OtherSum { accounts, free });
        }
        Ok(())
    }

    /// Whether no two pages lie in one cell.
    fn check_cells(&self, alloc: Global, plan: &DiePlan) -> Result<(), CheckpointFault>
        requires others { FitsButShared plan.now self.now }
        ensures ok { OnOk result (Fits plan.now self.now) }
        ensures fault { IfErr result (HasCheckpointFault plan.now self.now) }
    {
        match PageMap::of_places(alloc, plan.shape, self.places.as_slice()) {
            Ok(_) => Ok(()),
            Err(PlacesFault::NoMemory) => Err(CheckpointFault::NoMemory),
            Err(PlacesFault::SharedCell { page }) => Err(CheckpointFault::SharedCell { page }),
        }
    }
}
