//! Which block of the part has which number of the plan.

ghost use Rattle.std.specs.Prelude.{◌≡◌, ◌<◌, ◌≤◌, ℕ, length, IfOk, IfSome, IfNone, if◌then◌else◌, count_by, slice_index_or};
ghost use Rattle.slot_types.specs.Refusal.{FailsForMemory};
ghost use Rattle.spare_blocks.specs.Tables.{IsTable, IsSpare, empty_table, with_plan_block, with_other_block, without_spare, replaced, on_part, use_of, spares_in, is_spare};
ghost use Rattle.spare_blocks.specs.declared.cells.BlockUse.TheVariants as use_as;

use crate::cells::BlockUse;
use slot_types::Refusal;
use std::alloc::Global;
use std::marker::Model;

/// Which block of the part has which number of the plan, and what each of the other blocks is for. A block has at most
/// one number.
#[derive(Drop)]
pub struct BlockTable {
    /// By number of the plan the part's block.
    blocks: Vec<u32>,
    /// By block of the part what it is for.
    uses: Vec<BlockUse>,
}

impl Model for BlockTable {
    ghost use Rattle.spare_blocks.specs.Tables.{Table, IsTable};

    ghost Value = { Table };

    ghost view = { λ t. record { blocks = t.blocks.items; uses = t.uses.items } };

    ghost invariant = { λ t. IsTable (record { blocks = t.blocks.items; uses = t.uses.items }) };
}

impl BlockTable {
    /// A table of no block.
    pub fn new(alloc: Global) -> Self
        ensures { result ≡ empty_table }
    {
        BlockTable {
            blocks: Vec::new(alloc),
            uses: Vec::new(alloc),
        }
    }

    /// The part's next block gets the plan's next number. Refused where there is no memory.
    pub fn add_to_plan(&mut self) -> Result<(), Refusal>
        requires few { length self.old.uses < 4294967295 }
        ensures added { IfOk result (λ _. self.new ≡ with_plan_block self.old) }
        ensures refused { FailsForMemory result }
    {
        let number = self.blocks.len() as u32;
        let block = self.uses.len() as u32;
        self.blocks.reserve(1)?;
        self.uses.push(BlockUse::InPlan(number))?;
        self.blocks.push_reserved(block);
        Ok(())
    }

    /// The part's next block is a spare one, or a bad one. Refused where there is no memory.
    pub fn add_other(&mut self, is_spare: bool) -> Result<(), Refusal>
        requires few { length self.old.uses < 4294967295 }
        ensures added { IfOk result (λ _. self.new
            ≡ with_other_block (if is_spare then use_as.Spare else use_as.Bad) self.old) }
        ensures refused { FailsForMemory result }
    {
        let becomes = if is_spare {
            BlockUse::Spare
        } else {
            BlockUse::Bad
        };
        self.uses.push(becomes)?;
        Ok(())
    }

    /// The part's block that has this number.
    pub fn on_part(&self, block: u32) -> u32
        requires { block < length self.now.blocks }
        ensures number { result ≡ on_part self.now block }
        ensures sound { IsTable self.now }
    {
        self.blocks[block as usize]
    }

    /// What a block of the part is for; one that it doesn't have is bad.
    pub fn use_of(&self, block: u32) -> BlockUse
        ensures { result ≡ use_of self.now block }
    {
        match self.uses.get(block as usize) {
            Some(becomes) => *becomes,
            None => BlockUse::Bad,
        }
    }

    /// The spare block of the least number.
    pub fn first_spare(&self) -> Option<u32>
        ensures spare { IfSome result (λ spare. IsSpare self.now spare) }
        ensures none { IfNone result ((x : ℕ) → ¬ IsSpare self.now x) }
        ensures sound { IsTable self.now }
    {
        find_spare(&self.uses)
    }

    /// How many blocks have a number.
    pub fn count(&self) -> usize
        ensures count { result ≡ length self.now.blocks }
        ensures sound { IsTable self.now }
    {
        self.blocks.len()
    }

    /// How many blocks of the part are in it.
    pub fn uses(&self) -> usize
        ensures { result ≡ length self.now.uses }
    {
        self.uses.len()
    }

    /// How many spare blocks there are.
    pub fn spares(&self) -> u32
        ensures { result ≡ spares_in self.now }
    {
        count_spares(&self.uses)
    }

    /// A spare block failed.
    pub fn give_up(&mut self, spare: u32)
        requires spare { IsSpare self.old spare }
        ensures { self.new ≡ without_spare spare self.old }
    {
        self.uses[spare as usize] = BlockUse::Bad;
    }

    /// A spare block takes the number of one that failed, which is bad from now on.
    pub fn replace(&mut self, block: u32, spare: u32)
        requires block { block < length self.old.blocks }
        requires spare { IsSpare self.old spare }
        ensures replaced { self.new ≡ replaced block spare self.old }
        ensures sound { IsTable self.old }
    {
        let failed = self.blocks[block as usize];
        self.uses[failed as usize] = BlockUse::Bad;
        self.uses[spare as usize] = BlockUse::InPlan(block);
        self.blocks[block as usize] = spare;
    }
}

fn is_spare(becomes: BlockUse) -> bool
    ensures { result ≡ is_spare becomes }
{
    match becomes {
        BlockUse::Spare => true,
        _ => false,
    }
}

/// The first spare block.
fn find_spare(uses: &[BlockUse]) -> Option<u32>
    requires few { length uses.now ≤ 4294967295 }
    ensures spare { IfSome result (λ x. slice_index_or uses.now x use_as.Bad ≡ use_as.Spare) }
    ensures none { IfNone result ((x : ℕ) → ¬ (slice_index_or uses.now x use_as.Bad
        ≡ use_as.Spare)) }
{
    for index in 0..uses.len() {
        match uses[index] {
            BlockUse::Spare => return Some(index as u32),
            _ => {}
        }
    }
    None
}

/// How many blocks are spare.
fn count_spares(uses: &[BlockUse]) -> u32
    requires few { length uses.now ≤ 4294967295 }
    ensures { result ≡ count_by is_spare uses.now }
{
    let mut count = 0;
    for becomes in uses {
        if is_spare(*becomes) {
            count += 1;
        }
    }
    count
}
