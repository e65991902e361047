//! The table of a part on which nothing was done yet.

ghost use Rattle.std.specs.Prelude.{◌≡◌, ◌<◌, ◌≤◌, false, length, Err, IfOk, IfErr, Contains};
ghost use Rattle.slot_types.specs.Shapes.{IsShape};
ghost use Rattle.slot_types.specs.Refusal.{FailsForMemory};
ghost use Rattle.spare_blocks.specs.Tables.{IsTable};
ghost use Rattle.stepped_spares.specs.Beginning.{AreAdded, IsAdded, IsBegun, IsBeginRefusal};

use crate::table::{SpareTable, next_erase};
use slot_types::{Refusal, Shape};
use spare_blocks::BlockTable;
use std::alloc::Global;

/// The part's next block: bad where it is listed; else it has a number while one is left, and is spare then.
fn add_block(table: &mut BlockTable, listed: bool, blocks: u32) -> Result<(), Refusal>
    requires few { length table.old.uses < 4294967295 }
    ensures added { IfOk result (λ _. IsAdded listed blocks table.old table.new) }
    ensures refused { FailsForMemory result }
{
    if listed {
        table.add_other(false)
    } else if table.count() < blocks as usize {
        table.add_to_plan()
    } else {
        table.add_other(true)
    }
}

/// The blocks of a part that aren't listed: so many have numbers, and the others are spare.
fn add_blocks(alloc: Global, blocks: u32, all: u32, bad: &[u32]) -> Result<BlockTable, Refusal>
    ensures added { IfOk result (λ table. AreAdded blocks bad.now table all) }
    ensures sound { IfOk result IsTable }
    ensures refused { FailsForMemory result }
{
    let mut table = BlockTable::new(alloc);
    for block in 0..all {
        add_block(&mut table, bad.contains(&block), blocks)?;
    }
    let _ = table.count();
    Ok(table)
}

impl SpareTable {
    /// A table for a part of so many blocks, of which `shape.blocks` get a number: the plan's, and the one that stands
    /// aside for a mount. The others are spare, but for those that are listed as bad. Each block that isn't listed has
    /// to be erased first: [`next`](SpareTable::next) names them one by one. All memory is taken here.
    ///
    /// Refused with `BadShape` where the shape is out of its limits, or too few blocks aren't listed; and with
    /// `NoMemory`.
    pub fn new(alloc: Global, shape: Shape, blocks: u32, bad: &[u32]) -> Result<Self, Refusal>
        ensures begun { IfOk result (IsBegun shape blocks bad.now) }
        ensures bad_shape { ¬ IsShape shape → result ≡ Err Refusal.BadShape }
        ensures refused { IfErr result IsBeginRefusal }
    {
        if !shape.is_within_limits() {
            return Err(Refusal::BadShape);
        }
        let table = add_blocks(alloc, shape.blocks, blocks, bad)?;
        if table.count() < shape.blocks as usize {
            return Err(Refusal::BadShape);
        }
        let stage = next_erase(&table, true, 0);
        Ok(SpareTable {
            table,
            pages: shape.pages,
            stage,
        })
    }
}
