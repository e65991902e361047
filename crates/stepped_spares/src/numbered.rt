//! Which block has which number, by what was seen of the labels.

ghost use Rattle.std.specs.Prelude.{◌≡◌, ◌<◌, ◌≤◌, length, List, IfOk};
ghost use Rattle.slot_types.specs.Refusal.{FailsForMemory};
ghost use Rattle.spare_blocks.specs.Parts.{PartBlock, part_block, free_part_block};
ghost use Rattle.spare_blocks.specs.Powering.{IsNumbered};
ghost use Rattle.spare_blocks.specs.Tables.{IsTable};
ghost use Rattle.stepped_spares.specs.Telling.{AreByLabels};

use slot_types::Refusal;
use spare_blocks::{BlockTable, Group, Labelled, group_of, needed};
use std::alloc::Global;

/// The part's next block has a number where it needs one, or where it is blank and one is free for it. One that is
/// listed is bad, and each other one is spare.
fn number_block(
    table: &mut BlockTable,
    listed: bool,
    group: Group,
    is_free: bool,
) -> Result<(), Refusal>
    requires few { length table.old.uses < 4294967295 }
    ensures numbered { IfOk result (λ _. (blocks : List PartBlock)
        → part_block blocks (length table.old.uses) ≡ free_part_block
        → IsNumbered listed group table.old table.new blocks blocks) }
    ensures refused { FailsForMemory result }
{
    if listed {
        return table.add_other(false);
    }
    match group {
        Group::Own => table.add_to_plan(),
        Group::Blank if is_free => table.add_to_plan(),
        _ => table.add_other(true),
    }
}

/// The table: blocks that need a number get one before blank ones do.
pub(crate) fn number_blocks(
    alloc: Global,
    blocks: u32,
    count: u32,
    bad: &[u32],
    all: &[Option<Labelled>],
) -> Result<BlockTable, Refusal>
    ensures numbered { IfOk result (AreByLabels bad.now all.now) }
    ensures uses { IfOk result (λ table. length table.uses ≡ count) }
    ensures sound { IfOk result IsTable }
    ensures refused { FailsForMemory result }
{
    let mut table = BlockTable::new(alloc);
    let mut free_numbers = blocks.saturating_sub(needed(all));
    for block in 0..count {
        let group = group_of(all, block as usize);
        let listed = bad.contains(&block);
        number_block(&mut table, listed, group, free_numbers > 0)?;
        if !listed && group == Group::Blank {
            free_numbers = free_numbers.saturating_sub(1);
        }
    }
    let _ = table.count();
    Ok(table)
}
