//! The blocks of a part are erased before they are used.

ghost use Rattle.std.specs.Prelude.{◌≡◌, ◌<◌, ◌≤◌, ℕ, false, length, IfOk, IfErr};
ghost use Rattle.spare_blocks.specs.Parts.{part_block};
ghost use Rattle.spare_blocks.specs.Preparing.{IsPrepared, IsPrepareRefusal, IsWholePart};

use crate::cells::Ended;
use crate::part::WearingNand;
use crate::table::BlockTable;
use slot_types::Refusal;
use std::alloc::Global;

/// Erases each block of a part that isn't listed as bad, and gives the first `blocks` of them numbers of the plan; the
/// others are spare. One whose erase fails is bad.
pub fn prepare<D: WearingNand>(
    alloc: Global,
    part: &mut D,
    blocks: u32,
    bad: &[u32],
) -> Result<BlockTable, Refusal>
    requires well { D.faulted part.old ≡ false }
    requires whole { IsWholePart (D.shape_of part.old).blocks (D.blocks part.old) }
    ensures prepared { IfOk result (λ table. IsPrepared blocks bad.now table (D.blocks part.new)) }
    ensures well { IfOk result (λ _. D.faulted part.new ≡ false) }
    ensures refused { IfErr result IsPrepareRefusal }
    ensures shape { D.shape_of part.new ≡ D.shape_of part.old }
{
    let mut table = BlockTable::new(alloc);
    let mut given = 0;
    for block in 0..part.shape().blocks {
        if bad.contains(&block) {
            table.add_other(false)?;
        } else {
            match part.erase(block)? {
                Ended::Failed => table.add_other(false)?,
                Ended::Done => {
                    if given < blocks {
                        table.add_to_plan()?;
                        given += 1;
                    } else {
                        table.add_other(true)?;
                    }
                }
            }
        }
    }
    Ok(table)
}
