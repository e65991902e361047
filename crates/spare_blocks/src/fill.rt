//! The cells of a block that failed go to a spare one.

ghost use Rattle.std.specs.Prelude.{◌≡◌, ◌+◌, ◌*◌, ◌<◌, ◌≤◌, ◌++◌, ◌∷◌, [], false, IfOk};
ghost use Rattle.spare_blocks.specs.Parts.{FaultsAlone, part_block, free_part_block, programmed_cell, serial_after};
ghost use Rattle.spare_blocks.specs.Tables.{IsSpare};
ghost use Rattle.spare_blocks.specs.Trying.{IsSource, IsFilled, IsUsedUp, IsTriedOr, AreFree, serial_after_taken, cost_with};

use crate::cells::Ended;
use crate::part::WearingNand;
use crate::table::BlockTable;
use slot_types::{PageData, Place, Refusal};

/// Copies the cells of a block to a free one, page and serial unchanged, and programs the next cell there.
pub fn fill<D: WearingNand>(
    part: &mut D,
    from: u32,
    to: u32,
    cells: u32,
    page: Option<u32>,
    bytes: PageData,
) -> Result<Ended, Refusal>
    requires well { D.faulted part.old ≡ false }
    requires source { IsSource (D.blocks part.old) from cells }
    requires target { part_block (D.blocks part.old) to ≡ free_part_block }
    requires apart { ¬ (from ≡ to) }
    requires room { cells < (D.shape_of part.old).pages }
    ensures filled { IfOk result (λ ended. IsFilled ended to
        ((part_block (D.blocks part.old) from).cells
        ++ programmed_cell D.keeps_labels (D.next part.old) page bytes ∷ [])
        (D.blocks part.old) (D.blocks part.new)) }
    ensures next { IfOk result (λ ended. D.next part.new
        ≡ serial_after ended page (D.next part.old)) }
    ensures faults { FaultsAlone result (D.faulted part.new) }
    ensures shape { D.shape_of part.new ≡ D.shape_of part.old }
    ensures spent { D.spent part.new ≤ D.spent part.old + (2 * cells + 1) }
{
    for cell in 0..cells {
        let source = Place {
            block: from,
            page: cell,
        };
        let target = Place {
            block: to,
            page: cell,
        };
        match part.copy(source, target)? {
            Ended::Done => {}
            Ended::Failed => return Ok(Ended::Failed),
        }
    }
    let next = Place {
        block: to,
        page: cells,
    };
    part.program(next, page, bytes)
}

/// Fills the first spare block that doesn't fail as [`fill`] does, and says which it is: it is still listed as spare.
/// None if there is no spare block left.
pub fn fill_a_spare<D: WearingNand>(
    part: &mut D,
    table: &mut BlockTable,
    from: u32,
    cells: u32,
    page: Option<u32>,
    bytes: PageData,
) -> Result<Option<u32>, Refusal>
    requires well { D.faulted part.old ≡ false }
    requires free { AreFree table.old (D.blocks part.old) }
    requires source { IsSource (D.blocks part.old) from cells }
    requires apart { ¬ (IsSpare table.old from) }
    requires room { cells < (D.shape_of part.old).pages }
    ensures used { IsUsedUp table.old table.new }
    ensures tried { IfOk result (λ taken. IsTriedOr taken
        ((part_block (D.blocks part.old) from).cells
        ++ programmed_cell D.keeps_labels (D.next part.old) page bytes ∷ [])
        table.old table.new (D.blocks part.old) (D.blocks part.new)) }
    ensures next { IfOk result (λ taken. D.next part.new
        ≡ serial_after_taken taken page (D.next part.old)) }
    ensures faults { FaultsAlone result (D.faulted part.new) }
    ensures shape { D.shape_of part.new ≡ D.shape_of part.old }
    ensures spent { cost_with (D.shape_of part.old).pages table.new (D.spent part.new)
        ≤ cost_with (D.shape_of part.old).pages table.old (D.spent part.old)
        + 2 * (D.shape_of part.old).pages }
    ensures spent_in_vain { result ≡ Ok None
        → cost_with (D.shape_of part.old).pages table.new (D.spent part.new)
        ≤ cost_with (D.shape_of part.old).pages table.old (D.spent part.old) }
{
    while let Some(spare) = table.first_spare() {
        match fill(part, from, spare, cells, page, bytes)? {
            Ended::Done => return Ok(Some(spare)),
            Ended::Failed => table.give_up(spare),
        }
    }
    Ok(None)
}
