//! The erases that a table asks for first, carried out on a part.

ghost use Rattle.std.specs.Prelude.{◌≡◌, Bool, false};
ghost use Rattle.spare_blocks.specs.Tables.{IsTable};
ghost use Rattle.stepped_spares.specs.Erasing.{BeginsErasing, HasErased};

use crate::carried::carry;
use crate::table::SpareTable;
use slot_types::PageData;
use spare_blocks::WearingNand;

/// Carries out the erases that a table asks for first. Each block that was erased is free then, and those whose erase
/// failed are bad; or too few blocks are left; or the part had a fault.
pub fn erase_first<D: WearingNand>(part: &mut D, spares: &mut SpareTable)
    requires begun { (all : Bool) × BeginsErasing all spares.old (D.blocks part.old) }
    requires well { D.faulted part.old ≡ false }
    ensures erased { (all : Bool) → BeginsErasing all spares.old (D.blocks part.old)
        → HasErased spares.new.stage all spares.old.table spares.new.table (D.blocks part.old) (D.blocks part.new)
        (D.faulted part.new) }
    ensures shape { D.shape_of part.new ≡ D.shape_of part.old }
    ensures pages { spares.new.pages ≡ spares.old.pages }
    ensures table { IsTable spares.new.table }
{
    while let Some(call) = spares.next() {
        let outcome = carry(part, call, None, PageData::BLANK);
        spares.done(outcome);
    }
}
