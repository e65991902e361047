//! The calls that a table asks for, carried out on a part: what a driver does, and what it leaves.

ghost use Rattle.std.specs.Prelude.{◌≡◌, ◌<◌, ◌≤◌, ◌+◌, ◌++◌, ◌∷◌, [], length, false};
ghost use Rattle.spare_blocks.specs.Parts.{part_block, programmed_cell};
ghost use Rattle.spare_blocks.specs.Tables.{on_part};
ghost use Rattle.spare_blocks.specs.Trying.{AreFree, IsSource};
ghost use Rattle.stepped_spares.specs.Carrying.{HasFilled, IsCarried, IsShort, MayCarry, beyond, cost_by, cost_of, serial_at};

use crate::moves::{Move, Outcome, Stage};
use crate::table::SpareTable;
use slot_types::{PageData, Place};
use spare_blocks::{Ended, WearingNand};

/// Carries out a call that a table asks for, on a part. `page` and `bytes` are those of the program that failed.
pub fn carry<D: WearingNand>(
    part: &mut D,
    call: Move,
    page: Option<u32>,
    bytes: PageData,
) -> Outcome
    requires well { D.faulted part.old ≡ false }
    requires may { MayCarry (D.blocks part.old) (D.shape_of part.old).pages call }
    ensures carried { IsCarried result call (programmed_cell D.keeps_labels (D.next part.old) page bytes) page
        (D.blocks part.old) (D.blocks part.new) (D.next part.old) (D.next part.new) (D.faulted part.new) }
    ensures shape { D.shape_of part.new ≡ D.shape_of part.old }
    ensures spent { IsShort call → D.spent part.new ≤ D.spent part.old + cost_of call }
{
    let ended = match call {
        Move::Erase { block } => part.erase(block),
        Move::Copy { from, to } => part.copy(from, to),
        Move::Program { place } => part.program(place, page, bytes),
    };
    match ended {
        Ok(Ended::Done) => Outcome::Done,
        Ok(Ended::Failed) => Outcome::Failed,
        Err(_) => Outcome::Fault,
    }
}

/// Answers a program that failed in this cell: carries out what the table asks for, until it asks for nothing more.
/// What it leaves is what `SpareBlocks` leaves.
///
/// A spare block has the number then, with the cells before this one, page and serial unchanged, and the program; or
/// none was left, and each number has the block that it had; or the part had a fault.
pub fn replace_program<D: WearingNand>(
    part: &mut D,
    spares: &mut SpareTable,
    place: Place,
    page: Option<u32>,
    bytes: PageData,
)
    requires working { spares.old.stage ≡ Stage.Working }
    requires number { place.block < length spares.old.table.blocks }
    requires room { place.page < (D.shape_of part.old).pages }
    requires pages { spares.old.pages ≡ (D.shape_of part.old).pages }
    requires well { D.faulted part.old ≡ false }
    requires free { AreFree spares.old.table (D.blocks part.old) }
    requires source { IsSource (D.blocks part.old) (on_part spares.old.table place.block) place.page }
    ensures filled { HasFilled spares.new.stage place.block
        ((part_block (D.blocks part.old) (on_part spares.old.table place.block)).cells
        ++ programmed_cell D.keeps_labels (D.next part.old) page bytes ∷ [])
        spares.old.table spares.new.table (D.blocks part.old) (D.blocks part.new) (D.faulted part.new) }
    ensures next { D.faulted part.new ≡ false
        → D.next part.new ≡ serial_at spares.new.stage page (D.next part.old) }
    ensures spent { cost_by place.page spares.new.table (D.spent part.new)
        ≤ cost_by place.page spares.old.table (D.spent part.old) + beyond place.page spares.new.stage }
    ensures shape { D.shape_of part.new ≡ D.shape_of part.old }
    ensures pages { spares.new.pages ≡ spares.old.pages }
{
    spares.program_failed(place);
    while let Some(call) = spares.next() {
        let outcome = carry(part, call, page, bytes);
        spares.done(outcome);
    }
}
