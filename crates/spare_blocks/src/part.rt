//! What a part does whose blocks may fail.

ghost use Rattle.std.specs.Prelude.{◌≡◌, ◌+◌, ◌==◌, ◌≤◌, false, IfOk, OnOk};
ghost use Rattle.spare_blocks.specs.Parts.{IsCell, IsFreeCell, FaultsAlone, part_block, cell_on, programmed_cell, blocks_after_program, serial_after, blocks_after_slot, blocks_after_erase, is_last_slot};

use crate::cells::{Ended, Erased};
use slot_types::{PageData, Place, Refusal, Shape};

/// A part whose blocks may fail, one by one. A program, a copy, the last slot of an erase and a whole erase may answer
/// that the block *failed*: the cells that it had before a failed program may still be read, and it is neither
/// programmed nor erased again. A failed erase leaves no cell that may be read. That isn't a fault of the part: a call
/// that the part itself makes fail is refused with `DeviceFault`, nothing is known of its cells from then on, and it
/// gets no further call.
///
/// Contracts see its shape, with all blocks that it has, by block the cells programmed since its last erase, the slots
/// that its running erase has had and whether it failed, the serial of the next label, whether the part had a fault,
/// and what its calls have spent: at most one for each cell that is read or programmed, and for each slot of an erase.
/// It may stand for the calls or for their time.
pub trait WearingNand: Drop {
    ghost use Rattle.std.specs.Prelude.{ℕ, Bool, List};
    ghost use Rattle.slot_types.specs.declared.plans.Shape.{Shape};
    ghost use Rattle.spare_blocks.specs.Parts.{PartBlock};

    ghost shape_of: { Self → Shape };

    ghost blocks: { Self → List PartBlock };

    // the serial of the next label
    ghost next: { Self → ℕ };

    // whether the part had a fault
    ghost faulted: { Self → Bool };

    ghost spent: { Self → ℕ };

    // whether parts of this type keep labels
    ghost keeps_labels: { Bool };

    /// What the part has.
    fn shape(&self) -> Shape
        ensures { result ≡ shape_of self.now };

    /// The bytes of a programmed cell, whose block isn't in erase.
    fn read(&mut self, place: Place) -> Result<PageData, Refusal>
        requires cell { IsCell (blocks self.old) place }
        requires well { faulted self.old ≡ false }
        ensures bytes { IfOk result (λ bytes. bytes ≡ (cell_on (blocks self.old) place).bytes) }
        ensures blocks { OnOk result (blocks self.new ≡ blocks self.old) }
        ensures next { OnOk result (next self.new ≡ next self.old) }
        ensures faults { FaultsAlone result (faulted self.new) }
        ensures shape { shape_of self.new ≡ shape_of self.old }
        ensures spent { spent self.new ≤ spent self.old + 1 };

    /// Fills the next free cell of a block that isn't in erase. It is given the page of which the bytes are, if there
    /// is one; a part that keeps labels programs it with the bytes.
    fn program(
        &mut self,
        place: Place,
        page: Option<u32>,
        bytes: PageData,
    ) -> Result<Ended, Refusal>
        requires free { IsFreeCell (blocks self.old) (shape_of self.old).pages place }
        requires well { faulted self.old ≡ false }
        ensures blocks { IfOk result (λ ended. blocks self.new
            ≡ blocks_after_program ended (blocks self.old) place.block
            (programmed_cell keeps_labels (next self.old) page bytes)) }
        ensures next { IfOk result (λ ended. next self.new ≡ serial_after ended page (next self.old)) }
        ensures faults { FaultsAlone result (faulted self.new) }
        ensures shape { shape_of self.new ≡ shape_of self.old }
        ensures spent { spent self.new ≤ spent self.old + 1 };

    /// Fills the next free cell of a block with what another cell holds: the bytes and the label, page and serial
    /// unchanged. It is a read and a program for a part that has no call of its own for it.
    fn copy(&mut self, from: Place, to: Place) -> Result<Ended, Refusal>
        requires cell { IsCell (blocks self.old) from }
        requires free { IsFreeCell (blocks self.old) (shape_of self.old).pages to }
        requires well { faulted self.old ≡ false }
        ensures blocks { IfOk result (λ ended. blocks self.new
            ≡ blocks_after_program ended (blocks self.old) to.block (cell_on (blocks self.old) from)) }
        ensures next { OnOk result (next self.new ≡ next self.old) }
        ensures faults { FaultsAlone result (faulted self.new) }
        ensures shape { shape_of self.new ≡ shape_of self.old }
        ensures spent { spent self.new ≤ spent self.old + 2 };

    /// Does one slot of the erase of a block, whatever it holds.
    fn erase_slot(&mut self, block: u32) -> Result<Erased, Refusal>
        requires whole { (part_block (blocks self.old) block).failed ≡ false }
        requires well { faulted self.old ≡ false }
        ensures last { IfOk result (λ erased. is_last_slot erased
            ≡ ((part_block (blocks self.old) block).erasing
            + 1 == (shape_of self.old).erase_slots)) }
        ensures blocks { IfOk result (λ erased. blocks self.new
            ≡ blocks_after_slot erased (blocks self.old) block) }
        ensures next { OnOk result (next self.new ≡ next self.old) }
        ensures faults { FaultsAlone result (faulted self.new) }
        ensures shape { shape_of self.new ≡ shape_of self.old }
        ensures spent { spent self.new ≤ spent self.old + 1 };

    /// Erases a block, whatever it holds, in one call that may take long: for the time before a die works.
    fn erase(&mut self, block: u32) -> Result<Ended, Refusal>
        requires whole { (part_block (blocks self.old) block).failed ≡ false }
        requires well { faulted self.old ≡ false }
        ensures blocks { IfOk result (λ ended. blocks self.new
            ≡ blocks_after_erase ended (blocks self.old) block) }
        ensures next { OnOk result (next self.new ≡ next self.old) }
        ensures faults { FaultsAlone result (faulted self.new) }
        ensures shape { shape_of self.new ≡ shape_of self.old };
}
