//! What a flash device does.

ghost use Rattle.std.specs.Prelude.{◌≡◌, ◌==◌, ◌+◌, ◌<◌, is_ok, Some, None, IfOk, OnOk};
ghost use Rattle.flash_die.specs.Flash.{IsProgrammed, IsNextCell, IsErasable, block_at, cell_at, blocks_after_program, blocks_after_erase_slot};
ghost use Rattle.flash_die.specs.Calls.{FailsByFault};

use slot_types::{PageData, Place, Refusal, Shape};

/// One call of a device, of those that may fail.
#[derive(Clone, Copy, PartialEq, Eq, Debug, Drop)]
pub enum NandCall {
    /// A page is read.
    Read(Place),
    /// A cell is programmed with these bytes: those of this logical page, where the device was given one.
    Program(Place, Option<u32>, PageData),
    /// A block has one slot of its erase.
    EraseSlot(u32),
}

/// A flash device: blocks of pages, which are programmed in rising order and freed by the erase
/// of their block. Blocks and pages count from 0.
///
/// Contracts see its shape, by block the pages programmed since the last erase with the progress
/// of a running erase and the number of erases, and how often a call failed. A call that fails
/// answers `DeviceFault`, and afterwards nothing is known of the cells. A device is fresh where
/// no page is programmed, no block is in erase and nothing was erased or has failed.
pub trait Nand: Drop {
    ghost use Rattle.std.specs.Prelude.{ℕ, Bool, List};
    ghost use Rattle.slot_types.specs.declared.plans.Shape.{Shape};
    ghost use Rattle.flash_die.specs.Flash.{Block};
    ghost use Rattle.flash_die.specs.declared.nand.NandCall.{NandCall};

    ghost shape_of: { Self → Shape };

    ghost blocks: { Self → List Block };

    ghost failures: { Self → ℕ };

    // whether this call may end well, or with a fault, and which device it then leaves
    ghost ends: { Self → NandCall → Bool → Self → Type 0 };

    // whether each call of this type ends well
    ghost never_fails: { Bool };

    /// What the device has.
    fn shape(&self) -> Shape
        ensures { result ≡ shape_of self.now };

    /// The bytes of a programmed page, whose block isn't in erase.
    fn read(&mut self, place: Place) -> Result<PageData, Refusal>
        requires programmed { IsProgrammed (blocks self.old) place }
        requires few_failures { failures self.old < 4294967295 }
        ensures cell { IfOk result (λ bytes. bytes ≡ cell_at (blocks self.old) place) }
        ensures blocks { OnOk result (blocks self.new ≡ blocks self.old) }
        ensures fails { FailsByFault never_fails result (failures self.old) (failures self.new) }
        ensures shape { shape_of self.new ≡ shape_of self.old }
        ensures ends { ends self.old (NandCall.Read place) (is_ok result) self.new };

    /// Fills the next free page of a block that isn't in erase.
    fn program(&mut self, place: Place, bytes: PageData) -> Result<(), Refusal>
        requires next { IsNextCell (blocks self.old) (shape_of self.old).pages place }
        requires few_failures { failures self.old < 4294967295 }
        ensures blocks { OnOk result (blocks self.new
            ≡ blocks_after_program (blocks self.old) place.block bytes) }
        ensures fails { FailsByFault never_fails result (failures self.old) (failures self.new) }
        ensures shape { shape_of self.new ≡ shape_of self.old }
        ensures ends { ends self.old (NandCall.Program place None bytes) (is_ok result) self.new };

    /// Programs as [`program`](Nand::program) does, and gives the device the logical page of which the bytes are. A die
    /// programs by this call alone. A device that keeps no labels does no more than `program`, and one that passes
    /// calls on passes the page on.
    fn program_page(&mut self, place: Place, page: u32, bytes: PageData) -> Result<(), Refusal>
        requires next { IsNextCell (blocks self.old) (shape_of self.old).pages place }
        requires few_failures { failures self.old < 4294967295 }
        ensures blocks { OnOk result (blocks self.new
            ≡ blocks_after_program (blocks self.old) place.block bytes) }
        ensures fails { FailsByFault never_fails result (failures self.old) (failures self.new) }
        ensures shape { shape_of self.new ≡ shape_of self.old }
        ensures ends { ends self.old (NandCall.Program place (Some page) bytes)
            (is_ok result) self.new };

    /// Does one slot of the erase of a block, which has all its pages programmed or is in erase
    /// already, and answers whether it was the last. The last slot frees the block's pages.
    fn erase_slot(&mut self, block: u32) -> Result<bool, Refusal>
        requires erasable { IsErasable (blocks self.old) (shape_of self.old).pages block }
        requires few_failures { failures self.old < 4294967295 }
        ensures last { IfOk result (λ last.
            last ≡ ((block_at (blocks self.old) block).erasing
            + 1 == (shape_of self.old).erase_slots)) }
        ensures blocks { OnOk result (blocks self.new
            ≡ blocks_after_erase_slot (blocks self.old) (shape_of self.old).erase_slots block) }
        ensures fails { FailsByFault never_fails result (failures self.old) (failures self.new) }
        ensures shape { shape_of self.new ≡ shape_of self.old }
        ensures ends { ends self.old (NandCall.EraseSlot block) (is_ok result) self.new };
}
