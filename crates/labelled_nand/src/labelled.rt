//! What a device does that keeps labels.

ghost use Rattle.std.specs.Prelude.{◌≡◌, ◌<◌, length, IfOk, OnOk};
ghost use Rattle.flash_die.specs.Calls.{FailsByFault};
ghost use Rattle.flash_die.specs.Flash.{block_at, cell_at};
ghost use Rattle.power_loss.specs.Labels.{label_at};
ghost use Rattle.labelled_nand.specs.Looks.{Shows};

use crate::look::Look;
use flash_die::Nand;
use slot_types::{Place, Refusal};

/// A device that keeps labels: each program that is given its page (`program_page`) leaves in its cell, with the bytes,
/// a label of the page and of a serial number. The serials rise by one with each program; the owner says from which one
/// on, so that they rise over all lives of the part.
///
/// Contracts see, beside what they see of a device, its labels: by block those of the programmed cells, and the next
/// serial. What a device owes of them for a mount to find each page, whenever the power went, are six premises:
///
/// 1. A finished program is good until its block's first erase slot: its cell shows label and bytes as programmed.
/// 2. What a cut may leave: of a program that was cut the whole, or a cell that isn't good; of a block in erase each
///    cell what it had, or a cell that isn't good; of all other cells, those of the same block too, what was there. A
///    call that failed may leave no more than one that was cut.
/// 3. Looks don't change by themselves: what a cut left reads the same from then on, at each later mount, until the
///    block's next erase. Reads with a margin meet this, or power that lasts for a call.
/// 4. No cell looks good with what wasn't programmed there: a check over label, bytes and the cell's own address.
/// 5. A finished erase leaves cells that may be programmed. Nothing else may be, whatever it looks like.
/// 6. An erase that was cut is no erase: it is done anew, from its first slot.
///
/// A device that was powered up (`IsPoweredUp`) counts each block as closed, with all its cells programmed, until it is
/// erased: those that aren't good have no label, and what is read of them may be anything. It counts erases, and calls
/// that fail, from then on.
///
/// A device may keep more than its cells, as what a clean shutdown saves. What stays true of that, whatever call comes,
/// it says itself (`lasts`), and who makes the calls hands it on: so it is true of the device of a die that was mounted.
pub trait LabelledNand: Nand {
    ghost use Rattle.std.specs.Prelude.{◌≡◌, Bool, true};
    ghost use Rattle.flash_die.specs.declared.nand.NandCall.{NandCall};
    ghost use Rattle.power_loss.specs.Labels.{Labels};
    ghost use Rattle.labelled_nand.specs.Calls.{labels_after_call};

    // by block the labels of the programmed cells, and the serial of the next program
    ghost labels: { Self → Labels };

    // what stays true of a device, whatever call of it is made, and whether that ends well or not
    ghost lasts: { Self → Type 0 };

    /// From now on programs are numbered from this serial on.
    fn number_from(&mut self, serial: u64)
        ensures labels { labels self.new ≡ record (labels self.old) { next = serial } }
        ensures blocks { Self.blocks self.new ≡ Self.blocks self.old }
        ensures failures { Self.failures self.new ≡ Self.failures self.old }
        ensures shape { Self.shape_of self.new ≡ Self.shape_of self.old }
        ensures lasts { lasts self.old → lasts self.new };

    /// What a cell shows, of a block that isn't in erase. A good cell may be read, and gives the same bytes.
    fn look(&mut self, place: Place) -> Result<Look, Refusal>
        requires in_range { place.block < length (Self.blocks self.old) }
        requires in_block { place.page < (Self.shape_of self.old).pages }
        requires quiet { (block_at (Self.blocks self.old) place.block).erasing ≡ 0 }
        requires few_failures { Self.failures self.old < 4294967295 }
        ensures shows { IfOk result (Shows (label_at (labels self.old).blocks place)
            (cell_at (Self.blocks self.old) place)) }
        ensures labels { OnOk result (labels self.new ≡ labels self.old) }
        ensures blocks { OnOk result (Self.blocks self.new ≡ Self.blocks self.old) }
        ensures fails { FailsByFault Self.never_fails result (Self.failures self.old)
            (Self.failures self.new) }
        ensures shape { Self.shape_of self.new ≡ Self.shape_of self.old }
        ensures lasts { lasts self.old → lasts self.new };

    // what a call that ends well leaves of the labels
    ghost follows: { (before after : Self) (call : NandCall) → Self.ends before call true after
        → labels after ≡ labels_after_call (Self.shape_of before).erase_slots (Self.blocks before) call
        (labels before) };

    // what lasts does so whatever the call
    ghost keeps: { (before after : Self) (call : NandCall) (well : Bool) → Self.ends before call well after
        → lasts before → lasts after };
}
