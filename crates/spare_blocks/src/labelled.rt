//! What a part does whose blocks may fail and whose cells keep labels.

ghost use Rattle.std.specs.Prelude.{◌≡◌, ◌+◌, ◌≤◌, false, slice_get, IfOk, OnOk};
ghost use Rattle.spare_blocks.specs.Parts.{FaultsAlone, part_block};

use crate::cells::Cell;
use crate::part::WearingNand;
use slot_types::{Place, Refusal};

/// A part whose blocks may fail, and whose cells keep labels. Serials are numbered from where its owner says, so that
/// they rise over all lives of the part.
pub trait LabelledWearing: WearingNand {
    ghost use Rattle.std.specs.Prelude.{◌≡◌, true};

    /// From now on programs are numbered from this serial on.
    fn number_from(&mut self, serial: u64)
        ensures next { Self.next self.new ≡ serial }
        ensures blocks { Self.blocks self.new ≡ Self.blocks self.old }
        ensures faulted { Self.faulted self.new ≡ Self.faulted self.old }
        ensures shape { Self.shape_of self.new ≡ Self.shape_of self.old }
        ensures spent { Self.spent self.new ≡ Self.spent self.old };

    /// What a cell holds, of a block that isn't in erase; none where it isn't programmed, or the part doesn't have it. A
    /// block that failed may be looked at, too.
    fn look(&mut self, place: Place) -> Result<Option<Cell>, Refusal>
        requires quiet { (part_block (Self.blocks self.old) place.block).erasing ≡ 0 }
        requires well { Self.faulted self.old ≡ false }
        ensures cell { IfOk result (λ cell. cell
            ≡ slice_get (part_block (Self.blocks self.old) place.block).cells place.page) }
        ensures blocks { OnOk result (Self.blocks self.new ≡ Self.blocks self.old) }
        ensures next { OnOk result (Self.next self.new ≡ Self.next self.old) }
        ensures faults { FaultsAlone result (Self.faulted self.new) }
        ensures shape { Self.shape_of self.new ≡ Self.shape_of self.old }
        ensures spent { Self.spent self.new ≤ Self.spent self.old + 1 };

    // a program that is given its page leaves a label
    ghost is_labelled: { Self.keeps_labels ≡ true };
}
