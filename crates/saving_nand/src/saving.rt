//! What a device does that keeps what a clean shutdown saves.

ghost use Rattle.std.specs.Prelude.{◌≡◌, ◌<◌, Some, None, IfOk, IfErr, IfSome, OnOk};
ghost use Rattle.slot_types.specs.declared.refusals.Refusal.TheVariants.{NoMemory};
ghost use Rattle.flash_die.specs.Calls.{FailsByFault};
ghost use Rattle.labelled_nand.specs.PoweredUp.{IsPoweredUp};
ghost use Rattle.saving_nand.specs.Saving.{IsLeftFor, RefusesSave, closed_labels, numbered};

use crate::saved::{NotSaved, Saved};
use labelled_nand::LabelledNand;
use slot_types::Refusal;
use std::alloc::Global;

/// A device that keeps labels, and beside its cells what a clean shutdown saves: at most one checkpoint, which stands for
/// the cells as they are. So the next life of the die may begin from it, without a look at the cells.
///
/// Contracts see what is saved, if anything is. It is void before a program or a slot of an erase touches a cell,
/// whoever calls it (the law `voids`); and who takes it voids it (`take_saved`), so that no call of the next life has to.
/// Void it stays, whatever call comes but `save` (the law `stays_void`).
///
/// Beside the six premises of [`LabelledNand`] such a device owes a seventh: what a part shows as saved when its power
/// has come was saved whole, and its cells are as they were left then. A save that was cut is none, or the whole; and
/// void is void from the end of the call on that voids it, whenever the power goes after that.
pub trait SavingNand: LabelledNand {
    ghost use Rattle.std.specs.Prelude.{◌≡◌, ◌↔◌, Bool, None, Option};
    ghost use Rattle.flash_die.specs.declared.nand.NandCall.{NandCall};
    ghost use Rattle.saving_nand.specs.declared.saved.Saved.{Saved};
    ghost use Rattle.saving_nand.specs.Saving.{StaysSaved};

    // what is saved, if anything is
    ghost saved: { Self → Option Saved };

    /// The serial of the next program.
    fn next_serial(&self) -> u64
        ensures { result ≡ (Self.labels self.now).next };

    /// Saves this, in the place of what was saved. The cells have to be as it says. Where it isn't saved it is handed back:
    /// with `NoMemory`, and nothing has changed, or with `DeviceFault`.
    fn save(&mut self, alloc: Global, what: Saved) -> Result<(), NotSaved>
        requires left { IsLeftFor (Self.shape_of self.old) (Self.blocks self.old) (Self.labels self.old)
            (Self.failures self.old) what }
        ensures saved { OnOk result (Self.saved self.new ≡ Some what) }
        ensures labels { OnOk result (Self.labels self.new ≡ Self.labels self.old) }
        ensures blocks { OnOk result (Self.blocks self.new ≡ Self.blocks self.old) }
        ensures well { OnOk result (Self.failures self.new ≡ Self.failures self.old) }
        ensures shape { Self.shape_of self.new ≡ Self.shape_of self.old }
        ensures back { IfErr result (λ no. no.saved ≡ what) }
        ensures unchanged { IfErr result (λ no. no.refusal ≡ NoMemory → self.new ≡ self.old) }
        ensures refused { IfErr result (λ no. RefusesSave (Self.failures self.old)
            (Self.failures self.new) no.refusal) };

    /// Answers what is saved, if anything is, and voids it before it ends: from then on nothing is saved. The cells are as
    /// they were left for what it answers, and programs are numbered from its serial on.
    fn take_saved(&mut self) -> Result<Option<Saved>, Refusal>
        requires few_failures { Self.failures self.old < 4294967295 }
        ensures taken { IfOk result (λ taken. taken ≡ Self.saved self.old) }
        ensures void { Self.saved self.new ≡ None }
        ensures left { IfOk result (λ taken. IfSome taken (IsLeftFor (Self.shape_of self.old)
            (Self.blocks self.old) (Self.labels self.old) (Self.failures self.old))) }
        ensures labels { IfOk result (λ taken. Self.labels self.new ≡ numbered taken (Self.labels self.old)) }
        ensures blocks { OnOk result (Self.blocks self.new ≡ Self.blocks self.old) }
        ensures fails { FailsByFault Self.never_fails result (Self.failures self.old)
            (Self.failures self.new) }
        ensures shape { Self.shape_of self.new ≡ Self.shape_of self.old };

    /// From now on each block counts as closed, with all its cells programmed, as on a part whose power has come: no cell
    /// is trusted to be free. Cells with a label keep it. Nothing is done on the part, and nothing may be saved on it.
    fn count_as_closed(&mut self)
        requires void { Self.saved self.old ≡ None }
        requires well { Self.failures self.old ≡ 0 }
        ensures powered { IsPoweredUp (Self.shape_of self.new) (Self.blocks self.new) (Self.labels self.new)
            (Self.failures self.new) }
        ensures labels { (Self.labels self.new).blocks
            ≡ closed_labels (Self.shape_of self.old).pages (Self.labels self.old).blocks }
        ensures void { Self.saved self.new ≡ None }
        ensures shape { Self.shape_of self.new ≡ Self.shape_of self.old };

    // what a call leaves of what is saved, whether it ends well or not
    ghost voids: { (before after : Self) (call : NandCall) (well : Bool) → Self.ends before call well after
        → StaysSaved call (saved before) (saved after) };

    // what lasts: nothing is saved, until something is by `save`
    ghost stays_void: { (device : Self) → Self.lasts device ↔ (saved device ≡ None) };
}
