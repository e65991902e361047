//! What is said of a die's renewal, of its checkpoint and of its resumption leaves no choice, and what fits a plan is
//! exactly an opening. Each law is a function that does nothing.

ghost use Rattle.std.specs.Prelude.{◌≡◌, ◌≢◌, ◌↔◌, List};
ghost use Rattle.slot_types.specs.declared.plans.DiePlan.{DiePlan};
ghost use Rattle.slot_types.specs.declared.plans.Shape.{Shape};
ghost use Rattle.die_checkpoint.specs.declared.checkpoint.Checkpoint.{Checkpoint};
ghost use Rattle.die_checkpoint.specs.Fits.{Fits};
ghost use Rattle.flash_die.specs.Flash.{Block};
ghost use Rattle.die_log.specs.Model.Start.{Start};
ghost use Rattle.die_log.specs.Model.Opening.{IsOpening, CanBeErased};
ghost use Rattle.slot_core.specs.Core.{Core};
ghost use Rattle.slot_core.specs.Renewals.{MayBeRenewed, RefusesRenewal};
ghost use Rattle.slot_core.specs.Resumptions.{checkpoint_of, start_with, resumed_start, RefusesResume};
ghost use Rattle.slot_core.specs.Resumptions.{no_memory};
ghost use Rattle.slot_core.specs.declared.renewals.RenewalRefusal.{RenewalRefusal};
ghost use Rattle.slot_core.specs.declared.resumptions.ResumeRefusal.{ResumeRefusal};

use flash_die::Nand;

/// A checkpoint fits a plan exactly where the start that it makes over a device is an opening each of whose blocks can
/// be erased in each slot of a life.
pub fn what_fits_is_an_opening()
    ensures { (plan : DiePlan) (c : Checkpoint) (blocks : List Block) →
        Fits plan c ↔ (IsOpening (resumed_start plan c blocks)
        × CanBeErased (resumed_start plan c blocks)) }
{}

/// An opening is what its checkpoint makes with its pages.
pub fn an_opening_is_what_its_checkpoint_makes()
    ensures { (start : Start) → IsOpening start
        → start_with start.plan (checkpoint_of start) start.contents ≡ start }
{}

/// A renewal is refused for one cause, and only where the die may not be renewed.
pub fn a_renewal_has_one_answer<N: Nand>()
    ensures refused { (one other : RenewalRefusal) (before : Core N) →
        RefusesRenewal before one → RefusesRenewal before other → one ≡ other }
    ensures either { (refusal : RenewalRefusal) (before : Core N) → RefusesRenewal before refusal
        → ¬ MayBeRenewed before }
{}

/// A resumption is refused for one cause, and only where the device is of another shape or the checkpoint doesn't fit;
/// but out of memory.
pub fn a_resumption_has_one_answer()
    ensures refused { (plan : DiePlan) (c : Checkpoint) (shape : Shape) (one other : ResumeRefusal)
        →
        RefusesResume plan c shape one → RefusesResume plan c shape other →
        one ≢ no_memory → other ≢ no_memory → one ≡ other }
    ensures either { (plan : DiePlan) (c : Checkpoint) (shape : Shape) (refusal : ResumeRefusal) →
        RefusesResume plan c shape refusal → refusal ≢ no_memory
        → ¬ ((shape ≡ plan.shape) × Fits plan c) }
{}
