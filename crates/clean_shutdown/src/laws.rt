//! What holds of the life after a clean shutdown. The law is a function that does nothing.

ghost use Rattle.std.specs.Prelude.{◌≡◌, ◌+◌, ℕ, [], Bool, false, Some, length};
ghost use Rattle.die_log.specs.Model.Opening.{renewed_start};
ghost use Rattle.power_loss.specs.Labels.{Labels};
ghost use Rattle.power_loss.specs.Losses.{FollowsRenewal};
ghost use Rattle.slot_core.specs.Core.{Core};
ghost use Rattle.slot_core.specs.Resumptions.{checkpoint_of};
ghost use Rattle.labelled_die.specs.Beside.{Beside, labels_beside};
ghost use Rattle.labelled_die.specs.Labelled.{HasLabels};
ghost use Rattle.saving_nand.specs.Saving.{numbered};
ghost use Rattle.saving_nand.specs.declared.saved.Saved.{Saved};
ghost use Rattle.clean_shutdown.specs.Shutting.{IsSavedOn, ResumesAsRenewed};
ghost use Rattle.clean_shutdown.specs.Starting.{GoesOn};
ghost use Rattle.clean_shutdown.specs.Between.{ShowsSaved, life_of};

use saving_nand::SavingNand;

/// A die that was shut down, and is started from what its part shows as saved, goes on as a renewal would have: with the
/// pages that it had, where they lay, and with the labels that stand there. So the laws of `power_loss` hold of its lives,
/// whether they end by a shutdown or by a loss of power.
///
/// That the part shows what was saved, with the cells as they were, is what the device owes (`ShowsSaved`). Erases are
/// counted anew.
pub fn a_die_that_was_shut_down_goes_on<N: SavingNand>()
    ensures { (die next : Core (Beside N)) (first : Labels) (from : ℕ → ℕ) (lost : Bool)
        (left shown : N) (found : Saved)
        → IsSavedOn N.saved N.shape_of N.blocks N.labels N.failures die.device
        (checkpoint_of (renewed_start die.start die.log)) left
        → ResumesAsRenewed N.blocks die
        → length (N.blocks die.device.part) ≡ die.start.plan.shape.blocks + 1
        → die.device.shape.blocks ≡ die.start.plan.shape.blocks
        → HasLabels (labels_beside N.labels) first die
        → ShowsSaved N.saved N.blocks N.labels left shown found
        → GoesOn N.saved N.labels die.start.plan (N.blocks shown)
        (numbered (Some found) (N.labels shown)) found next
        → next.log ≡ []
        → FollowsRenewal (life_of die first from lost)
        (life_of next (labels_beside N.labels next.device) from false) }
{}
