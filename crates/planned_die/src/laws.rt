//! What holds of checkpoints from which a die goes on, and of slots in two halves. Each law is a function that does nothing.

ghost use Rattle.std.specs.Prelude.{◌≡◌, ℕ, List, Result};
ghost use Rattle.slot_types.specs.declared.plans.DiePlan.{DiePlan};
ghost use Rattle.slot_types.specs.declared.refusals.Refusal.{Refusal};
ghost use Rattle.slot_types.specs.declared.replies.SlotReply.{SlotReply};
ghost use Rattle.demand_rules.specs.declared.terms.Terms.{Terms};
ghost use Rattle.die_checkpoint.specs.declared.checkpoint.Checkpoint.{Checkpoint};
ghost use Rattle.flash_die.specs.Flash.{Block};
ghost use Rattle.die_log.specs.Results.DemandedLives.{AreFull};
ghost use Rattle.slot_core.specs.Resumptions.{resumed_start};
ghost use Rattle.planned_die.specs.declared.lacks.Shortage.{Shortage};
ghost use Rattle.planned_die.specs.Planned.{Planned};
ghost use Rattle.planned_die.specs.PlannedCalls.{IsSlot};
ghost use Rattle.planned_die.specs.BegunSlots.{HasEnteredAll};
ghost use Rattle.planned_die.specs.Resuming.{HaveEnough, IsFirstShort, lack};

use flash_die::Nand;

/// With each balance at its cap, as a mount leaves a die (`IsEndOf` of `die_mount`), each task has enough, whatever its
/// terms: a checkpoint with such balances is never refused `NotStocked`. And no task lacks anything, so nothing counts as
/// asked for, and a die that goes on from it starts full, as a new one does.
pub fn full_checkpoints_are_stocked()
    ensures enough { (plan : DiePlan) (terms : Terms) → HaveEnough plan terms plan.caps }
    ensures never_short { (plan : DiePlan) (terms : Terms) (shortage : Shortage)
        → ¬ IsFirstShort plan terms plan.caps shortage }
    ensures none_lacks { (plan : DiePlan) (task : ℕ) → lack plan plan.caps task ≡ 0 }
    ensures full { (plan : DiePlan) (c : Checkpoint) (blocks : List Block) → c.balances ≡ plan.caps
        → AreFull (resumed_start plan c blocks) }
{}

/// A slot whose collections came first ([`PlannedDie::enter_collections`](crate::PlannedDie::enter_collections)), and that was
/// then asked for by the same caller, is just that slot of the die before: it is answered and refused alike, and leaves the
/// same die.
pub fn begun_slots_are_slots<N: Nand>()
    ensures { (caller : ℕ) (result : Result SlotReply Refusal) (before between after : Planned N)
        → HasEnteredAll caller before between
        → IsSlot N.ends N.failures N.never_fails caller result between after
        → IsSlot N.ends N.failures N.never_fails caller result before after }
{}
