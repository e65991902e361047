//! What holds of checkpoints from which a die goes on by itself. The law is a function that does nothing.

ghost use Rattle.std.specs.Prelude.{◌≢◌, ℕ};
ghost use Rattle.slot_types.specs.declared.plans.DiePlan.{DiePlan};
ghost use Rattle.demand_rules.specs.declared.terms.Terms.{Terms};
ghost use Rattle.demand_rules.specs.Demand.{PassesDemand};
ghost use Rattle.demand_rules.specs.Supply.{PassesSupply};
ghost use Rattle.die_checkpoint.specs.declared.checkpoint.Checkpoint.{Checkpoint};
ghost use Rattle.die_checkpoint.specs.Fits.{Fits};
ghost use Rattle.ongoing_log.specs.Ongoing.{AreLongEnough};
ghost use Rattle.planned_die.specs.NewPlans.{IsSomeLife};
ghost use Rattle.planned_die.specs.Resuming.{HaveEnough};
ghost use Rattle.ongoing_die.specs.declared.refusals.OngoingResumeRefusal.{OngoingResumeRefusal};
ghost use Rattle.ongoing_die.specs.Resuming.{out_of_memory, RefusesOngoingResume};

use slot_core::renewal_laws::a_resumption_has_one_answer;

/// Where a checkpoint fits, the terms pass their tests, some life that is allowed is long enough for a job of each task, and
/// each task has enough, a die goes on from it over a device of the plan's shape, unless memory is refused. All of this holds
/// of a checkpoint from the end of a life, with the same plan, terms and `longest`, where each task's jobs are held for their
/// deadline alone ([`OngoingDie::checkpoint`](crate::OngoingDie::checkpoint)); and of one with full balances, as a mount
/// leaves it.
pub fn stocked_checkpoints_go_on()
    ensures { (plan : DiePlan) (terms : Terms) (longest life : ℕ) (c : Checkpoint) → Fits plan c
        → PassesDemand plan terms → PassesSupply plan terms
        → IsSomeLife plan terms longest life → AreLongEnough terms life → HaveEnough plan terms c.balances
        → (why : OngoingResumeRefusal) → why ≢ out_of_memory
        → ¬ RefusesOngoingResume plan terms longest c plan.shape why }
{
    a_resumption_has_one_answer();
}
