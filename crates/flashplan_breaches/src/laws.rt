//! What follows where a condition doesn't hold.

ghost use Rattle.std.specs.Prelude.{List};
ghost use Rattle.slot_types.specs.declared.events.Event.{Event};
ghost use Rattle.slot_types.specs.declared.plans.DiePlan.{DiePlan};
ghost use Rattle.slot_types.specs.declared.plans.Times.{Times};
ghost use Rattle.plan_rules.specs.Keeping.{KeepsPlan};
ghost use Rattle.flashplan_breaches.specs.Breaches.{IsBreach};
ghost use Rattle.flashplan_breaches.specs.declared.breaches.Breach.{Breach};

/// Events of which a condition doesn't hold don't keep the plan.
pub fn breaches_break_plans()
    ensures { (plan : DiePlan) (times : Times) (events : List Event) (said : Breach) →
        IsBreach plan times events said → ¬ KeepsPlan plan times events }
{}
