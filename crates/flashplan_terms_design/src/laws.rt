//! What follows of what is said. Each law is a function that does nothing, whose contract is the law.

ghost use Rattle.std.specs.Prelude.{ℕ, ◌+◌, ◌*◌, ◌≤◌, ◌↔◌};
ghost use Rattle.slot_types.specs.declared.plans.DiePlan.{DiePlan};
ghost use Rattle.demand_rules.specs.declared.terms.TaskTerms.{TaskTerms};
ghost use Rattle.flashplan_terms_design.specs.DieTexts.{least_cap};

/// Exactly the caps from the least one on cover what a task may write in a period and in as many slots as a job may be
/// held, and two collections.
pub fn least_caps_do()
    ensures { (plan : DiePlan) (t : TaskTerms) → 1 ≤ t.period → (cap : ℕ) →
        (t.writes * (t.period + t.held) + 2 * plan.alpha * t.period ≤ cap * t.period) ↔ (least_cap plan t ≤ cap) }
{}
