//! What follows from the test. Each law is a function that does nothing, whose contract is the law.

ghost use Rattle.std.specs.Prelude.{List};
ghost use Rattle.slot_types.specs.declared.plans.DiePlan.{DiePlan};
ghost use Rattle.slot_types.specs.declared.plans.Times.{Times};
ghost use Rattle.slot_types.specs.declared.events.Event.{Event};
ghost use Rattle.plan_rules.specs.Times.{Passes};
ghost use Rattle.plan_rules.specs.Keeping.{KeepsPlan};
ghost use Rattle.demand_rules.specs.declared.terms.Terms.{Terms};
ghost use Rattle.demand_rules.specs.Demand.{PassesDemand};
ghost use Rattle.demand_rules.specs.Supply.{PassesSupply};
ghost use Rattle.demand_rules.specs.Keeping.{KeepsDemandPlan};
ghost use Rattle.demand_rules.specs.Earlier.{as_terms};
ghost use Rattle.demand_rules.specs.Fitting.{FitsWindows};

/// The demand criterion. Where a plan passes the test and events keep it, what is released in any slots and due by
/// their end takes no more slots than these.
pub fn demand_fits_windows()
    ensures { (plan : DiePlan) (terms : Terms) → PassesDemand plan terms →
        (all : List Event) → KeepsDemandPlan plan terms all → FitsWindows plan all }
{}

/// A plan with times that passes its test passes both tests, where a job is due a period after its release; and events
/// that keep it keep it still.
pub fn passing_plans_pass()
    ensures demand { (plan : DiePlan) (times : Times) → Passes plan times
        → PassesDemand plan (as_terms times) }
    ensures supply { (plan : DiePlan) (times : Times) → Passes plan times
        → PassesSupply plan (as_terms times) }
    ensures keeping { (plan : DiePlan) (times : Times) (all : List Event) →
        KeepsPlan plan times all → KeepsDemandPlan plan (as_terms times) all }
{}
