//! Whether a script keeps the plans of its dies.

ghost use Rattle.std.specs.Prelude.{◌≤◌, All, IfOk, IsTrue, length};
ghost use Rattle.plan_rules.specs.Bound.{MeetsBound};
ghost use Rattle.flashplan_arrivals.specs.PlannedScripts.{AreKept, IsPlannedScript};

use crate::die_events::{Events, events_on};
use plan_rules::{keeps_plan, plan_test};
use slot_types::{DiePlan, Refusal, StorePlan};
use std::alloc::Global;

/// Whether events keep a plan, whose times pass their test.
fn keeps_its_plan(plan: &DiePlan, events: &Events) -> bool
    requires { MeetsBound plan.now }
    ensures { IsTrue result → AreKept plan.now events.now }
{
    match plan_test(plan) {
        Ok(_) => keeps_plan(plan, events),
        Err(_) => false,
    }
}

/// Whether the text is a script for a store's dies and `slots` slots, and the rows of each die keep its plan, with
/// times that pass their test.
pub fn keeps_plans(
    alloc: Global,
    text: &[u8],
    plan: &StorePlan,
    slots: u32,
) -> Result<bool, Refusal>
    requires some { 1 ≤ length plan.now }
    requires few { length plan.now ≤ 8 }
    requires bound { All MeetsBound plan.now }
    ensures { IfOk result (λ keeps. IsTrue keeps → IsPlannedScript plan.now slots text.now) }
{
    let plans = plan.as_slice();
    for die in 0..plans.len() {
        let events = events_on(alloc, text, plan, slots, die as u32)?;
        if !keeps_its_plan(&plans[die], &events) {
            return Ok(false);
        }
    }
    Ok(true)
}
