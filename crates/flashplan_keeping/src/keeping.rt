//! Whether a script keeps the plans of its dies, and if not, what breaks them first.

ghost use Rattle.std.specs.Prelude.{◌≡◌, ◌<◌, ◌≤◌, All, IfOk, IfSome, None, length};
ghost use Rattle.plan_rules.specs.Bound.{MeetsBound};
ghost use Rattle.flashplan_arrivals.specs.PlannedScripts.{HasPassed};
ghost use Rattle.flashplan_keeping.specs.Verdicts.{IsBrokenScript, KeepsOn, Says};

use crate::verdicts::{Broken, Verdict};
use flashplan_arrivals::{events_on, test_all};
use flashplan_breaches::{Breach, first_breach};
use plan_rules::keeps_plan;
use slot_types::{Refusal, StorePlan};
use std::alloc::Global;

/// What breaks the plan of a die, unless its rows keep it.
fn die_breach(
    alloc: Global,
    text: &[u8],
    plan: &StorePlan,
    slots: u32,
    die: u32,
) -> Result<Option<Breach>, Refusal>
    requires own { die < length plan.now }
    requires bound { All MeetsBound plan.now }
    requires passed { All HasPassed plan.now }
    ensures broken { IfOk result (λ found.
        IfSome found (IsBrokenScript plan.now slots text.now die)) }
    ensures kept { IfOk result (λ found.
        found ≡ None → KeepsOn plan.now slots text.now die) }
{
    let own = &plan.as_slice()[die as usize];
    let events = events_on(alloc, text, plan, slots, die)?;
    if keeps_plan(own, &events) {
        return Ok(None);
    }
    match &own.times {
        Some(times) => first_breach(alloc, own, times, events.as_slice()),
        None => unreachable!(),
    }
}

/// Whether the rows of a script keep the plan of each die; and if not, a condition that doesn't hold, of the first die
/// whose plan they break. BadPlan comes where a plan has no times that pass their test, and else what the reader of
/// scripts refuses.
pub fn keep(alloc: Global, text: &[u8], plan: &StorePlan, slots: u32) -> Result<Verdict, Refusal>
    requires some { 1 ≤ length plan.now }
    requires few { length plan.now ≤ 8 }
    requires bound { All MeetsBound plan.now }
    ensures { IfOk result (Says plan.now slots text.now) }
{
    test_all(plan.as_slice())?;
    for die in 0..plan.len() {
        let die = die as u32;
        if let Some(breach) = die_breach(alloc, text, plan, slots, die)? {
            return Ok(Verdict::Broken(Broken { die, breach }));
        }
    }
    Ok(Verdict::Kept)
}
