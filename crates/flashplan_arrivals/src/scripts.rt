//! The script of a plan's arrivals.

ghost use Rattle.std.specs.Prelude.{◌≡◌, ◌≤◌, All, length, IfOk, IfErr, OnOk};
ghost use Rattle.plan_rules.specs.Bound.{MeetsBound};
ghost use Rattle.flashplan_arrivals.specs.PlannedScripts.{HasPassed, IsOwnFault, IsPlannedScript, IsUnplanned};

use crate::faults::Fault;
use crate::keeping::keeps_plans;
use crate::makers::script;
use crate::manners::Manner;
use plan_rules::plan_test;
use slot_types::{DiePlan, Refusal, StorePlan};
use std::alloc::Global;

/// The test of each plan, as [`plan_test`](plan_rules::plan_test) tells it: BadPlan where one has no times, or these
/// don't pass their test.
pub fn test_all(plans: &[DiePlan]) -> Result<(), Refusal>
    requires { All MeetsBound plans.now }
    ensures passed { OnOk result (All HasPassed plans.now) }
    ensures refused { IfErr result (λ refusal.
        (refusal ≡ Refusal.BadPlan) × ¬ All HasPassed plans.now) }
{
    for plan in plans {
        match plan_test(plan) {
            Ok(_) => {}
            Err(refusal) => return Err(refusal),
        }
    }
    Ok(())
}

/// Whether the script that was made keeps the plan of each die.
fn kept(alloc: Global, text: &[u8], plan: &StorePlan, slots: u32) -> Result<(), Fault>
    requires some { 1 ≤ length plan.now }
    requires few { length plan.now ≤ 8 }
    requires bound { All MeetsBound plan.now }
    ensures planned { OnOk result (IsPlannedScript plan.now slots text.now) }
    ensures refused { IfErr result IsOwnFault }
{
    match keeps_plans(alloc, text, plan, slots) {
        Ok(true) => Ok(()),
        Err(Refusal::NoMemory) => Err(Fault::Refused(Refusal::NoMemory)),
        Ok(false) | Err(_) => Err(Fault::Astray),
    }
}

/// The script, as its readers take it, of all that the tasks of a plan ask for in `slots` slots. A collection of each
/// task comes at each multiple of its collect period, and a job at each multiple of its period, as far as their
/// deadlines are at most 1,048,576. A job has as many operations as the plan lets it have, and of these as many writes;
/// which ones, and their pages, are drawn by the seed. Where the tasks fill the die, the writing ones share its pages.
/// Each writes its own once, in order, before it draws any, as the plan allows and no later;
/// [`fillings_of`](crate::fillings_of) says from when on all pages are written.
///
/// Else the manner may let the tasks begin at drawn slots, ask late, or leave jobs out; two releases of a task are never closer
/// than its period.
///
/// The text that is given is proved to be a script whose rows keep the plan of their die, so that its run refuses none
/// of them and is never late: [`planned_scripts_go_as_planned`](crate::planned_scripts_go_as_planned).
pub fn arrivals(
    alloc: Global,
    plan: &StorePlan,
    slots: u32,
    manner: Manner,
) -> Result<Vec<u8>, Fault>
    requires some { 1 ≤ length plan.now }
    requires few { length plan.now ≤ 8 }
    requires bound { All MeetsBound plan.now }
    ensures planned { IfOk result (λ text. IsPlannedScript plan.now slots text.items) }
    ensures refused { IfErr result (IsUnplanned plan.now) }
{
    arrivals_from(alloc, plan, slots, manner, &[])
}

/// A script as [`arrivals`] makes it, for dies some of whose pages lie in cells already, by die and page: where the tasks
/// fill a die, each of the writing ones writes those of its pages once, in order, that don't. A die or a page beyond those
/// that are given has none in a cell.
///
/// The rows keep the plan of their die all the same. Its run refuses none of them and is never late where the tasks of each
/// die have the tokens that the plan's work needs, as those of fresh dies do.
pub fn arrivals_from(
    alloc: Global,
    plan: &StorePlan,
    slots: u32,
    manner: Manner,
    held: &[Vec<bool>],
) -> Result<Vec<u8>, Fault>
    requires some { 1 ≤ length plan.now }
    requires few { length plan.now ≤ 8 }
    requires bound { All MeetsBound plan.now }
    ensures planned { IfOk result (λ text. IsPlannedScript plan.now slots text.items) }
    ensures refused { IfErr result (IsUnplanned plan.now) }
{
    test_all(plan.as_slice())?;
    let text = script(alloc, plan, slots, manner, held)?;
    kept(alloc, &text, plan, slots)?;
    Ok(text)
}
