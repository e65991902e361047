//! Up to which number of slots it is enough to look.
//!
//! Once every deadline is reached, what may be asked grows by the same with each common multiple of all periods. Where that
//! is no more than the multiple, no longer interval is the first without room (Baruah, Rosier and Howell 1990).

ghost use Rattle.std.specs.Prelude.{◌≡◌, ◌+◌, ◌%◌, ◌≤◌, All, IfSome};
ghost use Rattle.std.specs.Int.{IsGcd};
ghost use Rattle.slot_types.specs.declared.limits.TheConstants.{MAX_SLOT};
ghost use Rattle.plan_rules.specs.Bound.{MeetsBound};
ghost use Rattle.demand_rules.specs.Demand.{FitsAllSlots, HasTerms, IsTaskTerms};
ghost use Rattle.demand_trials.specs.Repeats.{AreDueBy, Divide, FitsBelow};

use crate::amounts::total_demand;
use demand_rules::{TaskTerms, Terms};
use slot_types::{DiePlan, MAX_SLOT};

/// Where any fewer slots than these have room for what may be asked of them, each number does that a life may have.
pub(crate) fn enough(plan: &DiePlan, terms: &Terms) -> u32
    requires bound { MeetsBound plan.now }
    requires has { HasTerms plan.now terms.now }
    ensures within { result ≤ MAX_SLOT + 1 }
    ensures enough { FitsBelow plan.now terms.now result → FitsAllSlots plan.now terms.now }
{
    match repeats_from(plan, terms) {
        Some(end) => end,
        None => MAX_SLOT + 1,
    }
}

// The end of the first common multiple that begins where every deadline is reached, if it has room for what is added in it.
fn repeats_from(plan: &DiePlan, terms: &Terms) -> Option<u32>
    requires bound { MeetsBound plan.now }
    requires has { HasTerms plan.now terms.now }
    ensures within { IfSome result (λ end. end ≤ MAX_SLOT) }
    ensures enough { IfSome result (λ end. FitsBelow plan.now terms.now end → FitsAllSlots plan.now terms.now) }
{
    let tasks = terms.tasks.as_slice();
    let common = common_of(tasks)?;
    let far = last_deadline(tasks);
    let end = far + common;
    if end > MAX_SLOT {
        return None;
    }
    let before = total_demand(plan, tasks, far);
    let after = total_demand(plan, tasks, end);
    if after <= before + u64::from(common) {
        Some(end)
    } else {
        None
    }
}

// A number of slots that every period divides, where one up to 1,048,576 is found.
fn common_of(tasks: &[TaskTerms]) -> Option<u32>
    requires limits { All IsTaskTerms tasks.now }
    ensures some { IfSome result (λ common. 1 ≤ common) }
    ensures within { IfSome result (λ common. common ≤ MAX_SLOT) }
    ensures divide { IfSome result (λ common. All (Divide common) tasks.now) }
{
    let mut common: u32 = 1;
    for task in tasks {
        let jobs = multiple_of(common, task.period)?;
        common = multiple_of(jobs, task.collect_period)?;
    }
    Some(common)
}

// The least number that both divide, where it is at most 1,048,576.
fn multiple_of(first: u32, second: u32) -> Option<u32>
    requires first { 1 ≤ first }
    requires second { 1 ≤ second }
    ensures some { IfSome result (λ both. 1 ≤ both) }
    ensures within { IfSome result (λ both. both ≤ MAX_SLOT) }
    ensures first { IfSome result (λ both. both % first ≡ 0) }
    ensures second { IfSome result (λ both. both % second ≡ 0) }
{
    let divisor = greatest_divisor(first, second);
    let both = (first / divisor).checked_mul(second)?;
    if both <= MAX_SLOT { Some(both) } else { None }
}

// The greatest number that divides both.
fn greatest_divisor(first: u32, second: u32) -> u32
    requires { 1 ≤ first }
    ensures some { 1 ≤ result }
    ensures greatest { IsGcd first second result }
{
    let (mut divisor, mut rest) = (first, second);
    while rest > 0 {
        (divisor, rest) = (rest, divisor % rest);
    }
    divisor
}

// The greatest deadline of jobs and collections.
fn last_deadline(tasks: &[TaskTerms]) -> u32
    requires limits { All IsTaskTerms tasks.now }
    ensures within { result ≤ MAX_SLOT }
    ensures due { All (AreDueBy result) tasks.now }
{
    let mut last: u32 = 0;
    for task in tasks {
        last = last.max(task.deadline).max(task.collect_deadline);
    }
    last
}
