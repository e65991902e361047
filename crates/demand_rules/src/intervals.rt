//! Which intervals have room for what may be asked of them.
//!
//! What may be asked of `n` slots grows with `n`, and only where a deadline is reached. So it is looked at from above,
//! at deadlines alone: where less than `n` is asked of `n` slots, any fewer slots down to what is asked have room for
//! it (Zhang and Burns 2009).

ghost use Rattle.std.specs.Prelude.{◌≡◌, ℕ, ◌+◌, ◌<◌, ◌≤◌, length, All, IfSome, IsNone};
ghost use Rattle.slot_types.specs.declared.limits.TheConstants.{MAX_SLOT};
ghost use Rattle.plan_rules.specs.Bound.{MeetsBound};
ghost use Rattle.demand_rules.specs.Demand.{IsTaskTerms, HasTerms, FitsAllSlots, demand_in, periods_within};
ghost use Rattle.demand_rules.specs.Faults.{HasSlack, IsTightest};
ghost use Rattle.demand_rules.specs.Steady.{IsSteady, AreSteady};

use crate::amounts::total_demand;
use crate::terms::{TaskTerms, Terms};
use slot_types::{DiePlan, MAX_SLOT};

/// An interval by its length, and how many of its slots nothing asks for.
#[derive(Clone, Copy)]
pub(crate) struct Interval {
    pub slots: u32,
    pub slack: u32,
}

/// The interval with the fewest slots left, in a plan where all intervals have room. It is found by halves.
pub(crate) fn tightest(plan: &DiePlan, terms: &Terms) -> Interval
    requires bound { MeetsBound plan.now }
    requires has { HasTerms plan.now terms.now }
    requires fits { FitsAllSlots plan.now terms.now }
    ensures { IsTightest plan.now terms.now result.slots result.slack }
{
    let mut slots = MAX_SLOT;
    let mut slack: u32 = 0;
    let mut above = MAX_SLOT + 1;
    while above - slack > 1 {
        let half = slack + (above - slack) / 2;
        match short_of(plan, terms, MAX_SLOT, half) {
            Some(found) => {
                slots = found;
                above = half;
            }
            None => slack = half,
        }
    }
    Interval { slots, slack }
}

/// The shortest interval of which more is asked than it has, where one is known. It is found by halves.
pub(crate) fn first_overfull(plan: &DiePlan, terms: &Terms, known: u32) -> u32
    requires bound { MeetsBound plan.now }
    requires has { HasTerms plan.now terms.now }
    requires within { known ≤ MAX_SLOT }
    requires over { known < demand_in plan.now terms.now known }
    ensures within { result ≤ MAX_SLOT }
    ensures over { result < demand_in plan.now terms.now result }
    ensures first { (fewer : ℕ) → fewer < result → demand_in plan.now terms.now fewer ≤ fewer }
{
    let mut fit: u32 = 0;
    let mut over = known;
    while over - fit > 1 {
        let half = fit + (over - fit) / 2;
        match short_of(plan, terms, half, 0) {
            Some(found) => over = found,
            None => fit = half,
        }
    }
    over
}

/// An interval of at most `limit` slots of which something is asked and that then has less than `slack` left, if there
/// is one.
pub(crate) fn short_of(plan: &DiePlan, terms: &Terms, limit: u32, slack: u32) -> Option<u32>
    requires bound { MeetsBound plan.now }
    requires has { HasTerms plan.now terms.now }
    requires limit { limit ≤ MAX_SLOT }
    requires slack { slack ≤ MAX_SLOT }
    ensures none { IsNone result → HasSlack plan.now terms.now limit slack }
    ensures within { IfSome result (λ slots. slots ≤ limit) }
    ensures asked { IfSome result (λ slots. 1 ≤ demand_in plan.now terms.now slots) }
    ensures short { IfSome result (λ slots. slots < demand_in plan.now terms.now slots + slack) }
{
    let tasks = terms.tasks.as_slice();
    let mut end = limit + 1;
    while end > 0 {
        let slots = last_deadline(tasks, end);
        let demand = total_demand(plan, tasks, slots);
        if demand == 0 {
            return None;
        }
        if demand + u64::from(slack) > u64::from(slots) {
            return Some(slots);
        }
        end = demand as u32 + slack;
    }
    None
}

// The greatest deadline below `end`, counted from an interval's start, of jobs and collections that come back to back
// from there on; 0 where there is none.
fn last_deadline(tasks: &[TaskTerms], end: u32) -> u32
    requires some { 1 ≤ end }
    requires limits { All IsTaskTerms tasks.now }
    ensures below { result < end }
    ensures steady { AreSteady tasks.now result end }
{
    let mut last = 0;
    for task in tasks {
        last = later(last, task_deadline(task, end));
    }
    last
}

fn task_deadline(task: &TaskTerms, end: u32) -> u32
    requires some { 1 ≤ end }
    requires limits { IsTaskTerms task.now }
    ensures below { result < end }
    ensures jobs { IsSteady (periods_within task.now.period task.now.deadline) result end }
    ensures collections { IsSteady (periods_within task.now.collect_period task.now.collect_deadline) result end }
{
    later(
        deadline_below(task.period, task.deadline, end),
        deadline_below(task.collect_period, task.collect_deadline, end),
    )
}

fn deadline_below(period: u32, deadline: u32, end: u32) -> u32
    requires period { 1 ≤ period }
    requires deadline { 1 ≤ deadline }
    requires end { 1 ≤ end }
    ensures below { result < end }
    ensures steady { IsSteady (periods_within period deadline) result end }
{
    if deadline < end {
        end - 1 - (end - 1 - deadline) % period
    } else {
        0
    }
}

fn later(first: u32, second: u32) -> u32
    ensures first { first ≤ result }
    ensures second { second ≤ result }
    ensures one { (end : ℕ) → first < end → second < end → result < end }
{
    if first < second { second } else { first }
}
