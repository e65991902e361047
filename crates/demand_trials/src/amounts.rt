//! What tasks may ask of a number of slots, and of all slots in the long run.

ghost use Rattle.std.specs.Prelude.{◌≡◌, ◌≤◌, length, sum_by, All};
ghost use Rattle.plan_rules.specs.Bound.{MeetsBound};
ghost use Rattle.demand_rules.specs.Demand.{IsTaskTerms, periods_within, task_demand_in, task_load};

use demand_rules::TaskTerms;
use slot_types::DiePlan;

/// All slots, in the unit of a load.
pub(crate) const MILLION: u64 = 1_000_000;

// Of a million slots, how many all tasks take in the long run: at most 16 times 1,049,152 millions.
pub(crate) fn total_load(plan: &DiePlan, tasks: &[TaskTerms]) -> u64
    requires bound { MeetsBound plan.now }
    requires few { length tasks.now ≤ 16 }
    requires limits { All IsTaskTerms tasks.now }
    ensures { result ≡ sum_by (task_load plan.now) tasks.now }
{
    let mut total: u64 = 0;
    for task in tasks {
        total += one_load(plan, task);
    }
    total
}

fn one_load(plan: &DiePlan, task: &TaskTerms) -> u64
    requires bound { MeetsBound plan.now }
    requires limits { IsTaskTerms task.now }
    ensures load { result ≡ task_load plan.now task.now }
    ensures within { result ≤ 1049152000000 }
{
    let collection = 2 * (plan.shape.pages - plan.alpha) + plan.shape.erase_slots;
    u64::from(task.work) * MILLION / u64::from(task.period)
        + u64::from(collection) * MILLION / u64::from(task.collect_period)
}

// What all tasks may ask of `slots` slots: at most 16 times 1,049,152 times 1,048,577.
pub(crate) fn total_demand(plan: &DiePlan, tasks: &[TaskTerms], slots: u32) -> u64
    requires bound { MeetsBound plan.now }
    requires few { length tasks.now ≤ 16 }
    requires slots { slots ≤ 1048576 }
    requires limits { All IsTaskTerms tasks.now }
    ensures demand { result ≡ sum_by (task_demand_in plan.now slots) tasks.now }
    ensures within { result ≤ 17601866507264 }
{
    let mut total: u64 = 0;
    for task in tasks {
        total += one_demand(plan, task, slots);
    }
    total
}

fn one_demand(plan: &DiePlan, task: &TaskTerms, slots: u32) -> u64
    requires bound { MeetsBound plan.now }
    requires slots { slots ≤ 1048576 }
    requires limits { IsTaskTerms task.now }
    ensures demand { result ≡ task_demand_in plan.now slots task.now }
    ensures within { result ≤ 1100116656704 }
{
    let collection = 2 * (plan.shape.pages - plan.alpha) + plan.shape.erase_slots;
    let jobs = u64::from(task.work) * u64::from(periods(task.period, task.deadline, slots));
    jobs + u64::from(collection)
        * u64::from(periods(task.collect_period, task.collect_deadline, slots))
}

fn periods(period: u32, deadline: u32, slots: u32) -> u32
    requires some { 1 ≤ period }
    requires slots { slots ≤ 1048576 }
    ensures periods { result ≡ periods_within period deadline slots }
    ensures within { result ≤ 1048577 }
{
    if deadline <= slots {
        (slots - deadline) / period + 1
    } else {
        0
    }
}
