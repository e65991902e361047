//! What the tasks of a die may ask of a number of slots.

ghost use Rattle.std.specs.Prelude.{◌≡◌, ◌≤◌, ◌<◌, ◌*◌, All, length, sum_by};
ghost use Rattle.plan_rules.specs.Bound.{MeetsBound};
ghost use Rattle.demand_rules.specs.Demand.{HasTerms, IsTaskTerms, demand_in, periods_within, task_demand_in};

use demand_rules::TaskTerms;
use slot_types::DiePlan;
use terms_texts::DieTerms;

/// The number of periods whose work may be released in `slots` slots and be due by their end.
fn periods(period: u32, deadline: u32, slots: u32) -> u32
    requires some { 1 ≤ period }
    requires slots { slots ≤ 1048576 }
    ensures periods { result ≡ periods_within period deadline slots }
    ensures within { result ≤ 1048577 }
{
    if deadline <= slots {
        (slots - deadline) / period + 1
    } else {
        0
    }
}

/// What the jobs and collections of a task take of them at most.
fn one_demand(plan: &DiePlan, task: &TaskTerms, slots: u32) -> u64
    requires bound { MeetsBound plan.now }
    requires slots { slots ≤ 1048576 }
    requires limits { IsTaskTerms task.now }
    ensures demand { result ≡ task_demand_in plan.now slots task.now }
    ensures within { result ≤ 1100116656704 }
{
    let collection = 2 * (plan.shape.pages - plan.alpha) + plan.shape.erase_slots;
    let jobs = u64::from(task.work) * u64::from(periods(task.period, task.deadline, slots));
    jobs + u64::from(collection)
        * u64::from(periods(task.collect_period, task.collect_deadline, slots))
}

/// What all tasks take of them.
fn total_demand(plan: &DiePlan, tasks: &[TaskTerms], slots: u32) -> u64
    requires bound { MeetsBound plan.now }
    requires few { length tasks.now ≤ 16 }
    requires slots { slots ≤ 1048576 }
    requires limits { All IsTaskTerms tasks.now }
    ensures { result ≡ sum_by (task_demand_in plan.now slots) tasks.now }
{
    let mut total: u64 = 0;
    for task in tasks {
        total += one_demand(plan, task, slots);
    }
    total
}

/// What the tasks of a die may ask of `slots` slots, 1,048,576 at most.
pub(crate) fn demand_of(made: &DieTerms, slots: u32) -> u64
    requires bound { MeetsBound made.now.plan }
    requires has { HasTerms made.now.plan made.now.terms }
    requires slots { slots ≤ 1048576 }
    ensures { result ≡ demand_in made.now.plan made.now.terms slots }
{
    total_demand(&made.plan, made.terms.tasks.as_slice(), slots)
}
