//! How many slots a life has.

ghost use Rattle.std.specs.Prelude.{◌≡◌, ◌≤◌, ◌↔◌, ℕ, length, sum_by, All, IsTrue, IfSome, IfNone};
ghost use Rattle.std.specs.List.{list_all};
ghost use Rattle.demand_rules.specs.Demand.{IsTaskTerms, HasTerms, periods_within};
ghost use Rattle.planned_log.specs.Lives.{task_arrivals, most_arrivals, IsLife};
ghost use Rattle.planned_die.specs.Remembered.{ends_well};
ghost use Rattle.planned_die.specs.NewPlans.{IsSomeLife};

use demand_rules::{TaskTerms, Terms};
use slot_types::{DiePlan, MAX_JOBS, MAX_SLOT};

fn periods(period: u32, deadline: u32, slots: u32) -> u32
    requires some { 1 ≤ period }
    requires slots { slots ≤ 1048576 }
    ensures periods { result ≡ periods_within period deadline slots }
    ensures within { result ≤ 1048577 }
{
    if deadline <= slots {
        (slots - deadline) / period + 1
    } else {
        0
    }
}

fn one_count(task: &TaskTerms, slots: u32) -> u64
    requires slots { slots ≤ 1048576 }
    requires limits { IsTaskTerms task.now }
    ensures count { result ≡ task_arrivals slots task.now }
    ensures within { result ≤ 1100000000000 }
{
    u64::from(task.work) * u64::from(periods(task.period, task.deadline, slots))
        + u64::from(periods(task.collect_period, task.collect_deadline, slots))
}

/// How many jobs and collections may come in `slots` slots.
fn count(tasks: &[TaskTerms], slots: u32) -> u64
    requires few { length tasks.now ≤ 16 }
    requires slots { slots ≤ 1048576 }
    requires limits { All IsTaskTerms tasks.now }
    ensures { result ≡ sum_by (task_arrivals slots) tasks.now }
{
    let mut total: u64 = 0;
    for task in tasks {
        total += one_count(task, slots);
    }
    total
}

/// Whether each collection of the task that comes in a life of `slots` slots is due by its end.
fn is_well(task: &TaskTerms, slots: u32) -> bool
    ensures { result ≡ ends_well slots task.now }
{
    let past = match slots.checked_rem(task.collect_period) {
        Some(past) => past,
        None => slots,
    };
    past == 0 || task.collect_deadline <= past
}

/// How many jobs and collections may come in a life, with as many operations at most.
pub(crate) fn most_arrivals(plan: &DiePlan, terms: &Terms, life: u32) -> u32
    requires has { HasTerms plan.now terms.now }
    requires few { length plan.now.caps ≤ 16 }
    requires life { IsLife plan.now terms.now life }
    ensures { result ≡ most_arrivals terms.now life }
{
    let _caps = &plan.caps;
    count(terms.tasks.as_slice(), life) as u32
}

fn are_well(tasks: &[TaskTerms], slots: u32) -> bool
    ensures { result ≡ list_all (ends_well slots) tasks.now }
{
    tasks.iter().all(|task| is_well(task, slots))
}

/// Whether `slots` slots are a life.
fn is_life(plan: &DiePlan, terms: &Terms, slots: u32) -> bool
    requires has { HasTerms plan.now terms.now }
    requires few { length plan.now.caps ≤ 16 }
    requires slots { slots ≤ 1048576 }
    ensures { IsTrue result ↔ IsLife plan.now terms.now slots }
{
    let _caps = &plan.caps;
    are_well(terms.tasks.as_slice(), slots)
        && count(terms.tasks.as_slice(), slots) <= u64::from(MAX_JOBS)
}

/// The longest life of a die with this plan that has at most `longest` slots, if there is one. It tries each number of
/// slots from `longest` down.
pub(crate) fn life_of(plan: &DiePlan, terms: &Terms, longest: u32) -> Option<u32>
    requires has { HasTerms plan.now terms.now }
    requires few { length plan.now.caps ≤ 16 }
    ensures life { IfSome result (IsSomeLife plan.now terms.now longest) }
    ensures longer { IfSome result (λ life. (other : ℕ)
        → IsSomeLife plan.now terms.now longest other → other ≤ life) }
    ensures none { IfNone result ((life : ℕ) → ¬ IsSomeLife plan.now terms.now longest life) }
{
    let mut left = longest.min(MAX_SLOT);
    while left > 0 {
        if is_life(plan, terms, left) {
            return Some(left);
        }
        left -= 1;
    }
    None
}
