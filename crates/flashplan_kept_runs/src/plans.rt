//! The plans that dies keep.

ghost use Rattle.std.specs.Prelude.{◌≡◌, IfOk, map};
ghost use Rattle.std.specs.List.{AllZip};
ghost use Rattle.slot_types.specs.Refusal.{FailsForMemory};
ghost use Rattle.demand_rules.specs.Earlier.{as_task_terms, as_terms};
ghost use Rattle.flashplan_kept_runs.specs.KeptPlans.{IsKeptPlan};

use crate::lists::push;
use demand_rules::{TaskTerms, Terms, TermsList};
use slot_types::{Caps, DiePlan, Refusal, StorePlan, TaskTimes, Times};
use std::alloc::Global;
use terms_texts::{DieTerms, StoreTerms};

/// The terms that the times of a task mean: its jobs are due a period after they come, and its collections a collect
/// period.
fn task_terms(times: &TaskTimes) -> TaskTerms
    ensures { result ≡ as_task_terms times.now }
{
    TaskTerms {
        period: times.period,
        deadline: times.period,
        held: times.period,
        work: times.work,
        writes: times.writes,
        collect_period: times.collect_period,
        collect_deadline: times.collect_period,
    }
}

/// The terms that the times of tasks mean, one after the other. The only refusal is NoMemory.
fn tasks_of(alloc: Global, tasks: &[TaskTimes]) -> Result<Vec<TaskTerms>, Refusal>
    ensures ok { IfOk result (λ terms. terms.items ≡ map as_task_terms tasks.now) }
    ensures refused { FailsForMemory result }
{
    let mut terms = Vec::new(alloc);
    for task in tasks {
        push(&mut terms, task_terms(task))?;
    }
    Ok(terms)
}

/// The terms that times mean, task by task. The only refusal is NoMemory.
pub fn terms_of_times(alloc: Global, times: &Times) -> Result<Terms, Refusal>
    ensures ok { IfOk result (λ terms. terms ≡ as_terms times.now) }
    ensures refused { FailsForMemory result }
{
    let tasks = tasks_of(alloc, times.tasks.as_slice())?;
    Ok(Terms {
        tasks: TermsList::from_vec(tasks),
    })
}

/// The plan that a die keeps, of a plan with times: BadPlan of one without. It isn't tested.
fn kept_plan(alloc: Global, plan: &DiePlan) -> Result<DieTerms, Refusal>
    ensures { IfOk result (IsKeptPlan plan.now) }
{
    let Some(times) = &plan.times else {
        return Err(Refusal::BadPlan);
    };
    let terms = terms_of_times(alloc, times)?;
    let caps = Vec::from_slice(alloc, plan.caps.as_slice())?;
    Ok(DieTerms {
        plan: DiePlan {
            shape: plan.shape,
            logical: plan.logical,
            alpha: plan.alpha,
            caps: Caps::from_vec(caps),
            times: None,
        },
        terms,
    })
}

/// The plans that the dies of a store keep, of plans with times: each die has the terms that its times mean. They aren't
/// tested. BadPlan, where one has no times; or NoMemory.
pub fn kept_plans(alloc: Global, plans: &StorePlan) -> Result<StoreTerms, Refusal>
    ensures { IfOk result (AllZip IsKeptPlan plans.now) }
{
    let mut store = Vec::new(alloc);
    for plan in plans.as_slice() {
        let kept = kept_plan(alloc, plan)?;
        push(&mut store, kept)?;
    }
    Ok(StoreTerms::from_vec(store))
}
