//! A plan that was found, as a page shows it: times stand as terms.

ghost use Rattle.std.specs.Prelude.{IfOk};
ghost use Rattle.plan_rules.specs.Bound.{MeetsBound};

use demand_rules::{DemandLoad, TaskTerms, TermsList, demand_test};
use flashplan_fit::{Fitted, Part, Sheet};
use plan_rules::{bound, plan_test};
use plan_texts::read_plan;
use slot_types::{DiePlan, Refusal, TaskTimes};
use std::alloc::Global;
use terms_texts::read_terms;

/// What is asked of the slots of a plan.
#[derive(Clone, Copy, Drop)]
pub(crate) enum Load {
    /// Of each `common` slots all tasks take at most `demand`.
    Times { demand: u64, common: u32 },
    Terms(DemandLoad),
}

/// A plan of one die, with the terms of its tasks. Times are terms whose deadlines are their periods.
#[derive(Drop)]
pub(crate) struct DesignPlan {
    pub(crate) plan: DiePlan,
    pub(crate) tasks: TermsList,
    pub(crate) load: Load,
}

/// The terms of a task with times.
fn terms_of(task: &TaskTimes) -> TaskTerms {
    TaskTerms {
        period: task.period,
        deadline: task.period,
        held: task.period,
        work: task.work,
        writes: task.writes,
        collect_period: task.collect_period,
        collect_deadline: task.collect_period,
    }
}

/// The terms of tasks with times. The only refusal is NoMemory.
fn all_terms_of(alloc: Global, tasks: &[TaskTimes]) -> Result<TermsList, Refusal> {
    let mut terms = TermsList::new(alloc);
    for task in tasks {
        terms.push(terms_of(task))?;
    }
    Ok(terms)
}

/// A die with times, as a page shows it. BadPlan where it has none, or doesn't pass its test, or meet its bound.
fn with_times(alloc: Global, plan: DiePlan) -> Result<DesignPlan, Refusal>
    ensures { IfOk result (λ design. MeetsBound design.plan) }
{
    if bound(&plan).is_err() {
        return Err(Refusal::BadPlan);
    }
    let load = plan_test(&plan)?;
    let Some(times) = &plan.times else {
        return Err(Refusal::BadPlan);
    };
    let tasks = all_terms_of(alloc, times.tasks.as_slice())?;
    Ok(DesignPlan {
        plan,
        tasks,
        load: Load::Times {
            demand: load.demand,
            common: load.common,
        },
    })
}

/// The plan with times of a text.
fn read_times(alloc: Global, text: &[u8]) -> Result<DesignPlan, Refusal>
    ensures { IfOk result (λ design. MeetsBound design.plan) }
{
    let mut dies = read_plan(alloc, text)?.into_vec();
    match dies.pop() {
        Some(plan) => with_times(alloc, plan),
        None => Err(Refusal::BadPlan),
    }
}

/// The plan with terms of a text.
fn read_with_terms(alloc: Global, text: &[u8]) -> Result<DesignPlan, Refusal>
    ensures { IfOk result (λ design. MeetsBound design.plan) }
{
    let mut dies = match read_terms(alloc, text) {
        Ok(store) => store.into_vec(),
        Err(refusal) => return Err(refusal.refusal()),
    };
    let Some(die) = dies.pop() else {
        return Err(Refusal::BadPlan);
    };
    if bound(&die.plan).is_err() {
        return Err(Refusal::BadPlan);
    }
    let Ok(load) = demand_test(&die.plan, &die.terms) else {
        return Err(Refusal::BadPlan);
    };
    Ok(DesignPlan {
        plan: die.plan,
        tasks: die.terms.tasks,
        load: Load::Terms(load),
    })
}

/// The plan of a text that was found. NoMemory; or as it is refused where it isn't read again, which has never been seen.
pub(crate) fn read_found(alloc: Global, fitted: &Fitted) -> Result<DesignPlan, Refusal>
    ensures { IfOk result (λ design. MeetsBound design.plan) }
{
    if fitted.sheet.is_plain() {
        read_times(alloc, fitted.text.as_slice())
    } else {
        read_with_terms(alloc, fitted.text.as_slice())
    }
}

/// What a page is of: a datasheet, the plan that was found for it, and how many microseconds its slots take.
#[derive(Clone, Copy)]
pub(crate) struct Design<'a> {
    pub(crate) sheet: &'a Sheet,
    pub(crate) plan: &'a DiePlan,
    pub(crate) tasks: &'a [TaskTerms],
    pub(crate) load: Load,
    pub(crate) slot_us: u32,
}

impl Design<'_> {
    pub(crate) fn part(&self) -> &Part {
        &self.sheet.part
    }

    /// The most slots of a collection.
    pub(crate) fn collection(&self) -> u32 {
        let copies = self.plan.shape.pages.saturating_sub(self.plan.alpha);
        copies
            .saturating_mul(2)
            .saturating_add(self.plan.shape.erase_slots)
    }
}
