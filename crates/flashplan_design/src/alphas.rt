//! What another alpha comes to, with the caps and the collect periods that go with it, by die.

ghost use Rattle.std.specs.Prelude.{◌≡◌, ◌↔◌, ◌≤◌, All, IfOk, IfSome, IsSomeAnd, IsTrue, OnOk, Some, map};
ghost use Rattle.std.specs.List.{AllZip};
ghost use Rattle.slot_types.specs.Refusal.{FailsForMemory};
ghost use Rattle.plan_rules.specs.Times.{PassesItsTimes, demand};
ghost use Rattle.plan_texts.specs.Stores.{IsUsable, die_of};
ghost use Rattle.flashplan_design.specs.Alphas.{GivesBack, GoesAlong, IsRow, IsSlowed, least_cap};
ghost use Rattle.flashplan_design.specs.Divisors.{AreAllDivisors};
ghost use Rattle.flashplan_design.specs.Numbers.{FindsGreatest};
ghost use Rattle.flashplan_design.specs.Trials.{IsGreatestLogical};

use crate::all_divisors::all_divisors;
use crate::findings::Taken;
use crate::numbers::would_do;
use crate::trials::greatest_logical;
use plan_rules::plan_test;
use plan_texts::{PlanNumbers, die_plan};
use slot_types::{Caps, DiePlan, Refusal, TaskTimes, Times, TimesList};
use std::alloc::Global;

/// A die with another alpha, the least caps and the longest collect periods, and what that comes to.
#[derive(Drop)]
pub struct AlphaRow {
    pub die: u32,
    pub plan: DiePlan,
    pub taken: Taken,
    /// The greatest number of logical pages that its bound allows.
    pub logical: u32,
    /// Whether it would do with as many as it has.
    pub does: bool,
}

/// The longest of all divisors of the hyperperiod with which a task's collections give back what its jobs write; none
/// where none does.
fn longest(divisors: &[u32], common: u32, alpha: u32, task: &TaskTimes) -> Option<u32>
    requires { AreAllDivisors common divisors.now }
    ensures { FindsGreatest (GivesBack alpha common task.now) 1 common result }
{
    let given = u64::from(alpha) * u64::from(task.period);
    let mut best: u32 = 0;
    for n in divisors {
        if best < *n && u64::from(task.writes) * u64::from(*n) <= given {
            best = *n;
        }
    }
    if best == 0 { None } else { Some(best) }
}

/// The times of a task with the longest collect period that goes with an alpha.
fn slowed(divisors: &[u32], common: u32, alpha: u32, task: &TaskTimes) -> Option<TaskTimes>
    requires { AreAllDivisors common divisors.now }
    ensures { IfSome result (IsSlowed alpha common task.now) }
{
    let collect_period = longest(divisors, common, alpha, task)?;
    Some(TaskTimes {
        collect_period,
        ..*task
    })
}

/// The times of all tasks so; none where one of them has no such collect period. The only refusal is NoMemory.
fn all_slowed(
    alloc: Global,
    divisors: &[u32],
    common: u32,
    alpha: u32,
    tasks: &[TaskTimes],
) -> Result<Option<TimesList>, Refusal>
    requires { AreAllDivisors common divisors.now }
    ensures slowed { IfOk result (λ made. IfSome made (AllZip (IsSlowed alpha common) tasks.now)) }
    ensures refused { FailsForMemory result }
{
    let mut made = TimesList::new(alloc);
    for i in 0..tasks.len() {
        let Some(task) = slowed(divisors, common, alpha, &tasks[i]) else {
            return Ok(None);
        };
        made.push(task)?;
    }
    Ok(Some(made))
}

/// The least cap that goes with an alpha; none where it would be no number of a plan.
fn cap_with(alpha: u32, task: &TaskTimes) -> Option<u32>
    ensures { IfSome result (λ cap. cap ≡ least_cap alpha task.now) }
{
    let given = 2 * u64::from(task.writes) + 2 * u64::from(alpha);
    u32::try_from(given).ok()
}

/// The least caps of all tasks. The only refusal is NoMemory.
fn caps_with(alloc: Global, alpha: u32, tasks: &[TaskTimes]) -> Result<Option<Caps>, Refusal>
    ensures caps { IfOk result (λ made. IfSome made (λ caps.
        caps ≡ map (least_cap alpha) tasks.now)) }
    ensures refused { FailsForMemory result }
{
    let mut made = Caps::new(alloc);
    for i in 0..tasks.len() {
        let Some(cap) = cap_with(alpha, &tasks[i]) else {
            return Ok(None);
        };
        made.push(cap)?;
    }
    Ok(Some(made))
}

/// A die with this alpha, and the caps and the collect periods that go with it; none where it has no times, or a task has no
/// such collect period. The only refusal is NoMemory.
fn along(
    alloc: Global,
    divisors: &[u32],
    common: u32,
    plan: DiePlan,
    alpha: u32,
) -> Result<Option<DiePlan>, Refusal>
    requires divisors { AreAllDivisors common divisors.now }
    requires common { IfSome plan.times (λ times. times.common ≡ common) }
    ensures along { IfOk result (λ made. IfSome made (GoesAlong plan alpha)) }
    ensures refused { FailsForMemory result }
{
    let Some(times) = &plan.times else {
        return Ok(None);
    };
    let tasks = times.tasks.as_slice();
    let Some(caps) = caps_with(alloc, alpha, tasks)? else {
        return Ok(None);
    };
    let Some(tasks) = all_slowed(alloc, divisors, common, alpha, tasks)? else {
        return Ok(None);
    };
    Ok(Some(DiePlan {
        shape: plan.shape,
        logical: plan.logical,
        alpha,
        caps,
        times: Some(Times { common, tasks }),
    }))
}

/// What such a die comes to; none where its bound is met with no number of logical pages, or it doesn't pass its test.
fn row_of(die: u32, plan: DiePlan) -> Option<AlphaRow>
    ensures alike { IfSome result (λ row. (row.plan ≡ plan) × (row.die ≡ die)) }
    ensures passes { IfSome result (λ row. PassesItsTimes plan) }
    ensures demand { IfSome result (λ row.
        IsSomeAnd plan.times (λ times. row.taken.demand ≡ demand plan times)) }
    ensures common { IfSome result (λ row.
        IsSomeAnd plan.times (λ times. row.taken.common ≡ times.common)) }
    ensures logical { IfSome result (λ row. IsGreatestLogical plan row.logical) }
    ensures does { IfSome result (λ row. IsTrue row.does ↔ IsUsable plan) }
{
    let mut plan = plan;
    let logical = greatest_logical(&mut plan)?;
    let own = plan.logical;
    plan.logical = logical;
    let Ok(load) = plan_test(&plan) else {
        return None;
    };
    plan.logical = own;
    let does = would_do(&plan);
    let (demand, common) = (load.demand, load.common);
    Some(AlphaRow {
        die,
        plan,
        taken: Taken { demand, common },
        logical,
        does,
    })
}

/// The row of a die with this alpha, if there is one. The only refusal is NoMemory.
fn row_with(
    alloc: Global,
    plan: &PlanNumbers,
    divisors: &[u32],
    common: u32,
    die: u32,
    alpha: u32,
) -> Result<Option<AlphaRow>, Refusal>
    requires divisors { AreAllDivisors common divisors.now }
    requires common { plan.now.top.common ≡ Some common }
    requires some { 1 ≤ alpha }
    requires few { alpha ≤ plan.now.top.pages }
    ensures row { IfOk result (λ row. IfSome row (IsRow plan.now)) }
    ensures refused { FailsForMemory result }
{
    let own = die_plan(alloc, plan, die)?;
    match along(alloc, divisors, common, own, alpha)? {
        Some(made) => Ok(row_of(die, made)),
        None => Ok(None),
    }
}

/// Adds a row of a plan. The only refusal is NoMemory.
fn add_row(rows: &mut Vec<AlphaRow>, plan: &PlanNumbers, row: AlphaRow) -> Result<(), Refusal>
    requires so { All (IsRow plan.now) rows.old.items }
    requires row { IsRow plan.now row }
    ensures so { OnOk result (All (IsRow plan.now) rows.new.items) }
    ensures refused { FailsForMemory result }
{
    rows.push(row)?;
    Ok(())
}

/// Adds a row of a plan, if there is one. The only refusal is NoMemory.
fn note_row(
    rows: &mut Vec<AlphaRow>,
    plan: &PlanNumbers,
    found: Option<AlphaRow>,
) -> Result<(), Refusal>
    requires so { All (IsRow plan.now) rows.old.items }
    requires row { IfSome found (IsRow plan.now) }
    ensures so { OnOk result (All (IsRow plan.now) rows.new.items) }
    ensures refused { FailsForMemory result }
{
    match found {
        Some(row) => add_row(rows, plan, row),
        None => Ok(()),
    }
}

/// What each alpha comes to, from 1 to the pages of a block, by die, with the caps and the collect periods that go with it,
/// where the die passes the test of its times so. A plan without times has none of it. The only refusal is NoMemory.
pub fn alpha_rows(alloc: Global, plan: &PlanNumbers) -> Result<Vec<AlphaRow>, Refusal>
    ensures rows { IfOk result (λ rows. All (IsRow plan.now) rows.items) }
    ensures refused { FailsForMemory result }
{
    let mut rows = Vec::new(alloc);
    let Some(common) = plan.top.common else {
        return Ok(rows);
    };
    let divisors = all_divisors(alloc, common)?;
    for before in 0..plan.top.pages {
        for die in 0..plan.top.dies {
            let found = row_with(alloc, plan, &divisors, common, die, before + 1)?;
            note_row(&mut rows, plan, found)?;
        }
    }
    Ok(rows)
}
