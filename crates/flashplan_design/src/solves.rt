//! With which numbers a plan would do, one at a time: of those that all dies share for the whole plan, and of those of a
//! task where the other dies do as they are.

ghost use Rattle.std.specs.Prelude.{◌≡◌, All, IfOk, IfSome, IsSomeAnd, OnOk};
ghost use Rattle.slot_types.specs.Refusal.{FailsForMemory};
ghost use Rattle.slot_types.specs.declared.limits.TheConstants.{MAX_SLOT};
ghost use Rattle.plan_rules.specs.Times.{demand};
ghost use Rattle.flashplan_design.specs.Numbers.{FindsGreatest, FindsLeast, with_number};
ghost use Rattle.flashplan_design.specs.Plans.{AllDo, OneDoes, OthersDo};
ghost use Rattle.flashplan_design.specs.Findings.{IsOfTask, IsSo};

use crate::divisors::{greatest_collect_period, least_period};
use crate::findings::{AlphaFinding, Finding, OwnPeriods, OwnWork, Taken, TaskFinding};
use crate::numbers::{Number, with_number};
use crate::plan_commons::least_common_of_all;
use crate::solving::{greatest, least};
use crate::subjects::TaskName;
use crate::wholes::{all_do, greatest_logical_of_all, least_blocks_of_all, others_do};
use plan_rules::{Load, bound, plan_test};
use plan_texts::{PlanNumbers, die_plan};
use slot_types::{DiePlan, MAX_OPS, MAX_PAGES, Refusal};
use std::alloc::Global;

/// The greatest cap that may be needed: for two jobs of 64 writes, and for two collections that give 256 pages.
const MOST_CAP: u32 = 2 * MAX_OPS + 2 * MAX_PAGES;

/// The least of a range with which the task's die would do. Each other die does as it is. The only refusal is NoMemory.
fn own_least(
    alloc: Global,
    plan: &PlanNumbers,
    name: TaskName,
    which: Number,
    from: u32,
    to: u32,
) -> Result<Option<u32>, Refusal>
    requires { OthersDo plan.now name.die }
    ensures found { IfOk result (FindsLeast (OneDoes name.die which plan.now) from to) }
    ensures refused { FailsForMemory result }
{
    let made = die_plan(alloc, plan, name.die)?;
    Ok(least(made, which, from, to))
}

/// The greatest of a range with which the task's die would do. Each other die does as it is. The only refusal is NoMemory.
fn own_greatest(
    alloc: Global,
    plan: &PlanNumbers,
    name: TaskName,
    which: Number,
    from: u32,
    to: u32,
) -> Result<Option<u32>, Refusal>
    requires { OthersDo plan.now name.die }
    ensures found { IfOk result (FindsGreatest (OneDoes name.die which plan.now) from to) }
    ensures refused { FailsForMemory result }
{
    let made = die_plan(alloc, plan, name.die)?;
    Ok(greatest(made, which, from, to))
}

/// The least period with which the task's die would do. Each other die does as it is. The only refusal is NoMemory.
fn own_period(alloc: Global, plan: &PlanNumbers, name: TaskName) -> Result<Option<u32>, Refusal>
    requires { OthersDo plan.now name.die }
    ensures found { IfOk result (FindsLeast (OneDoes name.die (Number.Period name.task) plan.now) 1 MAX_SLOT) }
    ensures refused { FailsForMemory result }
{
    let made = die_plan(alloc, plan, name.die)?;
    Ok(least_period(made, name.task))
}

/// The greatest collect period with which the task's die would do. Each other die does as it is. The only refusal is NoMemory.
fn own_collect_period(
    alloc: Global,
    plan: &PlanNumbers,
    name: TaskName,
) -> Result<Option<u32>, Refusal>
    requires { OthersDo plan.now name.die }
    ensures found { IfOk result (FindsGreatest (OneDoes name.die (Number.CollectPeriod name.task) plan.now) 1 MAX_SLOT) }
    ensures refused { FailsForMemory result }
{
    let made = die_plan(alloc, plan, name.die)?;
    Ok(greatest_collect_period(made, name.task))
}

/// What each number of a task could be. Each other die does as it is. The only refusal is NoMemory.
fn of_task(alloc: Global, plan: &PlanNumbers, name: TaskName) -> Result<TaskFinding, Refusal>
    requires { OthersDo plan.now name.die }
    ensures found { IfOk result (IsOfTask plan.now) }
    ensures refused { FailsForMemory result }
{
    let period = own_period(alloc, plan, name)?;
    let collect_period = own_collect_period(alloc, plan, name)?;
    let cap = own_least(alloc, plan, name, Number::Cap(name.task), 1, MOST_CAP)?;
    let work = own_greatest(alloc, plan, name, Number::Work(name.task), 1, MAX_OPS)?;
    let writes = own_greatest(alloc, plan, name, Number::Writes(name.task), 0, MAX_OPS)?;
    Ok(TaskFinding {
        name,
        periods: OwnPeriods {
            period,
            collect_period,
        },
        work: OwnWork { cap, work, writes },
    })
}

/// Adds what holds of a plan. The only refusal is NoMemory.
fn note(findings: &mut Vec<Finding>, plan: &PlanNumbers, finding: Finding) -> Result<(), Refusal>
    requires so { All (IsSo plan.now) findings.old.items }
    requires one { IsSo plan.now finding }
    ensures so { OnOk result (All (IsSo plan.now) findings.new.items) }
    ensures refused { FailsForMemory result }
{
    findings.push(finding)?;
    Ok(())
}

/// What a die takes with this alpha; none where it doesn't pass, or has no times.
fn load_with(plan: DiePlan, alpha: u32) -> Option<Load>
    ensures demand { IfSome result (λ load. IsSomeAnd plan.times (λ times.
        load.demand ≡ demand (with_number Number.Alpha plan alpha) times)) }
    ensures common { IfSome result (λ load. IsSomeAnd plan.times (λ times. load.common ≡ times.common)) }
{
    let trial = with_number(plan, Number::Alpha, alpha);
    match bound(&trial) {
        Ok(()) => plan_test(&trial).ok(),
        Err(_) => None,
    }
}

/// Adds what each die takes with an alpha with which each does. The only refusal is NoMemory.
fn note_alpha(
    alloc: Global,
    findings: &mut Vec<Finding>,
    plan: &PlanNumbers,
    alpha: u32,
) -> Result<(), Refusal>
    requires so { All (IsSo plan.now) findings.old.items }
    requires does { AllDo Number.Alpha plan.now alpha }
    ensures so { OnOk result (All (IsSo plan.now) findings.new.items) }
    ensures refused { FailsForMemory result }
{
    for die in 0..plan.top.dies {
        if let Some(load) = load_with(die_plan(alloc, plan, die)?, alpha) {
            let (demand, common) = (load.demand, load.common);
            let taken = Taken { demand, common };
            let found = AlphaFinding { die, alpha, taken };
            note(findings, plan, Finding::Alpha(found))?;
        }
    }
    Ok(())
}

/// Adds each alpha with which each die does. The only refusal is NoMemory.
fn note_alphas(
    alloc: Global,
    findings: &mut Vec<Finding>,
    plan: &PlanNumbers,
) -> Result<(), Refusal>
    requires so { All (IsSo plan.now) findings.old.items }
    ensures so { OnOk result (All (IsSo plan.now) findings.new.items) }
    ensures refused { FailsForMemory result }
{
    for alpha in 1..=plan.top.pages {
        if all_do(alloc, plan, Number::Alpha, alpha)? {
            note_alpha(alloc, findings, plan, alpha)?;
        }
    }
    Ok(())
}

/// Adds what each number of each task could be, of each die where all others do. The only refusal is NoMemory.
fn note_tasks(
    alloc: Global,
    findings: &mut Vec<Finding>,
    plan: &PlanNumbers,
    names: &[TaskName],
) -> Result<(), Refusal>
    requires so { All (IsSo plan.now) findings.old.items }
    ensures so { OnOk result (All (IsSo plan.now) findings.new.items) }
    ensures refused { FailsForMemory result }
{
    for name in names {
        if others_do(alloc, plan, name.die)? {
            let found = of_task(alloc, plan, *name)?;
            note(findings, plan, Finding::Task(found))?;
        }
    }
    Ok(())
}

/// With which numbers a plan would do, one at a time: of a plan without times with which blocks and logical pages; and else
/// also with which hyperperiod, with which numbers of its tasks, which have these names, and with which alphas. The only
/// refusal is NoMemory.
pub fn findings_of(
    alloc: Global,
    plan: &PlanNumbers,
    names: &[TaskName],
) -> Result<Vec<Finding>, Refusal>
    ensures so { IfOk result (λ findings. All (IsSo plan.now) findings.items) }
    ensures refused { FailsForMemory result }
{
    let mut findings = Vec::new(alloc);
    let blocks = least_blocks_of_all(alloc, plan)?;
    note(&mut findings, plan, Finding::Blocks(blocks))?;
    let logical = greatest_logical_of_all(alloc, plan)?;
    note(&mut findings, plan, Finding::Logical(logical))?;
    if plan.top.common.is_some() {
        let common = least_common_of_all(alloc, plan)?;
        note(&mut findings, plan, Finding::Common(common))?;
        note_tasks(alloc, &mut findings, plan, names)?;
        note_alphas(alloc, &mut findings, plan)?;
    }
    Ok(findings)
}
