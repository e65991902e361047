//! Changes of one number with which a plan would do, the cheapest first.

ghost use Rattle.std.specs.Prelude.{◌≡◌, ◌++◌, IfOk, OnOk, slice_index};
ghost use Rattle.std.specs.List.Sorted.{IsNonDecreasingBy, IsPermutation};
ghost use Rattle.slot_types.specs.Refusal.{FailsForMemory};
ghost use Rattle.plan_rules.specs.Times.{times_of};
ghost use Rattle.flashplan_design.specs.Changes.{AreRanked, all_changes, alpha_change, basic_price, changes_of, distance};
ghost use Rattle.flashplan_design.specs.Changes.{number_of, own_change, price, shared_change, time_changes, time_number, work_changes};

use crate::findings::{AlphaFinding, Finding, TaskFinding};
use crate::numbers::{Number, task_times};
use crate::subjects::TaskName;
use plan_texts::{PlanNumbers, die_plan};
use slot_types::{DiePlan, Refusal, Times};
use std::alloc::Global;

/// Another number in place of one that a plan has.
#[derive(Clone, Copy, PartialEq, Eq, Debug, Drop)]
pub struct Change {
    /// The task whose number it is; none where all dies share it.
    pub of: Option<TaskName>,
    pub which: Number,
    pub from: u32,
    pub to: u32,
}

/// What a change of such a number costs in addition to how great it is: more than any change of a number of
/// collections.
const OF_NEEDS: u64 = 10_000_000_000_000_000;

impl Change {
    /// What a change of such a number costs at least: nothing where it is one of collections, which a designer chooses.
    fn basic_price(self) -> u64
        ensures { result ≡ basic_price self.which }
    {
        match self.which {
            Number::Alpha | Number::Common | Number::Cap(_) | Number::CollectPeriod(_) => 0,
            Number::Blocks
            | Number::Logical
            | Number::Period(_)
            | Number::Work(_)
            | Number::Writes(_) => OF_NEEDS,
        }
    }

    /// How dear it is: by how many millionths the number changes; changes of what the part has and the tasks need cost
    /// more than any other.
    pub fn price(self) -> u64
        ensures { result ≡ price self }
    {
        let apart = u64::from(self.from.saturating_sub(self.to))
            + u64::from(self.to.saturating_sub(self.from));
        self.basic_price() + apart * 1_000_000 / u64::from(self.from.max(1))
    }
}

/// A number as a die's plan has it; 0 where it has none.
fn number_of(plan: &DiePlan, which: Number) -> u32
    ensures { result ≡ number_of plan.now which }
{
    match which {
        Number::Blocks => plan.shape.blocks,
        Number::Logical => plan.logical,
        Number::Alpha => plan.alpha,
        Number::Cap(task) => cap_of(plan, task),
        _ => match &plan.times {
            Some(times) => time_number(times, which),
            None => 0,
        },
    }
}

/// A cap of a plan; 0 where the task isn't there.
fn cap_of(plan: &DiePlan, task: u32) -> u32
    ensures { result ≡ slice_index plan.now.caps task }
{
    match plan.caps.get(task as usize) {
        Some(cap) => *cap,
        None => 0,
    }
}

/// A number of times; 0 where it is none of these.
fn time_number(times: &Times, which: Number) -> u32
    ensures { result ≡ time_number times.now which }
{
    match which {
        Number::Common => times.common,
        Number::Period(task) => task_times(times, task).period,
        Number::CollectPeriod(task) => task_times(times, task).collect_period,
        Number::Work(task) => task_times(times, task).work,
        Number::Writes(task) => task_times(times, task).writes,
        Number::Blocks | Number::Logical | Number::Alpha | Number::Cap(_) => 0,
    }
}

/// Adds the change of a number that all dies share to one that was found, if one was. The only refusal is NoMemory.
fn put_shared(
    alloc: Global,
    changes: &mut Vec<Change>,
    plan: &PlanNumbers,
    which: Number,
    found: Option<u32>,
) -> Result<(), Refusal>
    ensures put { OnOk result (changes.new.items
        ≡ changes.old.items ++ shared_change plan.now which found) }
    ensures refused { FailsForMemory result }
{
    let Some(to) = found else {
        return Ok(());
    };
    let own = die_plan(alloc, plan, 0)?;
    changes.push(Change {
        of: None,
        which,
        from: number_of(&own, which),
        to,
    })?;
    Ok(())
}

/// Adds the change of a number of a task. The only refusal is NoMemory.
fn put_own(
    alloc: Global,
    changes: &mut Vec<Change>,
    plan: &PlanNumbers,
    name: TaskName,
    which: Number,
    found: Option<u32>,
) -> Result<(), Refusal>
    ensures put { OnOk result (changes.new.items
        ≡ changes.old.items ++ own_change plan.now name which found) }
    ensures refused { FailsForMemory result }
{
    let Some(to) = found else {
        return Ok(());
    };
    let own = die_plan(alloc, plan, name.die)?;
    changes.push(Change {
        of: Some(name),
        which,
        from: number_of(&own, which),
        to,
    })?;
    Ok(())
}

/// Adds the changes of a task's periods. The only refusal is NoMemory.
fn put_times(
    alloc: Global,
    changes: &mut Vec<Change>,
    plan: &PlanNumbers,
    found: TaskFinding,
) -> Result<(), Refusal>
    ensures put { OnOk result (changes.new.items ≡ changes.old.items ++ time_changes plan.now found) }
    ensures refused { FailsForMemory result }
{
    let name = found.name;
    let period = Number::Period(name.task);
    put_own(alloc, changes, plan, name, period, found.periods.period)?;
    let collect_period = Number::CollectPeriod(name.task);
    put_own(
        alloc,
        changes,
        plan,
        name,
        collect_period,
        found.periods.collect_period,
    )
}

/// Adds the changes of a task's cap, and of what its jobs do. The only refusal is NoMemory.
fn put_work(
    alloc: Global,
    changes: &mut Vec<Change>,
    plan: &PlanNumbers,
    found: TaskFinding,
) -> Result<(), Refusal>
    ensures put { OnOk result (changes.new.items ≡ changes.old.items ++ work_changes plan.now found) }
    ensures refused { FailsForMemory result }
{
    let name = found.name;
    put_own(
        alloc,
        changes,
        plan,
        name,
        Number::Cap(name.task),
        found.work.cap,
    )?;
    put_own(
        alloc,
        changes,
        plan,
        name,
        Number::Work(name.task),
        found.work.work,
    )?;
    put_own(
        alloc,
        changes,
        plan,
        name,
        Number::Writes(name.task),
        found.work.writes,
    )
}

/// Adds the change of an alpha, once for all dies. The only refusal is NoMemory.
fn put_alpha(
    alloc: Global,
    changes: &mut Vec<Change>,
    plan: &PlanNumbers,
    found: AlphaFinding,
) -> Result<(), Refusal>
    ensures put { OnOk result (changes.new.items ≡ changes.old.items ++ alpha_change plan.now found) }
    ensures refused { FailsForMemory result }
{
    if found.die == 0 {
        put_shared(alloc, changes, plan, Number::Alpha, Some(found.alpha))
    } else {
        Ok(())
    }
}

/// Adds the changes that a finding names. The only refusal is NoMemory.
fn put_changes(
    alloc: Global,
    changes: &mut Vec<Change>,
    plan: &PlanNumbers,
    finding: Finding,
) -> Result<(), Refusal>
    ensures put { OnOk result (changes.new.items ≡ changes.old.items ++ changes_of plan.now finding) }
    ensures refused { FailsForMemory result }
{
    match finding {
        Finding::Blocks(found) => put_shared(alloc, changes, plan, Number::Blocks, found),
        Finding::Logical(found) => put_shared(alloc, changes, plan, Number::Logical, found),
        Finding::Common(found) => put_shared(alloc, changes, plan, Number::Common, found),
        Finding::Alpha(found) => put_alpha(alloc, changes, plan, found),
        Finding::Task(found) => {
            put_times(alloc, changes, plan, found)?;
            put_work(alloc, changes, plan, found)
        }
    }
}

/// All changes that findings name, in their order. The only refusal is NoMemory.
fn unranked(alloc: Global, plan: &PlanNumbers, findings: &[Finding]) -> Result<Vec<Change>, Refusal>
    ensures all { IfOk result (λ changes. changes.items ≡ all_changes plan.now findings.now) }
    ensures refused { FailsForMemory result }
{
    let mut changes = Vec::new(alloc);
    for finding in findings {
        put_changes(alloc, &mut changes, plan, *finding)?;
    }
    Ok(changes)
}

/// All changes of one number that findings name, the cheapest first. The only refusal is NoMemory.
pub fn ranked_changes(
    alloc: Global,
    plan: &PlanNumbers,
    findings: &[Finding],
) -> Result<Vec<Change>, Refusal>
    ensures ranked { IfOk result (λ changes. AreRanked plan.now findings.now changes.items) }
    ensures refused { FailsForMemory result }
{
    let mut changes = unranked(alloc, plan, findings)?;
    changes.sort_by_key(|change| change.price())?;
    Ok(changes)
}
