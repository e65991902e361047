//! The limits of a plan's times.

ghost use Rattle.std.specs.Prelude.{◌≡◌, ◌≤◌, ◌↔◌, All, IsTrue, IsOk, IfErr};
ghost use Rattle.slot_types.specs.declared.refusals.Refusal.{Refusal};
ghost use Rattle.plan_rules.specs.Bound.{MeetsBound};
ghost use Rattle.plan_rules.specs.Times.{IsTaskTimes, HasTimes};
ghost use Rattle.flash_c.specs.Plans.{IsTimed, RefusesPlan};

use plan_rules::bound;
use slot_types::{DiePlan, MAX_OPS, MAX_SLOT, Refusal, TaskTimes, Times};

/// Whether a die may be made of a plan: it meets its bound, and its times, if it has some, are within their limits.
pub(crate) fn may_be_used(plan: &DiePlan) -> Result<(), Refusal>
    ensures ok { IsOk result ↔ (MeetsBound plan.now × IsTimed plan.now) }
    ensures cause { IfErr result (RefusesPlan plan.now) }
    ensures memory { ¬ (result ≡ Err Refusal.NoMemory) }
{
    bound(plan)?;
    if is_timed(plan) {
        Ok(())
    } else {
        Err(Refusal::BadPlan)
    }
}

/// Whether the times of a plan that has some are within their limits.
pub(crate) fn is_timed(plan: &DiePlan) -> bool
    ensures { IsTrue result ↔ IsTimed plan.now }
{
    match &plan.times {
        None => true,
        Some(times) => has_times(plan, times),
    }
}

fn has_times(plan: &DiePlan, times: &Times) -> bool
    ensures { IsTrue result ↔ HasTimes plan.now times.now }
{
    times.tasks.len() == plan.caps.len()
        && 1 <= times.common
        && times.common <= MAX_SLOT
        && are_task_times(times.tasks.as_slice())
}

fn are_task_times(tasks: &[TaskTimes]) -> bool
    ensures { IsTrue result ↔ All IsTaskTimes tasks.now }
{
    tasks.iter().all(|task| is_task_times(task))
}

fn is_task_times(task: &TaskTimes) -> bool
    ensures { IsTrue result ↔ IsTaskTimes task.now }
{
    1 <= task.period
        && task.period <= MAX_SLOT
        && 1 <= task.collect_period
        && task.collect_period <= MAX_SLOT
        && 1 <= task.work
        && task.work <= MAX_OPS
        && task.writes <= task.work
}
