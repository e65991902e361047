//! The test of a plan with times.

ghost use Rattle.std.specs.Prelude.{◌≡◌, ◌+◌, ◌*◌, ◌<◌, ◌≤◌, ◌↔◌, ◌^◌, length, sum_by, All, IsTrue, IsOk, IfOk, IfErr, IsSomeAnd};
ghost use Rattle.std.specs.List.{AllZip};
ghost use Rattle.plan_rules.specs.Bound.{MeetsBound};
ghost use Rattle.plan_rules.specs.Times.{IsTaskTimes, HasTimes, IsSustained, Passes, collection_work, task_demand, demand};

use crate::counts::Load;
use slot_types::{DiePlan, MAX_OPS, MAX_SLOT, Refusal, TaskTimes, Times};

/// Whether a die can do all that its tasks may ask for, and their demand. It takes no memory.
///
/// `BadPlan` where the plan has no times, where not each task has its times, or a number of these is out of its limits:
/// the hyperperiod and the periods are 1 to 1,048,576, a job has 1 to 64 operations, and no more writes than these.
/// Else `BadPlan` where the hyperperiod isn't a multiple of each period, where the demand is above it, where a task's
/// collections give it less than its jobs write, or where its cap is below what two jobs write and two collections
/// give.
///
/// The plan meets its bound, as [`bound`](crate::bound) says.
pub fn plan_test(plan: &DiePlan) -> Result<Load, Refusal>
    requires { MeetsBound plan.now }
    ensures passes { IsOk result ↔ IsSomeAnd plan.now.times (Passes plan.now) }
    ensures demand { IfOk result (λ load.
        IsSomeAnd plan.now.times (λ times. load.demand ≡ demand plan.now times)) }
    ensures common { IfOk result (λ load.
        IsSomeAnd plan.now.times (λ times. load.common ≡ times.common)) }
    ensures refused { IfErr result (λ refusal. refusal ≡ Refusal.BadPlan) }
{
    match &plan.times {
        Some(times) => load_of(plan, times),
        None => Err(Refusal::BadPlan),
    }
}

fn load_of(plan: &DiePlan, times: &Times) -> Result<Load, Refusal>
    requires { MeetsBound plan.now }
    ensures passes { IsOk result ↔ Passes plan.now times.now }
    ensures demand { IfOk result (λ load. load.demand ≡ demand plan.now times.now) }
    ensures common { IfOk result (λ load. load.common ≡ times.now.common) }
    ensures refused { IfErr result (λ refusal. refusal ≡ Refusal.BadPlan) }
{
    if !has_times(plan, times) {
        return Err(Refusal::BadPlan);
    }
    if !are_sustained(
        plan,
        times.common,
        plan.caps.as_slice(),
        times.tasks.as_slice(),
    ) {
        return Err(Refusal::BadPlan);
    }
    let demand = total_demand(plan, times.common, times.tasks.as_slice());
    if demand > u64::from(times.common) {
        return Err(Refusal::BadPlan);
    }
    Ok(Load {
        demand,
        common: times.common,
    })
}

// Whether each task has its times, all within their limits.
pub(crate) fn has_times(plan: &DiePlan, times: &Times) -> bool
    ensures { IsTrue result ↔ HasTimes plan.now times.now }
{
    times.tasks.len() == plan.caps.len()
        && 1 <= times.common
        && times.common <= MAX_SLOT
        && are_task_times(times.tasks.as_slice())
}

fn are_task_times(tasks: &[TaskTimes]) -> bool
    ensures { IsTrue result ↔ All IsTaskTimes tasks.now }
{
    tasks.iter().all(|task| is_task_times(task))
}

fn is_task_times(task: &TaskTimes) -> bool
    ensures { IsTrue result ↔ IsTaskTimes task.now }
{
    1 <= task.period
        && task.period <= MAX_SLOT
        && 1 <= task.collect_period
        && task.collect_period <= MAX_SLOT
        && 1 <= task.work
        && task.work <= MAX_OPS
        && task.writes <= task.work
}

fn are_sustained(plan: &DiePlan, common: u32, caps: &[u32], tasks: &[TaskTimes]) -> bool
    requires bound { MeetsBound plan.now }
    requires one_each { length tasks.now ≡ length caps.now }
    requires limits { All IsTaskTimes tasks.now }
    ensures { IsTrue result ↔ AllZip (IsSustained plan.now common) caps.now tasks.now }
{
    for i in 0..caps.len() {
        if !is_sustained(plan, common, caps[i], &tasks[i]) {
            return false;
        }
    }
    true
}

// Within their limits the products stay below 2^28; a cap may be any number.
fn is_sustained(plan: &DiePlan, common: u32, cap: u32, task: &TaskTimes) -> bool
    requires bound { MeetsBound plan.now }
    requires limits { IsTaskTimes task.now }
    ensures { IsTrue result ↔ IsSustained plan.now common cap task.now }
{
    common % task.period == 0
        && common % task.collect_period == 0
        && u64::from(task.writes) * u64::from(task.collect_period)
            <= u64::from(plan.alpha) * u64::from(task.period)
        && 2 * u64::from(task.writes) + 2 * u64::from(plan.alpha) <= u64::from(cap)
}

// The slots that all tasks may take: at most 16 times 640 times 1,048,576.
fn total_demand(plan: &DiePlan, common: u32, tasks: &[TaskTimes]) -> u64
    requires bound { MeetsBound plan.now }
    requires few { length tasks.now ≤ 16 }
    requires common { common ≤ 1048576 }
    requires limits { All IsTaskTimes tasks.now }
    ensures { result ≡ sum_by (task_demand plan.now common) tasks.now }
{
    let mut total: u64 = 0;
    for task in tasks {
        total += one_demand(plan, common, task);
    }
    total
}

fn one_demand(plan: &DiePlan, common: u32, task: &TaskTimes) -> u64
    requires bound { MeetsBound plan.now }
    requires common { common ≤ 1048576 }
    requires limits { IsTaskTimes task.now }
    ensures demand { result ≡ task_demand plan.now common task.now }
    ensures within { result ≤ 671088640 }
{
    let collection = 2 * (plan.shape.pages - plan.alpha) + plan.shape.erase_slots;
    let jobs = u64::from(task.work) * u64::from(common / task.period);
    jobs + u64::from(collection) * u64::from(common / task.collect_period)
}
