//! Whether events keep to a plan with times.

ghost use Rattle.std.specs.Prelude.{◌≡◌, ℕ, ◌+◌, ◌%◌, ◌<◌, ◌≤◌, ◌↔◌, ◌&&◌, ◌^◌, nat_lt, length, count_by, All, IsTrue, IsSomeAnd, false};
ghost use Rattle.std.specs.List.{list_all};
ghost use Rattle.plan_rules.specs.Times.{IsTaskTimes, HasTimes, times_of};
ghost use Rattle.slot_types.specs.Operations.{page_of, is_write};
ghost use Rattle.plan_rules.specs.Keeping.{is_slot, slots, KeepsPlan};
ghost use Rattle.plan_rules.specs.Walks.{planned_job, planned_collection, planned_from, apart_from, is_due_at, collected_from, IsTaskKept};

use crate::loads::has_times;
use slot_types::{DiePlan, Event, Items, MAX_JOBS, MAX_SLOT, Op, TaskNo, TaskTimes, Times};

// The times of a task; a task that the plan doesn't have asks for nothing.
fn task_times(times: &Times, task: usize) -> TaskTimes
    ensures { result ≡ times_of times.now task }
{
    match times.tasks.get(task) {
        Some(found) => *found,
        None => TaskTimes {
            period: 0,
            collect_period: 0,
            work: 0,
            writes: 0,
        },
    }
}

fn are_on_die(ops: &[Op], logical: u32) -> bool
    ensures { result ≡ list_all (λ op. nat_lt (page_of op) logical) ops.now }
{
    ops.iter().all(|op| op.page() < logical)
}

fn writes(ops: &[Op]) -> usize
    ensures { result ≡ count_by is_write ops.now }
{
    ops.iter().filter(|op| op.is_write()).count()
}

fn is_planned_job(
    plan: &DiePlan,
    times: &Times,
    now: u32,
    task: TaskNo,
    release: u32,
    due: u32,
    ops: &[Op],
) -> bool
    ensures { result ≡ planned_job plan.now times.now now task release due ops.now }
{
    let own = task_times(times, task.0 as usize);
    (task.0 as usize) < plan.caps.len()
        && release == now
        && u64::from(due) == u64::from(release) + u64::from(own.period)
        && due <= MAX_SLOT
        && 1 <= ops.len()
        && ops.len() <= own.work as usize
        && are_on_die(ops, plan.logical)
        && writes(ops) <= own.writes as usize
}

fn is_planned_collection(
    plan: &DiePlan,
    times: &Times,
    end: u32,
    now: u32,
    task: TaskNo,
    release: u32,
    due: u32,
) -> bool
    requires { HasTimes plan.now times.now }
    ensures { result ≡ planned_collection plan.now times.now end now task release due }
{
    if task.0 as usize >= plan.caps.len() {
        return false;
    }
    let period = task_times(times, task.0 as usize).collect_period;
    release == now
        && release % period == 0
        && release < end
        && u64::from(due) == u64::from(release) + u64::from(period)
        && due <= MAX_SLOT
}

fn slots_of(events: &[Event]) -> usize
    ensures { result ≡ slots events.now }
{
    events
        .iter()
        .filter(|event| matches!(event, Event::Slot))
        .count()
}

fn are_planned(plan: &DiePlan, times: &Times, end: u32, events: &[Event]) -> bool
    requires timed { HasTimes plan.now times.now }
    requires few { slots events.now ≤ 1048576 }
    ensures { result ≡ planned_from plan.now times.now end 0 events.now }
{
    let mut now: u32 = 0;
    for event in events {
        match event {
            Event::Submit {
                task,
                release,
                due,
                ops,
            } => {
                if !is_planned_job(plan, times, now, *task, *release, *due, ops.as_slice()) {
                    return false;
                }
            }
            Event::Collect { task, release, due } => {
                if !is_planned_collection(plan, times, end, now, *task, *release, *due) {
                    return false;
                }
            }
            Event::Slot => now += 1,
        }
    }
    true
}

fn are_apart(task: usize, period: u32, events: &[Event]) -> bool
    ensures { result ≡ apart_from task period 0 events.now }
{
    let mut from: u64 = 0;
    for event in events {
        if let Event::Submit {
            task: other,
            release,
            ..
        } = event
        {
            if other.0 as usize == task {
                if u64::from(*release) < from {
                    return false;
                }
                from = u64::from(*release) + u64::from(period);
            }
        }
    }
    true
}

fn is_collected(task: usize, period: u32, events: &[Event]) -> bool
    requires some { 1 ≤ period }
    requires few { slots events.now ≤ 1048576 }
    ensures { result ≡ collected_from task period 0 false events.now }
{
    let mut now: u32 = 0;
    let mut seen = false;
    for event in events {
        match event {
            Event::Submit { .. } => {}
            Event::Collect { task: other, .. } => {
                if other.0 as usize == task {
                    if seen {
                        return false;
                    }
                    seen = true;
                }
            }
            Event::Slot => {
                let is_due = now % period == 0
                    && u64::from(now) + u64::from(period) <= u64::from(MAX_SLOT);
                if is_due && !seen {
                    return false;
                }
                now += 1;
                seen = false;
            }
        }
    }
    true
}

// Whether the jobs of each task are apart, and its collections come where the plan has them.
fn is_each_task_kept(times: &Times, tasks: usize, events: &[Event]) -> bool
    requires limits { All IsTaskTimes times.now.tasks }
    requires one_each { length times.now.tasks ≡ tasks }
    requires few { slots events.now ≤ 1048576 }
    ensures { IsTrue result ↔ ((task : ℕ) → task < tasks → IsTaskKept times.now task events.now) }
{
    for task in 0..tasks {
        let own = task_times(times, task);
        if !are_apart(task, own.period, events) {
            return false;
        }
        if !is_collected(task, own.collect_period, events) {
            return false;
        }
    }
    true
}

/// Whether events keep to a plan. It takes any plan and events, and no memory.
///
/// It is false where the plan has no times, or these and its tasks don't fit together. The events keep to the plan
/// where each job comes at its release and has a period until its deadline, at most 1,048,576, with 1 to `work`
/// operations, all on pages of the die, and at most `writes` writes; where two jobs of a task are released a period
/// apart or more; where a collection of each task comes at each multiple of its collect period that is below the number
/// of slots, before that slot, with a collect period until its deadline, unless that is above 1,048,576, and no other
/// collections come; and where there are at most 65,536 jobs and collections, and at most 1,048,576 slots.
pub fn keeps_plan(plan: &DiePlan, events: &Items<Event>) -> bool
    ensures { IsTrue result ↔ IsSomeAnd plan.now.times (λ times.
        KeepsPlan plan.now times events.now) }
{
    match &plan.times {
        Some(times) => keeps_times(plan, times, events.as_slice()),
        None => false,
    }
}

fn keeps_times(plan: &DiePlan, times: &Times, all: &[Event]) -> bool
    ensures { IsTrue result ↔ KeepsPlan plan.now times.now all.now }
{
    if !has_times(plan, times) {
        return false;
    }
    let end = slots_of(all);
    if end > MAX_SLOT as usize || all.len() - end > MAX_JOBS as usize {
        return false;
    }
    are_planned(plan, times, end as u32, all) && is_each_task_kept(times, plan.caps.len(), all)
}
