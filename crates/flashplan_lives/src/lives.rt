//! For how many slots the numbers of a die's jobs and collections last.

ghost use Rattle.std.specs.Prelude.{◌≡◌, ◌+◌, ◌<◌, ◌≤◌, ◌*◌, ◌↔◌, IsTrue, length};
ghost use Rattle.slot_types.specs.declared.limits.TheConstants.{MAX_JOBS};
ghost use Rattle.plan_rules.specs.Times.{IsTaskTimes};
ghost use Rattle.flashplan_lives.specs.Lives.{AreTasks, IsLife, asked_by, asked_in, comings};

use slot_types::{MAX_JOBS, MAX_OPS, MAX_SLOT, MAX_TASKS, TaskTimes};

/// Whether the times of a task are within their limits.
fn is_task_times(task: &TaskTimes) -> bool
    ensures { IsTrue result ↔ IsTaskTimes task.now }
{
    1 <= task.period
        && task.period <= MAX_SLOT
        && 1 <= task.collect_period
        && task.collect_period <= MAX_SLOT
        && 1 <= task.work
        && task.work <= MAX_OPS
        && task.writes <= task.work
}

/// Whether these are the times of a die's tasks: of at most 16, and within their limits. It takes no memory.
pub fn are_tasks(tasks: &[TaskTimes]) -> bool
    ensures { IsTrue result ↔ AreTasks tasks.now }
{
    tasks.len() <= MAX_TASKS as usize && tasks.iter().all(|task| is_task_times(task))
}

/// How often something of this period comes in `slots` slots.
fn comings(slots: u32, period: u32) -> u32
    requires some { 1 ≤ period }
    requires few { period ≤ 1048576 }
    ensures times { result ≡ comings slots period }
    ensures few { result ≤ 1048577 }
{
    let last = MAX_SLOT + 1 - period;
    slots.min(last).div_ceil(period)
}

/// How often a task asks in `slots` slots.
fn asked_by(slots: u32, task: &TaskTimes) -> u32
    requires { IsTaskTimes task.now }
    ensures times { result ≡ asked_by slots task.now }
    ensures few { result ≤ 2097154 }
{
    comings(slots, task.period) + comings(slots, task.collect_period)
}

/// How often tasks ask in `slots` slots, where each asks as often as its plan lets it: a job at each multiple of its
/// period, and a collection at each of its collect period, as far as their deadlines are at most 1,048,576. The times
/// are within their limits, and those of at most 16 tasks. It takes no memory.
pub fn asked_in(tasks: &[TaskTimes], slots: u32) -> u32
    requires { AreTasks tasks.now }
    ensures { result ≡ asked_in tasks.now slots }
{
    let mut asked: u32 = 0;
    for task in tasks {
        asked += asked_by(slots, task);
    }
    asked
}

/// Whether the numbers of a die, 65,536, last for `slots` slots.
fn lasts(tasks: &[TaskTimes], slots: u32) -> bool
    requires { AreTasks tasks.now }
    ensures { IsTrue result ↔ (asked_in tasks.now slots ≤ MAX_JOBS) }
{
    asked_in(tasks, slots) <= MAX_JOBS
}

/// For how many slots a die lives by its plan. In them the tasks ask for at most 65,536 jobs and collections, and in
/// one slot more for more, unless the life is 1,048,576 slots, where the slots end. A die then goes on by a renewal.
/// The times are within their limits, and those of at most 16 tasks. It takes no memory.
pub fn life_of(tasks: &[TaskTimes]) -> u32
    requires { AreTasks tasks.now }
    ensures { IsLife tasks.now result }
{
    if lasts(tasks, MAX_SLOT) {
        return MAX_SLOT;
    }
    let mut life: u32 = 0;
    let mut beyond: u32 = MAX_SLOT;
    while life + 1 < beyond {
        let middle = life + (beyond - life) / 2;
        if lasts(tasks, middle) {
            life = middle;
        } else {
            beyond = middle;
        }
    }
    life
}
