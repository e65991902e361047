//! The numbers of a plan that are solved for, one at a time, and plans of dies with one of them changed.

ghost use Rattle.std.specs.Prelude.{◌≡◌, ◌↔◌, IsTrue, option_map, slice_set};
ghost use Rattle.plan_rules.specs.Times.{times_of};
ghost use Rattle.plan_texts.specs.Stores.{IsUsable};
ghost use Rattle.flashplan_design.specs.Numbers.{times_with, with_number};

use plan_rules::{bound, plan_test};
use slot_types::{Caps, DiePlan, Shape, TaskTimes, Times, TimesList};

/// A number of a plan. All dies share the first four; the others are those of a task of a die.
#[derive(Clone, Copy, PartialEq, Eq, Debug, Drop)]
pub enum Number {
    Blocks,
    Logical,
    Alpha,
    Common,
    Cap(u32),
    Period(u32),
    CollectPeriod(u32),
    Work(u32),
    Writes(u32),
}

/// Caps with that of a task changed, if there is one.
fn with_cap(caps: Caps, task: u32, n: u32) -> Caps
    ensures { result ≡ slice_set caps task n }
{
    let mut all = caps.into_vec();
    let place = task as usize;
    if place < all.len() {
        all[place] = n;
    }
    Caps::from_vec(all)
}

/// Times of tasks with those of one changed, if there is one.
fn with_own(tasks: TimesList, task: u32, own: TaskTimes) -> TimesList
    ensures { result ≡ slice_set tasks task own }
{
    let mut all = tasks.into_vec();
    let place = task as usize;
    if place < all.len() {
        all[place] = own;
    }
    TimesList::from_vec(all)
}

/// The times of a task; a task that the plan doesn't have asks for nothing.
pub(crate) fn task_times(times: &Times, task: u32) -> TaskTimes
    ensures { result ≡ times_of times.now task }
{
    match times.tasks.get(task as usize) {
        Some(found) => *found,
        None => TaskTimes {
            period: 0,
            collect_period: 0,
            work: 0,
            writes: 0,
        },
    }
}

/// Times with those of a task changed.
fn with_task(times: Times, task: u32, own: TaskTimes) -> Times
    ensures { result ≡ record times { tasks = slice_set times.tasks task own } }
{
    Times {
        common: times.common,
        tasks: with_own(times.tasks, task, own),
    }
}

/// Times with one of their numbers changed.
fn with_time(times: Times, which: Number, n: u32) -> Times
    ensures { result ≡ times_with which n times }
{
    match which {
        Number::Common => Times {
            common: n,
            tasks: times.tasks,
        },
        Number::Period(task) => {
            let own = task_times(&times, task);
            with_task(times, task, TaskTimes { period: n, ..own })
        }
        Number::CollectPeriod(task) => {
            let own = task_times(&times, task);
            let own = TaskTimes {
                collect_period: n,
                ..own
            };
            with_task(times, task, own)
        }
        Number::Work(task) => {
            let own = task_times(&times, task);
            with_task(times, task, TaskTimes { work: n, ..own })
        }
        Number::Writes(task) => {
            let own = task_times(&times, task);
            with_task(times, task, TaskTimes { writes: n, ..own })
        }
        Number::Blocks | Number::Logical | Number::Alpha | Number::Cap(_) => times,
    }
}

/// Times, if there are any, with one of their numbers changed.
fn with_times(times: Option<Times>, which: Number, n: u32) -> Option<Times>
    ensures { result ≡ option_map (times_with which n) times }
{
    match times {
        Some(times) => Some(with_time(times, which, n)),
        None => None,
    }
}

/// A plan with one of its numbers changed. It takes no memory.
pub fn with_number(plan: DiePlan, which: Number, n: u32) -> DiePlan
    ensures { result ≡ with_number which plan n }
{
    match which {
        Number::Blocks => {
            let shape = Shape {
                blocks: n,
                ..plan.shape
            };
            DiePlan { shape, ..plan }
        }
        Number::Logical => DiePlan { logical: n, ..plan },
        Number::Alpha => DiePlan { alpha: n, ..plan },
        Number::Cap(task) => DiePlan {
            caps: with_cap(plan.caps, task, n),
            ..plan
        },
        _ => DiePlan {
            times: with_times(plan.times, which, n),
            ..plan
        },
    }
}

/// Whether a die meets its bound, and passes the test of its times if it has any. It takes any plan, and no memory.
pub fn would_do(plan: &DiePlan) -> bool
    ensures { IsTrue result ↔ IsUsable plan.now }
{
    bound(plan).is_ok() && (plan.times.is_none() || plan_test(plan).is_ok())
}
