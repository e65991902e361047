//! The plan of a store, from the numbers of its text.

ghost use Rattle.std.specs.Prelude.{◌≡◌, ◌↔◌, ◌<◌, ◌≤◌, ◌⊎◌, ℕ, All, IsTrue, IfOk, IfErr, Ok, length};
ghost use Rattle.slot_types.specs.Refusal.{FailsForMemory};
ghost use Rattle.plan_rules.specs.Bound.{MeetsBound};
ghost use Rattle.plan_rules.specs.Times.{PassesItsTimes};
ghost use Rattle.plan_texts.specs.PlanText.{plan_of};
ghost use Rattle.plan_texts.specs.Stores.{IsShaped, HasUsableDies, IsStore, IsUsable, RefusesPlan, RefusesStore, caps_of, die_of, dies_of};
ghost use Rattle.plan_texts.specs.Stores.{shape_of, times_of_tasks, times_of};
ghost use Rattle.plan_texts.specs.declared.numbers.PlanNumbers.{PlanNumbers};

use crate::numbers::{PlanNumbers, TaskNumbers, TopNumbers, plan_numbers};
use plan_rules::{bound, plan_test};
use slot_types::{Caps, DiePlan, MAX_DIES, Refusal, Shape, StorePlan, Times, TimesList};
use std::alloc::Global;

/// The shape of the dies.
fn shape(top: &TopNumbers) -> Shape
    ensures { result ≡ shape_of top.now }
{
    Shape {
        blocks: top.blocks,
        pages: top.pages,
        erase_slots: top.erase_slots,
    }
}

/// Whether the number of dies and their shape are within their limits.
fn is_shaped(top: &TopNumbers) -> bool
    ensures { IsTrue result ↔ IsShaped top.now }
{
    1 <= top.dies && top.dies <= MAX_DIES && shape(top).is_within_limits()
}

/// Whether each task names a die that is there.
fn are_named(tasks: &[TaskNumbers], dies: u32) -> bool
    ensures { IsTrue result ↔ All (λ task. task.die < dies) tasks.now }
{
    tasks.iter().all(|task| task.die < dies)
}

/// The caps of a die's tasks, in the order of the text.
fn caps(alloc: Global, tasks: &[TaskNumbers], die: u32) -> Result<Caps, Refusal>
    ensures ok { IfOk result (λ caps. caps ≡ caps_of tasks.now die) }
    ensures refused { FailsForMemory result }
{
    let mut caps = Caps::new(alloc);
    for task in tasks {
        if task.die == die {
            caps.push(task.cap)?;
        }
    }
    Ok(caps)
}

/// The times of a die's tasks, in the order of the text.
fn task_times(alloc: Global, tasks: &[TaskNumbers], die: u32) -> Result<TimesList, Refusal>
    ensures ok { IfOk result (λ times. times ≡ times_of_tasks tasks.now die) }
    ensures refused { FailsForMemory result }
{
    let mut times = TimesList::new(alloc);
    for task in tasks {
        if task.die == die {
            if let Some(own) = task.times {
                times.push(own)?;
            }
        }
    }
    Ok(times)
}

/// The times of a die, in a plan with times.
fn times(alloc: Global, plan: &PlanNumbers, die: u32) -> Result<Option<Times>, Refusal>
    ensures ok { IfOk result (λ times. times ≡ times_of plan.now die) }
    ensures refused { FailsForMemory result }
{
    match plan.top.common {
        Some(common) => {
            let tasks = task_times(alloc, plan.tasks.as_slice(), die)?;
            Ok(Some(Times { common, tasks }))
        }
        None => Ok(None),
    }
}

/// The plan of a die, by the numbers of a text. It isn't judged.
pub fn die_plan(alloc: Global, plan: &PlanNumbers, die: u32) -> Result<DiePlan, Refusal>
    ensures ok { IfOk result (λ made. made ≡ die_of plan.now die) }
    ensures refused { FailsForMemory result }
{
    let caps = caps(alloc, plan.tasks.as_slice(), die)?;
    let times = times(alloc, plan, die)?;
    Ok(DiePlan {
        shape: shape(&plan.top),
        logical: plan.top.logical,
        alpha: plan.top.alpha,
        caps,
        times,
    })
}

/// Whether a die meets its bound, and passes the test of its times if it has any.
fn is_usable(plan: &DiePlan) -> bool
    ensures { IsTrue result ↔ IsUsable plan.now }
{
    bound(plan).is_ok() && (plan.times.is_none() || plan_test(plan).is_ok())
}

/// The plans of the dies, each of which has to be usable.
fn usable_dies(alloc: Global, plan: &PlanNumbers) -> Result<StorePlan, Refusal>
    ensures dies { IfOk result (λ store. store ≡ dies_of plan.now) }
    ensures usable { IfOk result (λ _.
        (die : ℕ) → die < plan.now.top.dies → IsUsable (die_of plan.now die)) }
    ensures refused { IfErr result (λ refusal. (refusal ≡ Refusal.NoMemory)
        ⊎ ((refusal ≡ Refusal.BadPlan)
        × ((die : ℕ) × (die < plan.now.top.dies) × ¬ IsUsable (die_of plan.now die)))) }
{
    let mut store = StorePlan::new(alloc);
    for die in 0..plan.top.dies {
        let made = die_plan(alloc, plan, die)?;
        if !is_usable(&made) {
            return Err(Refusal::BadPlan);
        }
        store.push(made)?;
    }
    Ok(store)
}

/// The plan of a store, from its numbers.
fn store_of(alloc: Global, plan: &PlanNumbers) -> Result<StorePlan, Refusal>
    ensures ok { IfOk result (IsStore plan.now) }
    ensures err { IfErr result (λ refusal.
        (refusal ≡ Refusal.NoMemory) ⊎ RefusesStore plan.now refusal) }
{
    if !is_shaped(&plan.top) {
        return Err(Refusal::BadShape);
    }
    if !are_named(plan.tasks.as_slice(), plan.top.dies) {
        return Err(Refusal::BadPlan);
    }
    usable_dies(alloc, plan)
}

/// Reads the plan of a store, a TOML text of at most 1,048,576 bytes: `version`, which is 1 or 2, `dies`, `blocks`,
/// `pages`, `erase_slots`, `logical` and `alpha`, whole numbers, and for each task a table `[[task]]` with `die` and
/// `cap`. The tasks of a die are numbered from 0 in the order of the text. A plan whose version is the whole number 2
/// has times: it also has `common`, the hyperperiod, and in each task `period`, `collect_period`, `work` and `writes`.
///
/// Refusals, in order: PlanText with the first fault of the text, where for the top table, and then for each task, a
/// key that isn't one of those comes before one that is missing, and that before a value that is no number from 0 to
/// 4,294,967,295 or no array of tables, and another version comes between the top table and the tasks; BadShape
/// where dies, blocks, pages or erase slots are out of their limits; BadPlan where a task names a die that isn't
/// there, or a die doesn't meet the bound on plans, or doesn't pass the test of its times, as
/// [`plan_test`](plan_rules::plan_test) says. NoMemory comes where memory is refused.
pub fn read_plan(alloc: Global, bytes: &[u8]) -> Result<StorePlan, Refusal>
    ensures ok { IfOk result (λ store.
        (plan : PlanNumbers) × (plan_of bytes.now ≡ Ok plan) × IsStore plan store) }
    ensures some { IfOk result (λ store. 1 ≤ length store) }
    ensures few { IfOk result (λ store. length store ≤ 8) }
    ensures bound { IfOk result (All MeetsBound) }
    ensures passes { IfOk result (All PassesItsTimes) }
    ensures err { IfErr result (λ refusal.
        (refusal ≡ Refusal.NoMemory) ⊎ RefusesPlan (plan_of bytes.now) refusal) }
{
    let plan = plan_numbers(alloc, bytes)?;
    store_of(alloc, &plan)
}
