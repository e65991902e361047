//! A plan with one of its numbers changed, of which each die is put to the test.

ghost use Rattle.std.specs.Prelude.{◌≡◌, ◌↔◌, ◌<◌, All, IsTrue, IfOk};
ghost use Rattle.slot_types.specs.Refusal.{FailsForMemory};
ghost use Rattle.slot_types.specs.declared.limits.TheConstants.{MAX_BLOCKS, MIN_BLOCKS};
ghost use Rattle.plan_texts.specs.Stores.{IsUsable, die_of};
ghost use Rattle.flashplan_design.specs.Numbers.{FindsGreatest, FindsLeast};
ghost use Rattle.flashplan_design.specs.Plans.{AllDo, OthersDo};

use crate::numbers::{Number, with_number, would_do};
use plan_texts::{PlanNumbers, TaskNumbers, die_plan};
use slot_types::{MAX_BLOCKS, MIN_BLOCKS, Refusal};
use std::alloc::Global;

/// Whether each task names a die that is there.
pub fn are_named(tasks: &[TaskNumbers], dies: u32) -> bool
    ensures { IsTrue result ↔ All (λ task. task.die < dies) tasks.now }
{
    tasks.iter().all(|task| task.die < dies)
}

/// Whether with this number, which all dies share, each die meets its bound, and passes the test of its times if it has any.
/// The only refusal is NoMemory.
pub fn all_do(alloc: Global, plan: &PlanNumbers, which: Number, n: u32) -> Result<bool, Refusal>
    ensures does { IfOk result (λ does. IsTrue does ↔ AllDo which plan.now n) }
    ensures refused { FailsForMemory result }
{
    if !are_named(plan.tasks.as_slice(), plan.top.dies) {
        return Ok(false);
    }
    for die in 0..plan.top.dies {
        let made = die_plan(alloc, plan, die)?;
        let changed = with_number(made, which, n);
        if !would_do(&changed) {
            return Ok(false);
        }
    }
    Ok(true)
}

/// Whether a die is this one, or does as it is. The only refusal is NoMemory.
fn is_own_or_does(alloc: Global, plan: &PlanNumbers, own: u32, die: u32) -> Result<bool, Refusal>
    ensures does { IfOk result (λ does. IsTrue does ↔ (¬ (die ≡ own) → IsUsable (die_of plan.now die))) }
    ensures refused { FailsForMemory result }
{
    if die == own {
        return Ok(true);
    }
    let made = die_plan(alloc, plan, die)?;
    Ok(would_do(&made))
}

/// Whether each die but this one does as it is. The only refusal is NoMemory.
pub fn others_do(alloc: Global, plan: &PlanNumbers, own: u32) -> Result<bool, Refusal>
    ensures does { IfOk result (λ does. IsTrue does ↔ OthersDo plan.now own) }
    ensures refused { FailsForMemory result }
{
    if !are_named(plan.tasks.as_slice(), plan.top.dies) {
        return Ok(false);
    }
    for die in 0..plan.top.dies {
        let does = is_own_or_does(alloc, plan, own, die)?;
        if !does {
            return Ok(false);
        }
    }
    Ok(true)
}

/// The least number of blocks with which each die does; none where none would do. The only refusal is NoMemory.
pub fn least_blocks_of_all(alloc: Global, plan: &PlanNumbers) -> Result<Option<u32>, Refusal>
    ensures found { IfOk result (FindsLeast (AllDo Number.Blocks plan.now) MIN_BLOCKS MAX_BLOCKS) }
    ensures refused { FailsForMemory result }
{
    for n in MIN_BLOCKS..MAX_BLOCKS + 1 {
        let does = all_do(alloc, plan, Number::Blocks, n)?;
        if does {
            return Ok(Some(n));
        }
    }
    Ok(None)
}

/// The greatest number of logical pages with which each die does; none where none would do. What does with a number does
/// with a smaller one. The only refusal is NoMemory.
pub fn greatest_logical_of_all(alloc: Global, plan: &PlanNumbers) -> Result<Option<u32>, Refusal>
    ensures found { IfOk result (FindsGreatest (AllDo Number.Logical plan.now) 1 4294967295) }
    ensures refused { FailsForMemory result }
{
    let some = all_do(alloc, plan, Number::Logical, 1)?;
    if !some {
        return Ok(None);
    }
    let most = all_do(alloc, plan, Number::Logical, u32::MAX)?;
    if most {
        return Ok(Some(u32::MAX));
    }
    let mut with: u32 = 1;
    let mut without: u32 = u32::MAX;
    while with + 1 < without {
        let middle = with + (without - with) / 2;
        let does = all_do(alloc, plan, Number::Logical, middle)?;
        if does {
            with = middle;
        } else {
            without = middle;
        }
    }
    Ok(Some(with))
}
