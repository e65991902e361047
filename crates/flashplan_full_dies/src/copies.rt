//! Copies of a store's plans, of which each life takes one.

ghost use Rattle.std.specs.Prelude.{◌≡◌, ◌++◌, ◌∷◌, [], IfOk, OnOk};
ghost use Rattle.slot_types.specs.Refusal.{FailsForMemory};

use slot_types::{Caps, DiePlan, Refusal, StorePlan, Times, TimesList};
use std::alloc::Global;

/// A copy of the times of a plan. The only refusal is NoMemory.
fn times_copy(alloc: Global, times: &Times) -> Result<Times, Refusal>
    ensures ok { IfOk result (λ copy. copy ≡ times.now) }
    ensures refused { FailsForMemory result }
{
    let tasks = Vec::from_slice(alloc, times.tasks.as_slice())?;
    Ok(Times {
        common: times.common,
        tasks: TimesList::from_vec(tasks),
    })
}

/// A copy of a plan, with its times if it has any. The only refusal is NoMemory.
fn plan_copy(alloc: Global, plan: &DiePlan) -> Result<DiePlan, Refusal>
    ensures ok { IfOk result (λ copy. copy ≡ plan.now) }
    ensures refused { FailsForMemory result }
{
    let times = match &plan.times {
        Some(times) => Some(times_copy(alloc, times)?),
        None => None,
    };
    let caps = Vec::from_slice(alloc, plan.caps.as_slice())?;
    Ok(DiePlan {
        shape: plan.shape,
        logical: plan.logical,
        alpha: plan.alpha,
        caps: Caps::from_vec(caps),
        times,
    })
}

/// Adds a plan. The only refusal is NoMemory.
fn push_plan(store: &mut StorePlan, plan: DiePlan) -> Result<(), Refusal>
    ensures ok { OnOk result (store.new ≡ store.old ++ plan ∷ []) }
    ensures refused { FailsForMemory result }
{
    store.push(plan)
}

/// A copy of the plans of a store. The only refusal is NoMemory.
pub(crate) fn store_copy(alloc: Global, store: &StorePlan) -> Result<StorePlan, Refusal>
    ensures ok { IfOk result (λ copy. copy ≡ store.now) }
    ensures refused { FailsForMemory result }
{
    let mut copy = StorePlan::new(alloc);
    for plan in store.as_slice() {
        push_plan(&mut copy, plan_copy(alloc, plan)?)?;
    }
    Ok(copy)
}
