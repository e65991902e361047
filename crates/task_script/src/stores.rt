//! Dies in memory.

ghost use Rattle.std.specs.Prelude.{◌≡◌, IfOk};
ghost use Rattle.std.specs.Box.{box_value};
ghost use Rattle.slot_types.specs.Refusal.{FailsForMemory};
ghost use Rattle.plan_rules.specs.Bound.{MeetsBound};
ghost use Rattle.die_log.specs.Model.Start.{fresh};
ghost use Rattle.die_service.specs.Stores.{IsAtStart};

use flash_die::MemoryNand;
use slot_core::DieCore;
use slot_types::{Caps, DiePlan, Refusal, Times, TimesList};
use std::alloc::Global;

/// A copy of the times of a plan.
fn times_copy(alloc: Global, times: &Times) -> Result<Times, Refusal>
    ensures ok { IfOk result (λ copy. copy ≡ times.now) }
    ensures refused { FailsForMemory result }
{
    let tasks = Vec::from_slice(alloc, times.tasks.as_slice())?;
    Ok(Times {
        common: times.common,
        tasks: TimesList::from_vec(tasks),
    })
}

/// A copy of a plan, with its times if it has any.
fn plan_copy(alloc: Global, plan: &DiePlan) -> Result<DiePlan, Refusal>
    ensures ok { IfOk result (λ copy. copy ≡ plan.now) }
    ensures refused { FailsForMemory result }
{
    let times = match &plan.times {
        Some(times) => Some(times_copy(alloc, times)?),
        None => None,
    };
    let caps = Vec::from_slice(alloc, plan.caps.as_slice())?;
    Ok(DiePlan {
        shape: plan.shape,
        logical: plan.logical,
        alpha: plan.alpha,
        caps: Caps::from_vec(caps),
        times,
    })
}

/// A fresh die of a plan, on a fresh device in memory. The only refusal is NoMemory.
pub fn new_die(alloc: Global, plan: &DiePlan) -> Result<Box<DieCore<MemoryNand>>, Refusal>
    requires { MeetsBound plan.now }
    ensures start { IfOk result (λ core. (box_value core).start ≡ fresh plan.now) }
    ensures at_start { IfOk result (λ core. IsAtStart (box_value core)) }
    ensures refused { FailsForMemory result }
{
    let nand = MemoryNand::new(alloc, plan.shape)?;
    let copy = plan_copy(alloc, plan)?;
    DieCore::boxed(alloc, copy, nand)
}
