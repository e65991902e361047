//! Plans as C gives them.

ghost use Rattle.std.specs.Prelude.{◌≡◌, ◌⊎◌, map, IfOk, IfErr, IsSomeAnd};
ghost use Rattle.slot_types.specs.Refusal.{FailsForMemory};
ghost use Rattle.flash_c.specs.Plans.{shape_in, cap_in, times_in, plan_in};

use crate::shapes::{FlashPlan, FlashTask};
use slot_types::{Caps, DiePlan, Refusal, Shape, TaskTimes, Times, TimesList};
use std::alloc::Global;

fn shape_in(plan: &FlashPlan) -> Shape
    ensures { result ≡ shape_in plan.now }
{
    Shape {
        blocks: plan.blocks,
        pages: plan.pages,
        erase_slots: plan.erase_slots,
    }
}

fn caps_in(alloc: Global, tasks: &[FlashTask]) -> Result<Caps, Refusal>
    ensures caps { IfOk result (λ caps. caps ≡ map cap_in tasks.now) }
    ensures refused { FailsForMemory result }
{
    let mut caps = Caps::new(alloc);
    for task in tasks {
        caps.push(task.cap)?;
    }
    Ok(caps)
}

fn times_in(alloc: Global, tasks: &[FlashTask]) -> Result<TimesList, Refusal>
    ensures times { IfOk result (λ times. times ≡ map times_in tasks.now) }
    ensures refused { FailsForMemory result }
{
    let mut times = TimesList::new(alloc);
    for task in tasks {
        times.push(TaskTimes {
            period: task.period,
            collect_period: task.collect_period,
            work: task.work,
            writes: task.writes,
        })?;
    }
    Ok(times)
}

/// The plan that these stand for.
pub(crate) fn plan_in(
    alloc: Global,
    plan: &FlashPlan,
    tasks: &[FlashTask],
) -> Result<DiePlan, Refusal>
    ensures plan { IfOk result (λ made. made ≡ plan_in plan.now tasks.now) }
    ensures refused { FailsForMemory result }
{
    let times = if plan.common == 0 {
        None
    } else {
        Some(Times {
            common: plan.common,
            tasks: times_in(alloc, tasks)?,
        })
    };
    Ok(DiePlan {
        shape: shape_in(plan),
        logical: plan.logical,
        alpha: plan.alpha,
        caps: caps_in(alloc, tasks)?,
        times,
    })
}

/// Another plan of the same numbers.
pub(crate) fn copy_of(alloc: Global, given: &DiePlan) -> Result<DiePlan, Refusal>
    ensures plan { IfOk result (λ made. made ≡ given.now) }
    ensures refused { FailsForMemory result }
{
    let caps = Caps::from_vec(Vec::from_slice(alloc, given.caps.as_slice())?);
    let times = match &given.times {
        None => None,
        Some(times) => Some(Times {
            common: times.common,
            tasks: TimesList::from_vec(Vec::from_slice(alloc, times.tasks.as_slice())?),
        }),
    };
    Ok(DiePlan {
        shape: given.shape,
        logical: given.logical,
        alpha: given.alpha,
        caps,
        times,
    })
}
