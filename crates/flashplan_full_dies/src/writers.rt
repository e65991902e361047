//! Whether each die has a task that writes.

ghost use Rattle.std.specs.Prelude.{◌≡◌, ◌≤◌, ◌↔◌, All, IfSome, IsSomeAnd, IsTrue, length, slice_get};
ghost use Rattle.slot_types.specs.declared.plans.TaskTimes.{TaskTimes};
ghost use Rattle.flashplan_full_dies.specs.FullDies.{NeverWrites};

use slot_types::{DiePlan, TaskTimes};

/// Whether none of these tasks writes.
fn write_nothing(tasks: &[TaskTimes]) -> bool
    ensures { IsTrue result ↔ All (λ (task : TaskTimes). task.writes ≡ 0) tasks.now }
{
    tasks.iter().all(|task| task.writes == 0)
}

/// Whether none of the tasks of a die writes.
fn never_writes(plan: &DiePlan) -> bool
    ensures { IsTrue result ↔ NeverWrites plan.now }
{
    match &plan.times {
        Some(times) => write_nothing(times.tasks.as_slice()),
        None => true,
    }
}

/// The first die that has no task that writes.
pub(crate) fn first_unwritten(plans: &[DiePlan]) -> Option<u32>
    requires few { length plans.now ≤ 8 }
    ensures { IfSome result (λ die. IsSomeAnd (slice_get plans.now die) NeverWrites) }
{
    for die in 0..plans.len() {
        if never_writes(&plans[die]) {
            return Some(die as u32);
        }
    }
    None
}
