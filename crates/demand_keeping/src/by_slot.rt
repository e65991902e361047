//! What is counted of a task's jobs, by slot.

ghost use Rattle.std.specs.Prelude.{ℕ, ◌≤◌, IfOk};
ghost use Rattle.std.specs.List.Sorted.{IsNonDecreasingBy};
ghost use Rattle.slot_types.specs.Refusal.{FailsForMemory};
ghost use Rattle.plan_rules.specs.Keeping.{slots};
ghost use Rattle.demand_keeping.specs.BySlot.{AreCounted};

use crate::windows::{Counted, Limit, count_of, slots_in};
use slot_types::{Event, Refusal};
use std::alloc::Global;

// In the order in which the jobs come.
fn as_they_come(alloc: Global, of: Limit, events: &[Event]) -> Result<Vec<Counted>, Refusal>
    requires few { slots events.now ≤ 1048576 }
    ensures counted { IfOk result (λ jobs. AreCounted of.count of.task events.now jobs.items) }
    ensures refused { FailsForMemory result }
{
    let mut jobs = Vec::new(alloc);
    let mut now: u32 = 0;
    for i in 0..events.len() {
        if let Some(own) = count_of(of, i, now, &events[i]) {
            jobs.push(own)?;
        }
        now += slots_in(&events[i]);
    }
    Ok(jobs)
}

/// What is counted of the task's jobs, in slots that rise. The only refusal is NoMemory.
pub(crate) fn by_slot(alloc: Global, of: Limit, events: &[Event]) -> Result<Vec<Counted>, Refusal>
    requires few { slots events.now ≤ 1048576 }
    ensures counted { IfOk result (λ jobs. AreCounted of.count of.task events.now jobs.items) }
    ensures rising { IfOk result (λ jobs. IsNonDecreasingBy (λ job. job.slot) jobs.items) }
    ensures refused { FailsForMemory result }
{
    let mut jobs = as_they_come(alloc, of, events)?;
    jobs.sort_by_key(|job| job.slot)?;
    Ok(jobs)
}
