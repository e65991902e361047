//! The first window that gets more than a limit, as the events come one by one.

ghost use Rattle.std.specs.Prelude.{◌≤◌, IsNone, IfOk, IfSome};
ghost use Rattle.std.specs.List.Sorted.{IsNonDecreasingBy};
ghost use Rattle.slot_types.specs.Refusal.{FailsForMemory};
ghost use Rattle.plan_rules.specs.Keeping.{slots};
ghost use Rattle.demand_keeping.specs.BySlot.{HaveRoom, IsFirstOfAll};
ghost use Rattle.demand_keeping.specs.Overfull.{IsFirstOverfull};
ghost use Rattle.demand_keeping.specs.Windows.{KeepsLimit};

use crate::by_slot::by_slot;
use crate::sliding::first_above;
use crate::windows::{Counted, Limit};
use slot_types::{Event, Refusal};
use std::alloc::Global;

// Where the window begins that gets more than the limit first, of `all` events. What a window has only grows with the events,
// so the first one with which a window has too much is found by halves.
fn first_of_all(of: Limit, jobs: &[Counted], all: usize) -> Option<u32>
    requires some { 1 ≤ of.period }
    requires rising { IsNonDecreasingBy (λ job. job.slot) jobs.now }
    ensures none { IsNone result → HaveRoom of.period of.limit all jobs.now }
    ensures some { IfSome result (IsFirstOfAll of.period of.limit jobs.now) }
{
    let mut found = first_above(of, jobs, all)?;
    let mut few = 0;
    let mut many = all;
    while many - few > 1 {
        let seen = few + (many - few) / 2;
        match first_above(of, jobs, seen) {
            Some(start) => {
                found = start;
                many = seen;
            }
            None => few = seen,
        }
    }
    Some(found)
}

/// Where the first window begins that gets more than the limit, if there is one. The only refusal is NoMemory. It takes time
/// linear in the events, and that of sorting the task's jobs by slot; and memory for what is counted of these.
pub(crate) fn window_above(
    alloc: Global,
    of: Limit,
    events: &[Event],
) -> Result<Option<u32>, Refusal>
    requires some { 1 ≤ of.period }
    requires few { slots events.now ≤ 1048576 }
    ensures none { IfOk result (λ found.
        IsNone found → KeepsLimit of.count of.task of.period of.limit events.now) }
    ensures some { IfOk result (λ found.
        IfSome found (IsFirstOverfull of.count of.task of.period of.limit events.now)) }
    ensures refused { FailsForMemory result }
{
    let jobs = by_slot(alloc, of, events)?;
    Ok(first_of_all(of, jobs.as_slice(), events.len()))
}
