//! The first condition that doesn't hold.

ghost use Rattle.std.specs.Prelude.{◌≡◌, IfOk, IfSome, None};
ghost use Rattle.slot_types.specs.Refusal.{FailsForMemory};
ghost use Rattle.plan_rules.specs.Bound.{MeetsBound};
ghost use Rattle.plan_rules.specs.Keeping.{KeepsPlan};
ghost use Rattle.plan_rules.specs.Times.{HasTimes};
ghost use Rattle.flashplan_breaches.specs.Breaches.{IsBreach};

use crate::any_breach::any_breach;
use crate::breaches::{Breach, count_at, is_breach};
use crate::coming::{Arrived, arrivals_in, slots_of};
use crate::rules::{broken_collection_rule, broken_job_rule, task_times};
use slot_types::{DiePlan, Event, MAX_JOBS, MAX_SLOT, Refusal, Times};
use std::alloc::Global;

/// What was seen of a task.
#[derive(Clone, Copy, Drop)]
struct Seen {
    /// The place of its last job.
    last_job: Option<usize>,
    /// The slot in which its next collection comes.
    next: u64,
}

/// A look at jobs and collections, in their order.
#[derive(Clone, Copy)]
struct Look<'a> {
    plan: &'a DiePlan,
    times: &'a Times,
    end: u32,
    all: &'a [Arrived<'a>],
}

impl Look<'_> {
    /// The slot in which a task's next collection comes, if there is one before a slot.
    fn missing(&self, task: u32, seen: &Seen, before: u64) -> Option<u32> {
        let period = u64::from(task_times(self.times, task).collect_period);
        let before = before.min(u64::from(self.end));
        if seen.next < before && seen.next.saturating_add(period) <= u64::from(MAX_SLOT) {
            u32::try_from(seen.next).ok()
        } else {
            None
        }
    }

    /// The first collection that is missing before a slot.
    fn first_missing(&self, seen: &[Seen], before: u64) -> Option<Breach> {
        let mut first: Option<(u32, u32)> = None;
        let mut task: u32 = 0;
        for own in seen {
            if let Some(slot) = self.missing(task, own, before) {
                match first {
                    Some((_, least)) if least <= slot => {}
                    _ => first = Some((task, slot)),
                }
            }
            task = task.saturating_add(1);
        }
        let (task, slot) = first?;
        Some(Breach::Count {
            task,
            slot,
            came: 0,
        })
    }

    /// What of a job breaks the plan.
    fn of_job(&self, seen: &mut Vec<Seen>, place: usize, a: &Arrived<'_>) -> Option<Breach> {
        if let Some(rule) = broken_job_rule(self.plan, self.times, a) {
            return Some(Breach::Job { place, rule });
        }
        let task = a.task as usize;
        if task >= seen.len() {
            return None;
        }
        let last = seen[task].last_job;
        seen[task].last_job = Some(place);
        let earlier = last?;
        let before = self.all.get(earlier)?;
        let period = u64::from(task_times(self.times, a.task).period);
        if u64::from(a.release) < u64::from(before.release) + period {
            return Some(Breach::Period {
                earlier,
                later: place,
            });
        }
        None
    }

    /// What of a collection breaks the plan.
    fn of_collection(&self, seen: &mut Vec<Seen>, place: usize, a: &Arrived<'_>) -> Option<Breach> {
        if let Some(rule) = broken_collection_rule(self.plan, self.times, self.end, a) {
            return Some(Breach::Collection { place, rule });
        }
        let task = a.task as usize;
        if task >= seen.len() {
            return None;
        }
        let next = seen[task].next;
        if next == u64::from(a.at) {
            let period = task_times(self.times, a.task).collect_period;
            seen[task].next = next.saturating_add(u64::from(period));
            return None;
        }
        Some(Breach::Count {
            task: a.task,
            slot: a.at,
            came: count_at(self.all, a.task, a.at),
        })
    }

    /// What breaks the plan at a place, or in a slot before it.
    fn at(&self, seen: &mut Vec<Seen>, place: usize, a: &Arrived<'_>) -> Option<Breach> {
        if place >= MAX_JOBS as usize {
            return Some(Breach::TooMany);
        }
        if let Some(missing) = self.first_missing(seen, u64::from(a.at)) {
            return Some(missing);
        }
        if a.collects {
            self.of_collection(seen, place, a)
        } else {
            self.of_job(seen, place, a)
        }
    }

    /// What breaks the plan first.
    fn first(&self, seen: &mut Vec<Seen>) -> Option<Breach> {
        for place in 0..self.all.len() {
            let a = self.all[place];
            if let Some(found) = self.at(seen, place, &a) {
                return Some(found);
            }
        }
        self.first_missing(seen, u64::from(self.end))
    }
}

/// Nothing was seen of any task. The only refusal is NoMemory.
fn nothing_seen(alloc: Global, tasks: usize) -> Result<Vec<Seen>, Refusal>
    ensures { FailsForMemory result }
{
    let none = Seen {
        last_job: None,
        next: 0,
    };
    Ok(vec![in alloc; none; tasks]?)
}

/// A condition of a plan with times that doesn't hold of events, unless they keep the plan: the first one, where jobs,
/// collections and the slots in which a collection is missing are looked at in their order. The only refusal is NoMemory.
///
/// That the look finds the first isn't proved. What it finds is put to the test; and should it find nothing that stands,
/// each condition is looked at in turn.
pub fn first_breach(
    alloc: Global,
    plan: &DiePlan,
    times: &Times,
    events: &[Event],
) -> Result<Option<Breach>, Refusal>
    requires bound { MeetsBound plan.now }
    requires timed { HasTimes plan.now times.now }
    ensures said { IfOk result (λ found. IfSome found (IsBreach plan.now times.now events.now)) }
    ensures none { IfOk result (λ found. found ≡ None → KeepsPlan plan.now times.now events.now) }
    ensures refused { FailsForMemory result }
{
    let slots = slots_of(events);
    if slots > MAX_SLOT as usize {
        return Ok(Some(Breach::TooManySlots));
    }
    let end = slots as u32;
    let all = arrivals_in(alloc, events)?;
    let mut seen = nothing_seen(alloc, plan.caps.len())?;
    let look = Look {
        plan,
        times,
        end,
        all: &all,
    };
    match look.first(&mut seen) {
        Some(said) if is_breach(plan, times, end, &all, said) => Ok(Some(said)),
        _ => Ok(any_breach(plan, times, end, &all)),
    }
}
