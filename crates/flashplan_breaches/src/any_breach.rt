//! Each condition of a plan with times in turn: slow, and it misses none.

ghost use Rattle.std.specs.Prelude.{◌≡◌, ◌<◌, ◌≤◌, ℕ, All, AllPairs, IfSome, None, length, map};
ghost use Rattle.plan_rules.specs.Keeping.{AreApart, IsPlanned};
ghost use Rattle.flashplan_breaches.specs.Arrivals.{arrival_of};
ghost use Rattle.flashplan_breaches.specs.Breaches.{BreaksAt, BreaksPeriod};
ghost use Rattle.flashplan_breaches.specs.Trials.{ApartBefore, IsCounted, IsMiscounted, KeepAll, PlannedAt};

use crate::breaches::{Breach, at, breaks_period, count_at, is_collect_slot};
use crate::coming::Arrived;
use crate::rules::{broken_collection_rule, broken_job_rule};
use slot_types::{DiePlan, MAX_JOBS, Times};

/// A condition that doesn't hold of the job or the collection at a place.
fn unplanned_at(
    plan: &DiePlan,
    times: &Times,
    end: u32,
    all: &[Arrived<'_>],
    place: usize,
) -> Option<Breach>
    ensures some { IfSome result (BreaksAt plan.now times.now end (map arrival_of all.now)) }
    ensures none { result ≡ None → PlannedAt plan.now times.now end all.now place }
{
    let a = at(all, place)?;
    if a.collects {
        let rule = broken_collection_rule(plan, times, end, &a)?;
        Some(Breach::Collection { place, rule })
    } else {
        let rule = broken_job_rule(plan, times, &a)?;
        Some(Breach::Job { place, rule })
    }
}

/// A condition that doesn't hold of a job or a collection.
fn unplanned(plan: &DiePlan, times: &Times, end: u32, all: &[Arrived<'_>]) -> Option<Breach>
    ensures some { IfSome result (BreaksAt plan.now times.now end (map arrival_of all.now)) }
    ensures none { result ≡ None → All (IsPlanned plan.now times.now end) (map arrival_of all.now) }
{
    for place in 0..all.len() {
        if let Some(found) = unplanned_at(plan, times, end, all, place) {
            return Some(found);
        }
    }
    None
}

/// The place of a job before a place that isn't apart from the one there.
fn near_before(times: &Times, all: &[Arrived<'_>], later: usize) -> Option<usize>
    ensures some { IfSome result (λ earlier.
        BreaksPeriod times.now (map arrival_of all.now) earlier later) }
    ensures none { result ≡ None → ApartBefore times.now all.now later }
{
    for earlier in 0..later {
        if breaks_period(times, all, earlier, later) {
            return Some(earlier);
        }
    }
    None
}

/// Two jobs of a task that aren't apart.
fn near(plan: &DiePlan, times: &Times, end: u32, all: &[Arrived<'_>]) -> Option<Breach>
    ensures some { IfSome result (BreaksAt plan.now times.now end (map arrival_of all.now)) }
    ensures none { result ≡ None → AllPairs (AreApart times.now) (map arrival_of all.now) }
{
    for later in 0..all.len() {
        if let Some(earlier) = near_before(times, all, later) {
            return Some(Breach::Period { earlier, later });
        }
    }
    None
}

/// How many collections of a task come in a slot in which the plan has one, where it isn't one.
fn miscounted_in(
    times: &Times,
    end: u32,
    all: &[Arrived<'_>],
    task: u32,
    slot: u32,
) -> Option<usize>
    ensures some { IfSome result (IsMiscounted times.now end (map arrival_of all.now) task slot) }
    ensures none { result ≡ None → IsCounted times.now end (map arrival_of all.now) task slot }
{
    if !is_collect_slot(times, end, task, slot) {
        return None;
    }
    let came = count_at(all, task, slot);
    if came == 1 { None } else { Some(came) }
}

/// A slot in which the plan has a collection of a task, and none comes, or more than one.
fn miscounted_of(times: &Times, end: u32, all: &[Arrived<'_>], task: u32) -> Option<(u32, usize)>
    ensures some { IfSome result (λ found.
        IsMiscounted times.now end (map arrival_of all.now) task found.0 found.1) }
    ensures none { result ≡ None → (slot : ℕ)
        → IsCounted times.now end (map arrival_of all.now) task slot }
{
    for slot in 0..end {
        if let Some(came) = miscounted_in(times, end, all, task, slot) {
            return Some((slot, came));
        }
    }
    None
}

/// The same of any task.
fn miscounted(plan: &DiePlan, times: &Times, end: u32, all: &[Arrived<'_>]) -> Option<Breach>
    requires { length plan.now.caps ≤ 16 }
    ensures some { IfSome result (BreaksAt plan.now times.now end (map arrival_of all.now)) }
    ensures none { result ≡ None → (task slot : ℕ) → task < length plan.now.caps
        → IsCounted times.now end (map arrival_of all.now) task slot }
{
    for task in 0..plan.caps.len() as u32 {
        if let Some((slot, came)) = miscounted_of(times, end, all, task) {
            return Some(Breach::Count { task, slot, came });
        }
    }
    None
}

/// A condition that doesn't hold, unless all do.
pub fn any_breach(plan: &DiePlan, times: &Times, end: u32, all: &[Arrived<'_>]) -> Option<Breach>
    requires { length plan.now.caps ≤ 16 }
    ensures some { IfSome result (BreaksAt plan.now times.now end (map arrival_of all.now)) }
    ensures none { result ≡ None → KeepAll plan.now times.now end (map arrival_of all.now) }
{
    if all.len() > MAX_JOBS as usize {
        return Some(Breach::TooMany);
    }
    if let Some(found) = unplanned(plan, times, end, all) {
        return Some(found);
    }
    if let Some(found) = near(plan, times, end, all) {
        return Some(found);
    }
    miscounted(plan, times, end, all)
}
