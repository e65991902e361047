//! Conditions of a plan with times that don't hold of events, and whether they really don't.

ghost use Rattle.std.specs.Prelude.{◌≡◌, ◌↔◌, ◌<◌, IsTrue, Some, false, map, count_by, slice_get};
ghost use Rattle.plan_rules.specs.Keeping.{AreApart, IsCollectSlot, is_collection_at};
ghost use Rattle.flashplan_breaches.specs.Arrivals.{arrival_of};
ghost use Rattle.flashplan_breaches.specs.Breaches.{BreaksAt, BreaksCollection, BreaksCount, BreaksJob, BreaksPeriod, IsNearAt};
ghost use Rattle.flashplan_breaches.specs.declared.coming.Arrived.{Arrived as Arrival};

use crate::coming::Arrived;
use crate::rules::{CollectionRule, JobRule, collection_holds, is_multiple, job_holds, task_times};
use slot_types::{DiePlan, MAX_JOBS, MAX_SLOT, Times};

/// A condition that doesn't hold. Places are those of jobs and collections in their order on the die, from 0.
#[derive(Clone, Copy, PartialEq, Eq, Debug, Drop)]
pub enum Breach {
    Job { place: usize, rule: JobRule },
    Collection { place: usize, rule: CollectionRule },
    /// The later one of two jobs of a task is released less than a period after the earlier one.
    Period { earlier: usize, later: usize },
    /// In a slot in which the plan has a collection of a task, none comes, or more than one.
    Count { task: u32, slot: u32, came: usize },
    /// There are more than 65,536 jobs and collections.
    TooMany,
    /// More than 1,048,576 slots are carried out.
    TooManySlots,
}

/// The job or the collection at a place.
pub(crate) fn at<'a>(all: &[Arrived<'a>], place: usize) -> Option<Arrived<'a>>
    ensures { slice_get all.now place ≡ result }
{
    all.get(place).copied()
}

/// Whether a condition doesn't hold of the job at a place.
fn breaks_job(
    plan: &DiePlan,
    times: &Times,
    all: &[Arrived<'_>],
    place: usize,
    rule: JobRule,
) -> bool
    ensures { IsTrue result → BreaksJob plan.now times.now (map arrival_of all.now) place rule }
{
    match at(all, place) {
        Some(a) => !a.collects && !job_holds(plan, times, &a, rule),
        None => false,
    }
}

/// Whether a condition doesn't hold of the collection at a place.
fn breaks_collection(
    plan: &DiePlan,
    times: &Times,
    end: u32,
    all: &[Arrived<'_>],
    place: usize,
    rule: CollectionRule,
) -> bool
    ensures { IsTrue result →
        BreaksCollection plan.now times.now end (map arrival_of all.now) place rule }
{
    match at(all, place) {
        Some(a) => a.collects && !collection_holds(plan, times, end, &a, rule),
        None => false,
    }
}

/// Whether two jobs and collections, of which the first comes first, are apart.
fn are_apart(times: &Times, first: &Arrived<'_>, second: &Arrived<'_>) -> bool
    ensures { IsTrue result ↔ AreApart times.now (arrival_of first.now) (arrival_of second.now) }
{
    let period = task_times(times, first.task).period;
    first.collects
        || second.collects
        || first.task != second.task
        || u64::from(first.release) + u64::from(period) <= u64::from(second.release)
}

/// Whether the job at a place isn't apart from an earlier one.
fn is_near_at(times: &Times, all: &[Arrived<'_>], first: &Arrived<'_>, later: usize) -> bool
    ensures near { IsTrue result →
        IsNearAt times.now (map arrival_of all.now) (arrival_of first.now) later }
    ensures apart { result ≡ false → (second : Arrival) → slice_get all.now later ≡ Some second →
        AreApart times.now (arrival_of first.now) (arrival_of second) }
{
    match at(all, later) {
        Some(second) => !are_apart(times, first, &second),
        None => false,
    }
}

/// Whether the jobs at two places, of which the first comes first, aren't apart.
pub(crate) fn breaks_period(
    times: &Times,
    all: &[Arrived<'_>],
    earlier: usize,
    later: usize,
) -> bool
    ensures near { IsTrue result → BreaksPeriod times.now (map arrival_of all.now) earlier later }
    ensures apart { result ≡ false → earlier < later → (first second : Arrival) →
        slice_get all.now earlier ≡ Some first → slice_get all.now later ≡ Some second →
        AreApart times.now (arrival_of first) (arrival_of second) }
{
    if later <= earlier {
        return false;
    }
    match at(all, earlier) {
        Some(first) => is_near_at(times, all, &first, later),
        None => false,
    }
}

/// How many collections of a task come in a slot.
pub fn count_at(all: &[Arrived<'_>], task: u32, slot: u32) -> usize
    ensures { result ≡ count_by (λ a. is_collection_at task slot (arrival_of a)) all.now }
{
    all.iter()
        .filter(|a| a.collects && a.task == task && a.at == slot)
        .count()
}

/// Whether the plan has a collection of a task in a slot, where `end` slots are carried out.
pub(crate) fn is_collect_slot(times: &Times, end: u32, task: u32, slot: u32) -> bool
    ensures { IsTrue result ↔ IsCollectSlot times.now end task slot }
{
    let period = task_times(times, task).collect_period;
    is_multiple(slot, period)
        && slot < end
        && u64::from(slot) + u64::from(period) <= u64::from(MAX_SLOT)
}

/// Whether `came` collections, and not one, come in a slot in which the plan has one.
fn breaks_count(
    plan: &DiePlan,
    times: &Times,
    end: u32,
    all: &[Arrived<'_>],
    task: u32,
    slot: u32,
    came: usize,
) -> bool
    ensures { IsTrue result →
        BreaksCount plan.now times.now end (map arrival_of all.now) task slot came }
{
    if came == 1 {
        return false;
    }
    if plan.caps.len() <= task as usize {
        return false;
    }
    if !is_collect_slot(times, end, task, slot) {
        return false;
    }
    count_at(all, task, slot) == came
}

/// Whether what is reported is a condition that doesn't hold of these jobs and collections.
pub fn is_breach(plan: &DiePlan, times: &Times, end: u32, all: &[Arrived<'_>], said: Breach) -> bool
    ensures { IsTrue result → BreaksAt plan.now times.now end (map arrival_of all.now) said }
{
    match said {
        Breach::Job { place, rule } => breaks_job(plan, times, all, place, rule),
        Breach::Collection { place, rule } => {
            breaks_collection(plan, times, end, all, place, rule)
        }
        Breach::Period { earlier, later } => breaks_period(times, all, earlier, later),
        Breach::Count { task, slot, came } => {
            breaks_count(plan, times, end, all, task, slot, came)
        }
        Breach::TooMany => all.len() > MAX_JOBS as usize,
        Breach::TooManySlots => end > MAX_SLOT,
    }
}
