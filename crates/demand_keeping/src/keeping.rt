//! Whether events keep to a plan, and else what breaks it.

ghost use Rattle.std.specs.Prelude.{◌≡◌, ℕ, ◌+◌, ◌<◌, ◌≤◌, ◌↔◌, [], ◌∷◌, length, All, IsOk, IfErr, IfOk, IfSome, IsNone};
ghost use Rattle.slot_types.specs.Refusal.{FailsForMemory};
ghost use Rattle.slot_types.specs.declared.limits.TheConstants.{MAX_SLOT};
ghost use Rattle.plan_rules.specs.Keeping.{arrivals, slots};
ghost use Rattle.demand_rules.specs.Demand.{HasTerms};
ghost use Rattle.demand_rules.specs.Keeping.{IsDemanded, KeepsDemandPlan};
ghost use Rattle.demand_keeping.specs.Breaches.{AreKeptBelow, ArePlanned, AreTasksKept, BreaksAlone, IsFirstBreach, IsInLimits, IsTaskKept};

use crate::collecting::wrong_collection;
use crate::overfull::window_above;
use crate::planning::{CollectionRule, JobRule, broken_of_collection, broken_of_job, task_terms};
use crate::windows::{Count, Limit, slots_in};
use demand_rules::{LimitFault, Terms, limits_test};
use slot_types::{DiePlan, Event, MAX_JOBS, MAX_SLOT, Refusal};
use std::alloc::Global;

/// The first condition of a plan that doesn't hold of events, in the order in which these stand here.
#[derive(Clone, Copy, PartialEq, Eq, Debug, Drop)]
pub enum Breach {
    /// The terms are none of the plan's.
    Limits(LimitFault),
    /// More than 1,048,576 slots are carried out.
    Slots,
    /// There are more than 65,536 jobs and collections.
    Arrivals,
    /// A condition doesn't hold of the job at this index of the events: of the first job or collection of which one doesn't,
    /// and of that one the first.
    Job { index: usize, rule: JobRule },
    /// Likewise of the collection at this index.
    Collection { index: usize, rule: CollectionRule },
    /// The jobs of a task that are released in the period that begins in this slot have more operations than it may ask for.
    /// It is the first task of which anything is wrong, and as the events come one by one no period has more before this
    /// one; of those that have more with the same job it begins first. Where the jobs of the task are released in the order
    /// in which they come, it is the period that ends with that job's release.
    Operations { task: u32, start: u32 },
    /// Likewise those that come in the period that begins in this slot have more writes than it may ask for. It is the
    /// period that ends with the slot in which a job comes.
    Writes { task: u32, start: u32 },
    /// In this slot the plan has a collection of a task, and none comes, or more than one; it is the first such slot.
    Collections { task: u32, slot: u32 },
}

/// How many slots events carry out.
fn slots_of(events: &[Event]) -> usize
    ensures { result ≡ slots events.now }
{
    events
        .iter()
        .filter(|event| matches!(event, Event::Slot))
        .count()
}

// What of one event isn't as the plan has it, the first of it.
fn broken(
    plan: &DiePlan,
    terms: &Terms,
    end: u32,
    now: u32,
    index: usize,
    event: &Event,
) -> Option<Breach>
    requires { HasTerms plan.now terms.now }
    ensures none { IsNone result → All (IsDemanded plan.now terms.now end) (arrivals now (event.now ∷ [])) }
    ensures first { IfSome result (BreaksAlone plan.now terms.now end now index event.now) }
{
    match event {
        Event::Submit {
            task,
            release,
            due,
            ops,
        } => match broken_of_job(plan, terms, now, task.0, *release, *due, ops.as_slice()) {
            Some(rule) => Some(Breach::Job { index, rule }),
            None => None,
        },
        Event::Collect { task, release, due } => {
            match broken_of_collection(plan, terms, end, now, task.0, *release, *due) {
                Some(rule) => Some(Breach::Collection { index, rule }),
                None => None,
            }
        }
        Event::Slot => None,
    }
}

// The first event that isn't as the plan has it.
fn first_broken(plan: &DiePlan, terms: &Terms, end: u32, events: &[Event]) -> Option<Breach>
    requires limits { IsInLimits plan.now terms.now events.now }
    requires end { end ≡ slots events.now }
    requires few { end ≤ 1048576 }
    ensures none { IsNone result → ArePlanned plan.now terms.now events.now events.now }
    ensures first { IfSome result (IsFirstBreach plan.now terms.now events.now) }
{
    let mut now: u32 = 0;
    for i in 0..events.len() {
        if let Some(first) = broken(plan, terms, end, now, i, &events[i]) {
            return Some(first);
        }
        now += slots_in(&events[i]);
    }
    None
}

// What breaks the plan of a task's operations, its writes or its collections, the first of these. The only refusal is
// NoMemory.
fn broken_of_task(
    alloc: Global,
    plan: &DiePlan,
    terms: &Terms,
    task: u32,
    end: u32,
    events: &[Event],
) -> Result<Option<Breach>, Refusal>
    requires kept { AreKeptBelow plan.now terms.now events.now task }
    requires end { end ≡ slots events.now }
    requires few { end ≤ 1048576 }
    ensures none { IfOk result (λ found. IsNone found → IsTaskKept terms.now task events.now) }
    ensures first { IfOk result (λ found. IfSome found (IsFirstBreach plan.now terms.now events.now)) }
    ensures refused { FailsForMemory result }
{
    let own = task_terms(terms, task as usize);
    let operations = Limit {
        count: Count::Operations,
        task,
        period: own.period,
        limit: own.work,
    };
    if let Some(start) = window_above(alloc, operations, events)? {
        return Ok(Some(Breach::Operations { task, start }));
    }
    let writes = Limit {
        count: Count::Writes,
        task,
        period: own.period,
        limit: own.writes,
    };
    if let Some(start) = window_above(alloc, writes, events)? {
        return Ok(Some(Breach::Writes { task, start }));
    }
    if let Some(slot) = wrong_collection(plan, terms, task, &own, end, events) {
        return Ok(Some(Breach::Collections { task, slot }));
    }
    Ok(None)
}

// What breaks the plan of the first task of which anything does. The only refusal is NoMemory.
fn first_broken_task(
    alloc: Global,
    plan: &DiePlan,
    terms: &Terms,
    end: u32,
    events: &[Event],
) -> Result<Option<Breach>, Refusal>
    requires few_tasks { length plan.now.caps ≤ 16 }
    requires end { end ≡ slots events.now }
    requires few { end ≤ 1048576 }
    requires planned { ArePlanned plan.now terms.now events.now events.now }
    ensures none { IfOk result (λ found.
        IsNone found → AreTasksKept terms.now (length plan.now.caps) events.now) }
    ensures first { IfOk result (λ found. IfSome found (IsFirstBreach plan.now terms.now events.now)) }
    ensures refused { FailsForMemory result }
{
    for task in 0..plan.caps.len() {
        if let Some(breach) = broken_of_task(alloc, plan, terms, task as u32, end, events)? {
            return Ok(Some(breach));
        }
    }
    Ok(None)
}

/// Whether events keep to a plan with deadlines and bursts; else the first condition that doesn't hold. It takes any plan of
/// at most 16 tasks, any terms and events. The only refusal is NoMemory.
///
/// It looks at the terms, the numbers of slots and of jobs and collections, each event by itself, and then task by task at
/// what is released in a period, what comes in one, and at its collections. For each task it takes time linear in the events,
/// and that of sorting the task's jobs by slot; and memory for what is counted of these: 24 bytes for each, and up to three
/// times that while the list of them grows and is sorted.
pub fn keeps_demand_plan(
    alloc: Global,
    plan: &DiePlan,
    terms: &Terms,
    events: &[Event],
) -> Result<Result<(), Breach>, Refusal>
    requires { length plan.now.caps ≤ 16 }
    ensures keeps { IfOk result (λ kept. IsOk kept ↔ KeepsDemandPlan plan.now terms.now events.now) }
    ensures breach { IfOk result (λ kept. IfErr kept (IsFirstBreach plan.now terms.now events.now)) }
    ensures refused { FailsForMemory result }
{
    if let Err(fault) = limits_test(plan, terms) {
        return Ok(Err(Breach::Limits(fault)));
    }
    let slots = slots_of(events);
    if slots > MAX_SLOT as usize {
        return Ok(Err(Breach::Slots));
    }
    if events.len() - slots > MAX_JOBS as usize {
        return Ok(Err(Breach::Arrivals));
    }
    let end = slots as u32;
    if let Some(breach) = first_broken(plan, terms, end, events) {
        return Ok(Err(breach));
    }
    match first_broken_task(alloc, plan, terms, end, events)? {
        Some(breach) => Ok(Err(breach)),
        None => Ok(Ok(())),
    }
}
