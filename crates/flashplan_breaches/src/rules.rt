//! The conditions on a single job or collection, and whether each holds.

ghost use Rattle.std.specs.Prelude.{◌≡◌, ◌↔◌, ◌<◌, ◌%◌, All, IfSome, IsTrue, None, count_by};
ghost use Rattle.slot_types.specs.Operations.{is_write, page_of};
ghost use Rattle.plan_rules.specs.Keeping.{IsPlannedCollection, IsPlannedJob};
ghost use Rattle.plan_rules.specs.Times.{times_of};
ghost use Rattle.flashplan_breaches.specs.Arrivals.{arrival_of};
ghost use Rattle.flashplan_breaches.specs.Breaches.{CollectionHolds, JobHolds};

use crate::coming::Arrived;
use slot_types::{DiePlan, MAX_SLOT, Op, TaskTimes, Times};

/// A condition on a job.
#[derive(Clone, Copy, PartialEq, Eq, Debug, Drop)]
pub enum JobRule {
    /// Its task is one of the die.
    Task,
    /// It comes in the slot of its release.
    Release,
    /// It has a period to its deadline.
    Due,
    /// Its deadline is at most 1,048,576.
    LastDue,
    /// It has operations.
    SomeOps,
    /// No more of them than `work`.
    FewOps,
    /// All of them are on pages of the die.
    Pages,
    /// No more of them write than `writes`.
    FewWrites,
}

/// A condition on a collection.
#[derive(Clone, Copy, PartialEq, Eq, Debug, Drop)]
pub enum CollectionRule {
    /// Its task is one of the die.
    Task,
    /// It comes in the slot of its release.
    Release,
    /// That is a multiple of the collect period.
    Multiple,
    /// That is carried out.
    BeforeEnd,
    /// It has a collect period to its deadline.
    Due,
    /// A collect period after its release is at most 1,048,576.
    LastDue,
}

/// The times of a task; a task that the plan doesn't have asks for nothing.
pub fn task_times(times: &Times, task: u32) -> TaskTimes
    ensures { result ≡ times_of times.now task }
{
    match times.tasks.get(task as usize) {
        Some(found) => *found,
        None => TaskTimes {
            period: 0,
            collect_period: 0,
            work: 0,
            writes: 0,
        },
    }
}

/// Whether all operations are on pages of a die.
fn are_on_die(ops: &[Op], logical: u32) -> bool
    ensures { IsTrue result ↔ All (λ op. page_of op < logical) ops.now }
{
    ops.iter().all(|op| op.page() < logical)
}

/// How many operations write.
fn writes(ops: &[Op]) -> usize
    ensures { result ≡ count_by is_write ops.now }
{
    ops.iter().filter(|op| op.is_write()).count()
}

/// Whether a condition on a job holds of one.
pub fn job_holds(plan: &DiePlan, times: &Times, a: &Arrived<'_>, rule: JobRule) -> bool
    ensures { IsTrue result ↔ JobHolds plan.now times.now (arrival_of a.now) rule }
{
    let own = task_times(times, a.task);
    match rule {
        JobRule::Task => (a.task as usize) < plan.caps.len(),
        JobRule::Release => a.release == a.at,
        JobRule::Due => u64::from(a.due) == u64::from(a.release) + u64::from(own.period),
        JobRule::LastDue => a.due <= MAX_SLOT,
        JobRule::SomeOps => 1 <= a.ops.len(),
        JobRule::FewOps => a.ops.len() <= own.work as usize,
        JobRule::Pages => are_on_die(a.ops, plan.logical),
        JobRule::FewWrites => writes(a.ops) <= own.writes as usize,
    }
}

/// Whether a slot is a multiple of a period; of a period of 0 it is slot 0 alone.
pub fn is_multiple(slot: u32, period: u32) -> bool
    ensures { IsTrue result ↔ (slot % period ≡ 0) }
{
    if period == 0 {
        slot == 0
    } else {
        slot % period == 0
    }
}

/// Whether a condition on a collection holds of one, where `end` slots are carried out.
pub fn collection_holds(
    plan: &DiePlan,
    times: &Times,
    end: u32,
    a: &Arrived<'_>,
    rule: CollectionRule,
) -> bool
    ensures { IsTrue result ↔ CollectionHolds plan.now times.now end (arrival_of a.now) rule }
{
    let period = task_times(times, a.task).collect_period;
    match rule {
        CollectionRule::Task => (a.task as usize) < plan.caps.len(),
        CollectionRule::Release => a.release == a.at,
        CollectionRule::Multiple => is_multiple(a.release, period),
        CollectionRule::BeforeEnd => a.release < end,
        CollectionRule::Due => u64::from(a.due) == u64::from(a.release) + u64::from(period),
        CollectionRule::LastDue => {
            u64::from(a.release) + u64::from(period) <= u64::from(MAX_SLOT)
        }
    }
}

/// The first condition that doesn't hold of a job, if there is one.
pub fn broken_job_rule(plan: &DiePlan, times: &Times, a: &Arrived<'_>) -> Option<JobRule>
    ensures broken { IfSome result (λ rule. ¬ JobHolds plan.now times.now (arrival_of a.now) rule) }
    ensures none { result ≡ None → IsPlannedJob plan.now times.now (arrival_of a.now) }
{
    if !job_holds(plan, times, a, JobRule::Task) {
        return Some(JobRule::Task);
    }
    if !job_holds(plan, times, a, JobRule::Release) {
        return Some(JobRule::Release);
    }
    if !job_holds(plan, times, a, JobRule::Due) {
        return Some(JobRule::Due);
    }
    if !job_holds(plan, times, a, JobRule::LastDue) {
        return Some(JobRule::LastDue);
    }
    if !job_holds(plan, times, a, JobRule::SomeOps) {
        return Some(JobRule::SomeOps);
    }
    if !job_holds(plan, times, a, JobRule::FewOps) {
        return Some(JobRule::FewOps);
    }
    if !job_holds(plan, times, a, JobRule::Pages) {
        return Some(JobRule::Pages);
    }
    if !job_holds(plan, times, a, JobRule::FewWrites) {
        return Some(JobRule::FewWrites);
    }
    None
}

/// The first condition that doesn't hold of a collection, if there is one, where `end` slots are carried out.
pub fn broken_collection_rule(
    plan: &DiePlan,
    times: &Times,
    end: u32,
    a: &Arrived<'_>,
) -> Option<CollectionRule>
    ensures broken { IfSome result (λ rule. ¬ CollectionHolds plan.now times.now end (arrival_of a.now) rule) }
    ensures none { result ≡ None → IsPlannedCollection plan.now times.now end (arrival_of a.now) }
{
    if !collection_holds(plan, times, end, a, CollectionRule::Task) {
        return Some(CollectionRule::Task);
    }
    if !collection_holds(plan, times, end, a, CollectionRule::Release) {
        return Some(CollectionRule::Release);
    }
    if !collection_holds(plan, times, end, a, CollectionRule::Multiple) {
        return Some(CollectionRule::Multiple);
    }
    if !collection_holds(plan, times, end, a, CollectionRule::BeforeEnd) {
        return Some(CollectionRule::BeforeEnd);
    }
    if !collection_holds(plan, times, end, a, CollectionRule::Due) {
        return Some(CollectionRule::Due);
    }
    if !collection_holds(plan, times, end, a, CollectionRule::LastDue) {
        return Some(CollectionRule::LastDue);
    }
    None
}
