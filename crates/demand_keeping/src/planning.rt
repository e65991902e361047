//! Whether a single job or collection is as the plan has it.

ghost use Rattle.std.specs.Prelude.{◌≡◌, ℕ, ◌<◌, ◌≤◌, ◌%◌, ◌↔◌, [], ◌∷◌, All, IsTrue, IsNone, IfSome};
ghost use Rattle.slot_types.specs.Operations.{page_of};
ghost use Rattle.demand_rules.specs.Demand.{HasTerms, no_terms, terms_of};
ghost use Rattle.demand_rules.specs.Keeping.{IsDemandedCollection, IsDemandedJob};
ghost use Rattle.demand_keeping.specs.Planned.{IsFirstCollectionFault, IsFirstJobFault, collection_of, job_of};

use demand_rules::{TaskTerms, Terms};
use slot_types::{DiePlan, MAX_OPS, MAX_SLOT, Op};

/// A condition on a job, in the order in which they are looked at.
#[derive(Clone, Copy, PartialEq, Eq, Debug, Drop)]
pub enum JobRule {
    /// Its task is one of the die.
    Task,
    /// It comes at its release or before it.
    Release,
    /// It has at least its deadline's slots from its release on.
    Due,
    /// It has at most those for which it may be held, from its coming on.
    Held,
    /// It is due at 1,048,576 or before.
    LastDue,
    /// It has operations.
    SomeOps,
    /// At most 64 of them.
    FewOps,
    /// All of them are on pages of the die.
    Pages,
}

/// A condition on a collection, in the order in which they are looked at.
#[derive(Clone, Copy, PartialEq, Eq, Debug, Drop)]
pub enum CollectionRule {
    /// Its task is one of the die.
    Task,
    /// It comes in the slot of its release.
    Release,
    /// That is a multiple of the collect period.
    Multiple,
    /// That is carried out.
    BeforeEnd,
    /// Its deadline lies as many slots after its release as the task's terms say.
    Due,
    /// It is due at 1,048,576 or before.
    LastDue,
}

/// The terms of a task; a task that the plan doesn't have asks for nothing.
pub(crate) fn task_terms(terms: &Terms, task: usize) -> TaskTerms
    ensures { result ≡ terms_of terms.now task }
{
    match terms.tasks.get(task) {
        Some(found) => *found,
        None => TaskTerms {
            period: 0,
            deadline: 0,
            held: 0,
            work: 0,
            writes: 0,
            collect_period: 0,
            collect_deadline: 0,
        },
    }
}

fn are_on_die(ops: &[Op], logical: u32) -> bool
    ensures { IsTrue result ↔ All (λ op. page_of op < logical) ops.now }
{
    ops.iter().all(|op| op.page() < logical)
}

/// The first condition that doesn't hold of a job that comes in slot `now`.
pub(crate) fn broken_of_job(
    plan: &DiePlan,
    terms: &Terms,
    now: u32,
    task: u32,
    release: u32,
    due: u32,
    ops: &[Op],
) -> Option<JobRule>
    ensures none { IsNone result ↔ IsDemandedJob plan.now terms.now (job_of now task release due ops.now) }
    ensures first { IfSome result (IsFirstJobFault plan.now terms.now (job_of now task release due ops.now)) }
{
    let own = task_terms(terms, task as usize);
    if task as usize >= plan.caps.len() {
        Some(JobRule::Task)
    } else if release < now {
        Some(JobRule::Release)
    } else if u64::from(due) < u64::from(release) + u64::from(own.deadline) {
        Some(JobRule::Due)
    } else if u64::from(now) + u64::from(own.held) < u64::from(due) {
        Some(JobRule::Held)
    } else if MAX_SLOT < due {
        Some(JobRule::LastDue)
    } else if ops.is_empty() {
        Some(JobRule::SomeOps)
    } else if ops.len() > MAX_OPS as usize {
        Some(JobRule::FewOps)
    } else if !are_on_die(ops, plan.logical) {
        Some(JobRule::Pages)
    } else {
        None
    }
}

/// The first condition that doesn't hold of a collection that comes in slot `now`, where `end` slots are carried out.
pub(crate) fn broken_of_collection(
    plan: &DiePlan,
    terms: &Terms,
    end: u32,
    now: u32,
    task: u32,
    release: u32,
    due: u32,
) -> Option<CollectionRule>
    requires { HasTerms plan.now terms.now }
    ensures none { IsNone result ↔
        IsDemandedCollection plan.now terms.now end (collection_of now task release due) }
    ensures first { IfSome result (IsFirstCollectionFault plan.now terms.now end (collection_of now task release due)) }
{
    if task as usize >= plan.caps.len() {
        return Some(CollectionRule::Task);
    }
    let own = task_terms(terms, task as usize);
    if release != now {
        Some(CollectionRule::Release)
    } else if release % own.collect_period != 0 {
        Some(CollectionRule::Multiple)
    } else if end <= release {
        Some(CollectionRule::BeforeEnd)
    } else if u64::from(due) != u64::from(release) + u64::from(own.collect_deadline) {
        Some(CollectionRule::Due)
    } else if MAX_SLOT < due {
        Some(CollectionRule::LastDue)
    } else {
        None
    }
}
