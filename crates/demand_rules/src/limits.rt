//! Whether each task has its terms, all within their limits.

ghost use Rattle.std.specs.Prelude.{◌≡◌, ◌<◌, ◌↔◌, length, take, slice_index_or, All, IsTrue, IsOk, IfErr, IsNone, IfSome};
ghost use Rattle.demand_rules.specs.Demand.{IsTaskTerms, HasTerms};
ghost use Rattle.demand_rules.specs.Faults.{IsWithin, IsFirstOut, IsLimitFault};

use crate::terms::{TaskTerms, Terms};
use slot_types::{DiePlan, MAX_SLOT};

/// A number of a task's terms.
#[derive(Clone, Copy, PartialEq, Eq, Debug, Drop)]
pub enum TermsNumber {
    Period,
    Deadline,
    Held,
    Work,
    Writes,
    CollectPeriod,
    CollectDeadline,
}

/// Why terms are none of a plan.
#[derive(Clone, Copy, PartialEq, Eq, Debug, Drop)]
pub enum LimitFault {
    /// `have` tasks have terms, and the plan has another number of tasks.
    Tasks { have: usize },
    /// A number is out of its limits. The tasks before this one, counted from 0, are within theirs.
    Number { task: usize, number: TermsNumber },
}

/// Whether each task has its terms, all within their limits; and else what is wrong. It takes any plan, and no memory.
pub fn limits_test(plan: &DiePlan, terms: &Terms) -> Result<(), LimitFault>
    ensures has { IsOk result ↔ HasTerms plan.now terms.now }
    ensures fault { IfErr result (IsLimitFault plan.now terms.now) }
{
    if terms.tasks.len() != plan.caps.len() {
        return Err(LimitFault::Tasks {
            have: terms.tasks.len(),
        });
    }
    match first_out(terms.tasks.as_slice()) {
        Some((task, number)) => Err(LimitFault::Number { task, number }),
        None => Ok(()),
    }
}

/// Whether each task has its terms, all within their limits.
pub fn has_terms(plan: &DiePlan, terms: &Terms) -> bool
    ensures { IsTrue result ↔ HasTerms plan.now terms.now }
{
    limits_test(plan, terms).is_ok()
}

// The first task with a number out of its limits, and that number.
fn first_out(tasks: &[TaskTerms]) -> Option<(usize, TermsNumber)>
    ensures none { IsNone result ↔ All IsTaskTerms tasks.now }
    ensures out { IfSome result (λ (task, number). IsFirstOut tasks.now task number) }
{
    for i in 0..tasks.len() {
        if let Some(number) = number_out(&tasks[i]) {
            return Some((i, number));
        }
    }
    None
}

fn number_out(task: &TaskTerms) -> Option<TermsNumber>
    ensures none { IsNone result ↔ IsTaskTerms task.now }
    ensures out { IfSome result (λ number. ¬ IsWithin task.now number) }
{
    if task.period < 1 {
        Some(TermsNumber::Period)
    } else if task.deadline < 1 {
        Some(TermsNumber::Deadline)
    } else if task.held < task.deadline || MAX_SLOT < task.held {
        Some(TermsNumber::Held)
    } else if task.work < 1 || MAX_SLOT < task.work {
        Some(TermsNumber::Work)
    } else if task.work < task.writes {
        Some(TermsNumber::Writes)
    } else if task.collect_period < 1 || MAX_SLOT < task.collect_period {
        Some(TermsNumber::CollectPeriod)
    } else if task.collect_deadline < 1 || task.collect_period < task.collect_deadline {
        Some(TermsNumber::CollectDeadline)
    } else {
        None
    }
}
