//! The terms of a task.

ghost use Rattle.std.specs.Prelude.{◌≡◌};
ghost use Rattle.demand_rules.specs.Demand.{no_terms, terms_of};

use demand_rules::{TaskTerms, Terms};

fn nothing() -> TaskTerms
    ensures { result ≡ no_terms }
{
    TaskTerms {
        period: 0,
        deadline: 0,
        held: 0,
        work: 0,
        writes: 0,
        collect_period: 0,
        collect_deadline: 0,
    }
}

/// The terms of a task; a task that the plan doesn't have asks for nothing.
pub(crate) fn terms_at(terms: &Terms, task: usize) -> TaskTerms
    ensures { result ≡ terms_of terms.now task }
{
    match terms.tasks.get(task) {
        Some(own) => *own,
        None => nothing(),
    }
}
