//! The plan of a die with the terms of a task changed, put to the test.

ghost use Rattle.std.specs.Prelude.{◌≡◌, ◌↔◌, IsTrue, slice_set};
ghost use Rattle.terms_texts.specs.Stores.{IsUsable};
ghost use Rattle.flashplan_terms_margins.specs.Changes.{IsAlike, with_own};

use demand_rules::{TaskTerms, Terms, TermsList};
use demand_trials::passing_load;
use plan_rules::bound;
use terms_texts::DieTerms;

/// A die that was tried, and whether it would do with the terms that it was tried with.
#[derive(Drop)]
pub(crate) struct Attempt {
    /// It differs from the die before in the terms of that task alone, if at all.
    pub(crate) made: DieTerms,
    pub(crate) does: bool,
}

/// Terms of tasks with those of one changed, if there is one.
fn with_terms(tasks: TermsList, task: usize, own: TaskTerms) -> TermsList
    ensures { result ≡ slice_set tasks task own }
{
    let mut all = tasks.into_vec();
    if task < all.len() {
        all[task] = own;
    }
    TermsList::from_vec(all)
}

/// Whether a die meets its bound, and passes its tests. It takes any die, and no memory.
pub fn would_do(made: &DieTerms) -> bool
    ensures { IsTrue result ↔ IsUsable made.now }
{
    bound(&made.plan).is_ok() && passing_load(&made.plan, &made.terms).is_some()
}

/// A die with these terms of a task, if there is one.
pub fn with_own(made: DieTerms, task: usize, own: TaskTerms) -> DieTerms
    ensures { result ≡ with_own made task own }
{
    DieTerms {
        plan: made.plan,
        terms: Terms {
            tasks: with_terms(made.terms.tasks, task, own),
        },
    }
}

/// A die with these terms of a task, put to the test. It takes any plan, and no memory.
pub(crate) fn tried(made: DieTerms, task: usize, own: TaskTerms) -> Attempt
    ensures alike { IsAlike task result.made made }
    ensures does { IsTrue result.does ↔ IsUsable (with_own made task own) }
{
    let made = with_own(made, task, own);
    let does = would_do(&made);
    Attempt { made, does }
}
