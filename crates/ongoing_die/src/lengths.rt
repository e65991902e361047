//! How long the jobs of a task take at most, and how large they are; whether lives are long enough for them.

ghost use Rattle.std.specs.Prelude.{◌≡◌, ◌≤◌, ◌<◌, ℕ, length, IfSome, IfNone};
ghost use Rattle.demand_rules.specs.Demand.{terms_of};
ghost use Rattle.ongoing_die.specs.OngoingPlans.{IsFirstTooLate};

use demand_rules::Terms;

/// After how many slots a job of the task is due; of a task that the plan doesn't have it is 0.
pub(crate) fn deadline_of(terms: &Terms, task: usize) -> u32
    ensures { result ≡ (terms_of terms.now task).deadline }
{
    match terms.tasks.get(task) {
        Some(own) => own.deadline,
        None => 0,
    }
}

/// In how many slots what the task asks for counts; of a task that the plan doesn't have it is 0.
pub(crate) fn period_of(terms: &Terms, task: usize) -> u32
    ensures { result ≡ (terms_of terms.now task).period }
{
    match terms.tasks.get(task) {
        Some(own) => own.period,
        None => 0,
    }
}

/// The most operations that the task may ask for at once; of a task that the plan doesn't have it is 0.
pub(crate) fn work_of(terms: &Terms, task: usize) -> u32
    ensures { result ≡ (terms_of terms.now task).work }
{
    match terms.tasks.get(task) {
        Some(own) => own.work,
        None => 0,
    }
}

/// The first task whose deadline is longer than a life of so many slots, if there is one.
pub(crate) fn first_too_late(terms: &Terms, life: u32) -> Option<u32>
    requires few { length terms.now.tasks ≤ 16 }
    ensures some { IfSome result (IsFirstTooLate terms.now life) }
    ensures none { IfNone result ((task : ℕ) → task < length terms.now.tasks
        → (terms_of terms.now task).deadline ≤ life) }
{
    for task in 0..terms.tasks.len() {
        if deadline_of(terms, task) > life {
            return Some(task as u32);
        }
    }
    None
}
