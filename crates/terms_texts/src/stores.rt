//! The plans of a store's dies, with their terms, from the numbers of a text.

ghost use Rattle.std.specs.Prelude.{◌≡◌, ◌↔◌, ◌<◌, ◌≤◌, ◌⊎◌, ℕ, All, IsTrue, IsNone, IfOk, IfErr, IfSome, Ok, length, nat_le};
ghost use Rattle.std.specs.List.{position};
ghost use Rattle.slot_types.specs.Refusal.{FailsForMemory};
ghost use Rattle.terms_texts.specs.Refusing.{IsMemory};
ghost use Rattle.terms_texts.specs.TermsText.{read_numbers};
ghost use Rattle.terms_texts.specs.Stores.{IsDieFault, IsFirstUnusable, IsShaped, IsStore, IsUsable, RefusesStore, RefusesText};
ghost use Rattle.terms_texts.specs.Stores.{caps_of, die_of, dies_of, shape_of, stray_in, terms_of_tasks};
ghost use Rattle.terms_texts.specs.declared.numbers.TermsNumbers.{TermsNumbers};

use crate::faults::{DieFault, TermsRefusal};
use crate::numbers::{TaskNumbers, TermsNumbers, TopNumbers, terms_numbers};
use demand_rules::{Terms, TermsList, terms_test};
use plan_rules::bound;
use slot_types::{Caps, DiePlan, Items, MAX_DIES, Refusal, Shape};
use std::alloc::Global;

/// What a die is to hold, and what its tasks ask for.
#[derive(Clone, PartialEq, Eq, Debug, Drop)]
pub struct DieTerms {
    /// It has no times.
    pub plan: DiePlan,
    /// The terms of each task of the plan.
    pub terms: Terms,
}

/// The plans of a store's dies with their terms, by die: all alike except for the caps and the terms.
pub type StoreTerms = Items<DieTerms>;

/// The shape of the dies.
fn shape(top: &TopNumbers) -> Shape
    ensures { result ≡ shape_of top.now }
{
    Shape {
        blocks: top.blocks,
        pages: top.pages,
        erase_slots: top.erase_slots,
    }
}

/// Whether the number of dies and their shape are within their limits.
fn is_shaped(top: &TopNumbers) -> bool
    ensures { IsTrue result ↔ IsShaped top.now }
{
    1 <= top.dies && top.dies <= MAX_DIES && shape(top).is_within_limits()
}

/// The place of the first task that names a die that isn't there.
fn stray(tasks: &[TaskNumbers], dies: u32) -> Option<usize>
    ensures { result ≡ stray_in dies tasks.now }
{
    tasks.iter().position(|task| dies <= task.die)
}

/// The caps of a die's tasks, in the order of the text.
fn caps(alloc: Global, tasks: &[TaskNumbers], die: u32) -> Result<Caps, Refusal>
    ensures ok { IfOk result (λ caps. caps ≡ caps_of tasks.now die) }
    ensures refused { FailsForMemory result }
{
    let mut caps = Caps::new(alloc);
    for task in tasks {
        if task.die == die {
            caps.push(task.cap)?;
        }
    }
    Ok(caps)
}

/// The terms of a die's tasks, in the order of the text.
fn task_terms(alloc: Global, tasks: &[TaskNumbers], die: u32) -> Result<TermsList, Refusal>
    ensures ok { IfOk result (λ terms. terms ≡ terms_of_tasks tasks.now die) }
    ensures refused { FailsForMemory result }
{
    let mut terms = TermsList::new(alloc);
    for task in tasks {
        if task.die == die {
            terms.push(task.terms)?;
        }
    }
    Ok(terms)
}

/// The plan of a die with its terms, by the numbers of a text. It isn't judged. Only NoMemory refuses it.
pub fn die_terms(alloc: Global, plan: &TermsNumbers, die: u32) -> Result<DieTerms, Refusal>
    ensures ok { IfOk result (λ made. made ≡ die_of plan.now die) }
    ensures refused { FailsForMemory result }
{
    let caps = caps(alloc, plan.tasks.as_slice(), die)?;
    let tasks = task_terms(alloc, plan.tasks.as_slice(), die)?;
    Ok(DieTerms {
        plan: DiePlan {
            shape: shape(&plan.top),
            logical: plan.top.logical,
            alpha: plan.top.alpha,
            caps,
            times: None,
        },
        terms: Terms { tasks },
    })
}

/// Why a die may not be used: it doesn't meet its bound, or a number of its terms is out of its limits, or it doesn't
/// pass the tests of its terms. None where it may be used.
fn fault_of(die: &DieTerms) -> Option<DieFault>
    ensures none { IsNone result ↔ IsUsable die.now }
    ensures fault { IfSome result (IsDieFault die.now) }
{
    if bound(&die.plan).is_err() {
        return Some(DieFault::Bound);
    }
    match terms_test(&die.plan, &die.terms) {
        Ok(_) => None,
        Err(fault) => Some(DieFault::Terms(fault)),
    }
}

/// The plans of the dies, each of which has to be usable.
fn usable_dies(alloc: Global, plan: &TermsNumbers) -> Result<StoreTerms, TermsRefusal>
    ensures dies { IfOk result (λ store. store ≡ dies_of plan.now) }
    ensures usable { IfOk result (λ _.
        (die : ℕ) → die < plan.now.top.dies → IsUsable (die_of plan.now die)) }
    ensures refused { IfErr result (λ refusal.
        IsMemory refusal ⊎ IsFirstUnusable plan.now refusal) }
{
    let mut store = StoreTerms::new(alloc);
    for die in 0..plan.top.dies {
        let made = die_terms(alloc, plan, die)?;
        if let Some(fault) = fault_of(&made) {
            return Err(TermsRefusal::Die { die, fault });
        }
        store.push(made)?;
    }
    Ok(store)
}

/// The plans of a store, from their numbers.
fn store_of(alloc: Global, plan: &TermsNumbers) -> Result<StoreTerms, TermsRefusal>
    ensures ok { IfOk result (IsStore plan.now) }
    ensures err { IfErr result (λ refusal.
        IsMemory refusal ⊎ RefusesStore plan.now refusal) }
{
    if !is_shaped(&plan.top) {
        return Err(TermsRefusal::BadShape);
    }
    if let Some(task) = stray(plan.tasks.as_slice(), plan.top.dies) {
        return Err(TermsRefusal::NoDie { task });
    }
    usable_dies(alloc, plan)
}

/// Reads the plan of a store with terms, a TOML text of at most 1,048,576 bytes: `terms`, which is 1, `dies`, `blocks`,
/// `pages`, `erase_slots`, `logical` and `alpha`, whole numbers, and for each task a table `[[task]]` with `die`, `cap`,
/// `period`, `deadline`, `held`, `work`, `writes`, `collect_period` and `collect_deadline`. The tasks of a die are
/// numbered from 0 in the order of the text. [`TaskTerms`](demand_rules::TaskTerms) says what the numbers of a task mean.
///
/// Refusals, in order: Text with the first fault of the text, where for the top table, and then for each task, a key that
/// isn't one of those (in the top table `version` first) comes before one that is missing, and that before a value that
/// is no number from 0 to 4,294,967,295 or no array of tables, and another number than 1 at `terms` comes between the
/// top table and the tasks; BadShape where dies, blocks, pages or erase slots are out of their limits; NoDie where a task
/// names a die that isn't there; Die where a die doesn't meet the bound on plans, or doesn't pass the tests of its terms,
/// as [`terms_test`](demand_rules::terms_test) says. NoMemory comes where memory is refused.
pub fn read_terms(alloc: Global, bytes: &[u8]) -> Result<StoreTerms, TermsRefusal>
    ensures ok { IfOk result (λ store.
        (plan : TermsNumbers) × (read_numbers bytes.now ≡ Ok plan) × IsStore plan store) }
    ensures some { IfOk result (λ store. 1 ≤ length store) }
    ensures few { IfOk result (λ store. length store ≤ 8) }
    ensures usable { IfOk result (All IsUsable) }
    ensures err { IfErr result (λ refusal.
        IsMemory refusal ⊎ RefusesText (read_numbers bytes.now) refusal) }
{
    let plan = terms_numbers(alloc, bytes)?;
    store_of(alloc, &plan)
}
