//! Changes of a plan's numbers with which it would do, the cheapest first.

ghost use Rattle.std.specs.Prelude.{◌≡◌, ◌++◌, ℕ, List, Option, IfOk, OnOk};
ghost use Rattle.slot_types.specs.Refusal.{FailsForMemory};
ghost use Rattle.flashplan_terms_changes.specs.declared.changes.Change.{Change};
ghost use Rattle.flashplan_terms_changes.specs.Changes.{AreChanges, AreFound, AreRanked, Finds, basic_price};
ghost use Rattle.flashplan_terms_changes.specs.Changes.{change_of, die_at, from_of, price, task_at};

use crate::asked_numbers::{Asked, asked_of, shared};
use crate::nearest::nearest;
use crate::nearest_alpha::{distance, nearest_alpha};
use crate::plan_numbers::{PlanNumber, loosest, number_of};
use flashplan_design::TaskName;
use slot_types::Refusal;
use std::alloc::Global;
use terms_texts::{TermsNumbers, die_terms};

/// Another number in place of one that a plan has.
#[derive(Clone, Copy, PartialEq, Eq, Debug, Drop)]
pub struct Change {
    /// The task whose number it is; none where all dies share it.
    pub of: Option<TaskName>,
    pub which: PlanNumber,
    pub from: u32,
    pub to: u32,
}

/// What the change of the alpha costs in addition to how great it is: more than any change of one number of
/// collections.
const OF_ALPHA: u64 = 5_000_000_000_000_000;

/// What a change of such a number costs in addition to how great it is: more than any change of the alpha.
const OF_NEEDS: u64 = 10_000_000_000_000_000;

impl Change {
    /// What a change of such a number costs at least: nothing where it is one of collections, which a designer chooses, and
    /// more where all that goes with an alpha changes, too.
    fn basic_price(self) -> u64
        ensures { result ≡ basic_price self.which }
    {
        match self.which {
            PlanNumber::Cap | PlanNumber::CollectPeriod | PlanNumber::CollectDeadline => 0,
            PlanNumber::Alpha => OF_ALPHA,
            PlanNumber::Logical
            | PlanNumber::Blocks
            | PlanNumber::Period
            | PlanNumber::Deadline
            | PlanNumber::Held
            | PlanNumber::Work
            | PlanNumber::Writes => OF_NEEDS,
        }
    }

    /// How dear it is: by how many millionths the number changes, and what such a change costs at least.
    pub fn price(self) -> u64
        ensures { result ≡ price self }
    {
        let apart = u64::from(distance(self.from, self.to));
        self.basic_price() + apart * 1_000_000 / u64::from(self.from.max(1))
    }
}

/// A number as a plan has it, and the nearest one with which the plan does, if there is one.
#[derive(Clone, Copy, Drop)]
struct Sought {
    from: u32,
    found: Option<u32>,
}

/// Where a number stands: in the first die where all dies share it, and else in the task's.
fn place_of(of: Option<TaskName>) -> (u32, u32)
    ensures die { result.0 ≡ die_at of }
    ensures task { result.1 ≡ task_at of }
{
    match of {
        None => (0, 0),
        Some(name) => (name.die, name.task),
    }
}

/// The nearest number with which a plan does. The only refusal is NoMemory.
fn seek(alloc: Global, numbers: &TermsNumbers, asked: Asked) -> Result<Sought, Refusal>
    ensures from { IfOk result (λ sought. sought.from ≡ from_of numbers.now asked) }
    ensures found { IfOk result (λ sought. Finds numbers.now asked sought.found) }
    ensures refused { FailsForMemory result }
{
    let (die, task) = place_of(asked.of);
    let own = die_terms(alloc, numbers, die)?;
    let from = number_of(&own, task as usize, asked.which);
    let to = loosest(&own, task as usize, asked.which);
    let found = nearest(alloc, numbers, asked.of, asked.which, from, to)?;
    Ok(Sought { from, found })
}

/// Adds the change of a number to one that was found, if one was. The only refusal is NoMemory.
fn put_change(
    changes: &mut Vec<Change>,
    asked: Asked,
    from: u32,
    found: Option<u32>,
) -> Result<(), Refusal>
    ensures put { OnOk result (changes.new.items ≡ changes.old.items ++ change_of asked from found) }
    ensures refused { FailsForMemory result }
{
    let Some(to) = found else {
        return Ok(());
    };
    changes.push(Change {
        of: asked.of,
        which: asked.which,
        from,
        to,
    })?;
    Ok(())
}

/// Adds the change of a number of a plan, if there is one. The only refusal is NoMemory.
fn put_sought(
    alloc: Global,
    changes: &mut Vec<Change>,
    numbers: &TermsNumbers,
    asked: Asked,
) -> Result<(), Refusal>
    ensures put { OnOk result ((found : Option ℕ) × Finds numbers.now asked found
        × (changes.new.items ≡ changes.old.items ++ change_of asked (from_of numbers.now asked) found)) }
    ensures refused { FailsForMemory result }
{
    let found = seek(alloc, numbers, asked)?;
    put_change(changes, asked, found.from, found.found)
}

/// Adds those of numbers, one after the other. The only refusal is NoMemory.
fn put_found(
    alloc: Global,
    changes: &mut Vec<Change>,
    numbers: &TermsNumbers,
    asked: &[Asked],
) -> Result<(), Refusal>
    ensures put { OnOk result ((more : List Change) × AreFound numbers.now asked.now more
        × (changes.new.items ≡ changes.old.items ++ more)) }
    ensures refused { FailsForMemory result }
{
    for i in 0..asked.len() {
        put_sought(alloc, changes, numbers, asked[i])?;
    }
    Ok(())
}

/// All changes with which a plan does, that of its alpha first. The only refusal is NoMemory.
fn unranked(alloc: Global, numbers: &TermsNumbers) -> Result<Vec<Change>, Refusal>
    ensures all { IfOk result (λ changes. AreChanges numbers.now changes.items) }
    ensures refused { FailsForMemory result }
{
    let asked = asked_of(alloc, numbers)?;
    let alpha = nearest_alpha(alloc, numbers)?;
    let mut changes = Vec::new(alloc);
    put_change(
        &mut changes,
        shared(PlanNumber::Alpha),
        numbers.top.alpha,
        alpha,
    )?;
    put_found(alloc, &mut changes, numbers, &asked)?;
    Ok(changes)
}

/// All changes of one number with which a plan does, and that of its alpha with what goes with it, the cheapest first. The
/// only refusal is NoMemory.
pub fn ranked_changes(alloc: Global, numbers: &TermsNumbers) -> Result<Vec<Change>, Refusal>
    ensures ranked { IfOk result (λ changes. AreRanked numbers.now changes.items) }
    ensures refused { FailsForMemory result }
{
    let mut changes = unranked(alloc, numbers)?;
    changes.sort_by_key(|change| change.price())?;
    Ok(changes)
}
