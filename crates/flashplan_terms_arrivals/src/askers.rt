//! The tasks of a store that ask.

ghost use Rattle.slot_types.specs.Refusal.{FailsForMemory};

use crate::bursts::Asker;
use flashplan_arrivals::Share;
use slot_types::Refusal;
use std::alloc::Global;
use terms_texts::{DieTerms, StoreTerms};

/// Adds the tasks of a die, each with pages of its own. The only refusal is NoMemory.
fn add_askers(askers: &mut Vec<Asker>, die: u32, made: &DieTerms) -> Result<(), Refusal>
    ensures { FailsForMemory result }
{
    let tasks = made.terms.tasks.as_slice();
    let step = u32::try_from(tasks.len()).unwrap_or(u32::MAX);
    let mut task: u32 = 0;
    for own in tasks {
        askers.push(Asker {
            die,
            task,
            terms: *own,
            share: Share {
                first: task,
                step,
                logical: made.plan.logical,
            },
        })?;
        task = task.saturating_add(1);
    }
    Ok(())
}

/// The tasks of all dies. The only refusal is NoMemory.
pub(crate) fn askers_of(alloc: Global, store: &StoreTerms) -> Result<Vec<Asker>, Refusal>
    ensures { FailsForMemory result }
{
    let mut askers = Vec::new(alloc);
    let mut die: u32 = 0;
    for made in store.as_slice() {
        add_askers(&mut askers, die, made)?;
        die = die.saturating_add(1);
    }
    Ok(askers)
}
