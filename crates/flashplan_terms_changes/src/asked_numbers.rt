//! Which numbers of a plan are sought.

ghost use Rattle.std.specs.Prelude.{◌≡◌, ◌==◌, ◌<◌, ◌++◌, ◌∷◌, [], IfOk, OnOk, count_by, length};
ghost use Rattle.std.specs.List.{enumerate_from};
ghost use Rattle.slot_types.specs.Refusal.{FailsForMemory};
ghost use Rattle.flashplan_terms_changes.specs.Changes.{asked_of, asked_of_task, asked_of_tasks, name_at, own_asked, shared_asked};

use crate::plan_numbers::PlanNumber;
use flashplan_design::TaskName;
use slot_types::Refusal;
use std::alloc::Global;
use terms_texts::{TaskNumbers, TermsNumbers};

/// A number of a plan: of a task, or of all dies.
#[derive(Clone, Copy, PartialEq, Eq, Debug, Drop)]
pub struct Asked {
    pub of: Option<TaskName>,
    pub which: PlanNumber,
}

/// How many of these tasks are of a die.
fn count_on(tasks: &[TaskNumbers], die: u32) -> usize
    ensures { result ≡ count_by (λ task. task.die == die) tasks.now }
{
    let mut count: usize = 0;
    for task in tasks {
        if task.die == die {
            count += 1;
        }
    }
    count
}

/// The name of the task of a die at a place of the text.
fn name_at(tasks: &[TaskNumbers], place: usize, die: u32) -> TaskName
    requires { place < length tasks.now }
    ensures { result ≡ name_at tasks.now place die }
{
    let count = count_on(&tasks[..place], die) as u64;
    TaskName {
        nth: place as u64 + 1,
        die,
        task: count.min(u64::from(u32::MAX)) as u32,
    }
}

/// A number of all dies.
pub fn shared(which: PlanNumber) -> Asked
    ensures { result ≡ shared_asked which }
{
    Asked { of: None, which }
}

/// A number of a task.
fn own(name: TaskName, which: PlanNumber) -> Asked
    ensures { result ≡ own_asked name which }
{
    Asked {
        of: Some(name),
        which,
    }
}

/// Adds the numbers of a task that are sought. The only refusal is NoMemory.
fn put_task(asked: &mut Vec<Asked>, name: TaskName) -> Result<(), Refusal>
    ensures put { OnOk result (asked.new.items ≡ asked.old.items ++ asked_of_task name) }
    ensures refused { FailsForMemory result }
{
    let all = [
        own(name, PlanNumber::Cap),
        own(name, PlanNumber::CollectPeriod),
        own(name, PlanNumber::CollectDeadline),
        own(name, PlanNumber::Period),
        own(name, PlanNumber::Deadline),
        own(name, PlanNumber::Held),
        own(name, PlanNumber::Work),
        own(name, PlanNumber::Writes),
    ];
    asked.extend_from_slice(&all)?;
    Ok(())
}

/// Adds those of all tasks. The only refusal is NoMemory.
fn put_tasks(asked: &mut Vec<Asked>, tasks: &[TaskNumbers]) -> Result<(), Refusal>
    ensures put { OnOk result (asked.new.items
        ≡ asked.old.items ++ asked_of_tasks tasks.now (enumerate_from 0 tasks.now)) }
    ensures refused { FailsForMemory result }
{
    for place in 0..tasks.len() {
        put_task(asked, name_at(tasks, place, tasks[place].die))?;
    }
    Ok(())
}

/// Adds the numbers of all dies that are sought, except for the alpha. The only refusal is NoMemory.
fn put_shared(asked: &mut Vec<Asked>) -> Result<(), Refusal>
    ensures put { OnOk result (asked.new.items
        ≡ asked.old.items ++ shared_asked PlanNumber.Logical ∷ shared_asked PlanNumber.Blocks ∷ []) }
    ensures refused { FailsForMemory result }
{
    let all = [shared(PlanNumber::Logical), shared(PlanNumber::Blocks)];
    asked.extend_from_slice(&all)?;
    Ok(())
}

/// The numbers of a plan that are sought, except for its alpha: those of all dies, and then those of each task, in the
/// order of the text. The only refusal is NoMemory.
pub fn asked_of(alloc: Global, numbers: &TermsNumbers) -> Result<Vec<Asked>, Refusal>
    ensures asked { IfOk result (λ asked. asked.items ≡ asked_of numbers.now) }
    ensures refused { FailsForMemory result }
{
    let mut asked = Vec::new(alloc);
    put_shared(&mut asked)?;
    put_tasks(&mut asked, numbers.tasks.as_slice())?;
    Ok(asked)
}
