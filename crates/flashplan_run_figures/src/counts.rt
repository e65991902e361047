//! What is counted of the slots of a die, from its first one on.

ghost use Rattle.std.specs.Prelude.{◌≡◌, ℕ, length, replicate, IfOk};
ghost use Rattle.slot_types.specs.Refusal.{FailsForMemory};
ghost use Rattle.flashplan_run_figures.specs.SlotCounts.{AreAfterAct, NOTHING, after_act, one_more};

use crate::slot_counts::SlotCounts;
use slot_types::{Act, Refusal};
use std::alloc::Global;

/// How many slots of a die carried what: all, and those of each task.
#[derive(Drop)]
pub struct DieCounts {
    pub all: SlotCounts,
    pub tasks: Vec<SlotCounts>,
    /// Slots that carried nothing.
    pub idle: u32,
}

impl DieCounts {
    /// Of a die with `tasks` tasks, without a slot. The only refusal is NoMemory.
    pub fn new(alloc: Global, tasks: usize) -> Result<DieCounts, Refusal>
        ensures all { IfOk result (λ counts. counts.all ≡ NOTHING) }
        ensures tasks { IfOk result (λ counts. counts.tasks.items ≡ replicate tasks NOTHING) }
        ensures idle { IfOk result (λ counts. counts.idle ≡ 0) }
        ensures refused { FailsForMemory result }
    {
        let none = SlotCounts::new();
        Ok(DieCounts {
            all: none,
            tasks: vec![in alloc; none; tasks]?,
            idle: 0,
        })
    }

    /// Adds a slot that carried nothing.
    pub fn note_idle(&mut self)
        ensures idle { self.new.idle ≡ one_more self.old.idle }
        ensures all { self.new.all ≡ self.old.all }
        ensures tasks { self.new.tasks ≡ self.old.tasks }
    {
        self.idle = self.idle.saturating_add(1);
    }

    /// Adds a slot that carried an act of a task, if there is that task.
    pub fn note_act(&mut self, task: Option<u32>, act: &Act)
        ensures all { self.new.all ≡ after_act act.now self.old.all }
        ensures tasks { AreAfterAct task act.now self.old.tasks.items self.new.tasks.items }
        ensures count { length self.new.tasks.items ≡ length self.old.tasks.items }
        ensures idle { self.new.idle ≡ self.old.idle }
    {
        self.all.note(act);
        if let Some(task) = task {
            note_task(&mut self.tasks, task, act);
        }
    }
}

/// Adds a slot of a task, if there is that task.
fn note_task(tasks: &mut Vec<SlotCounts>, task: u32, act: &Act)
    ensures each { AreAfterAct (Some task) act.now tasks.old.items tasks.new.items }
    ensures count { length tasks.new.items ≡ length tasks.old.items }
{
    let place = task as usize;
    if place < tasks.len() {
        tasks[place].note(act);
    }
}
