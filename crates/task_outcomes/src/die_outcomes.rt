//! The outcomes that the tasks of a die have still to take.

ghost use Rattle.std.specs.Prelude.{◌≡◌, ◌≢◌, [], length, IsSomeAnd, IfOk, OnOk, OnErr};
ghost use Rattle.slot_types.specs.declared.replies.Reply.{Reply};
ghost use Rattle.task_outcomes.specs.Told.{told_by};
ghost use Rattle.task_outcomes.specs.Queues.{new_queues, queue_of, with_told, first_of, with_taken};

use crate::done_job::done_job;
use crate::outcome_queue::OutcomeQueue;
use crate::task_outcome::TaskOutcome;
use demand_rules::Terms;
use flash_die::Nand;
use planned_die::PlannedDie;
use slot_types::{SlotReply, TaskNo};
use std::alloc::{AllocError, Global};
use std::marker::Model;

/// By task the outcomes that it has still to take. Contracts see the queues.
#[derive(Drop)]
pub struct DieOutcomes {
    pub(crate) queues: Vec<OutcomeQueue>,
}

impl Model for DieOutcomes {
    ghost use Rattle.std.specs.Prelude.{List};
    ghost use Rattle.task_outcomes.specs.Queues.{Queue};

    ghost Value = { List Queue };

    ghost view = { λ o. o.queues.items };
}

impl DieOutcomes {
    /// Nothing to take, and all memory that is ever needed: each task has room for as many outcomes, and for as many pages of
    /// their reads, as it may ask for operations in two periods.
    pub fn new(alloc: Global, terms: &Terms) -> Result<DieOutcomes, AllocError>
        ensures { IfOk result (λ outcomes. outcomes ≡ new_queues terms.now) }
    {
        let mut queues = Vec::with_capacity(alloc, terms.tasks.len())?;
        for own in terms.tasks.as_slice() {
            let queue = OutcomeQueue::new(alloc, own)?;
            queues.push(queue)?;
        }
        Ok(DieOutcomes { queues })
    }

    /// Keeps the outcome of the job that was done with a slot, which the die has just answered so: for the job's task, and last.
    /// Where its queue has no room for it the oldest go, and are counted. It takes no memory.
    pub fn note<N: Nand>(&mut self, die: &PlannedDie<N>, reply: &SlotReply)
        ensures { self.new ≡ with_told self.old
            (told_by die.now.core.start die.now.first die.now.core.log (Reply.Slot reply.now)) }
    {
        let Some(number) = reply.finished else {
            return;
        };
        let Some(job) = die.core().job_record(number) else {
            return;
        };
        let Some(done) = done_job(die.first(), number, &job) else {
            return;
        };
        let task = done.task.0 as usize;
        if task < self.queues.len() {
            self.queues[task].keep(done, job.reads());
        }
    }

    /// Takes the first outcome of the task: that of the job which was done first of those that it has still to take; none where
    /// it has none.
    ///
    /// The only refusal is for memory, that for what the job's reads gave: then the outcome stays the first. Of nothing no memory
    /// is taken.
    pub fn take(&mut self, alloc: Global, task: TaskNo) -> Result<Option<TaskOutcome>, AllocError>
        ensures ok { IfOk result (λ first. first_of self.old task ≡ first) }
        ensures left { OnOk result (self.new ≡ with_taken self.old task) }
        ensures gave { OnErr result (IsSomeAnd (first_of self.old task) (λ o. o.reads ≢ [])) }
        ensures refused { OnErr result (self.new ≡ self.old) }
    {
        let own = task.0 as usize;
        if own >= self.queues.len() {
            return Ok(None);
        }
        self.queues[own].take(alloc)
    }

    /// How many outcomes the task has still to take.
    pub fn kept(&self, task: TaskNo) -> usize
        ensures { result ≡ length (queue_of self.now task).kept }
    {
        match self.queues.get(task.0 as usize) {
            Some(queue) => queue.len(),
            None => 0,
        }
    }

    /// How many outcomes of the task were dropped, up to 2 to the power of 64, less 1.
    pub fn dropped(&self, task: TaskNo) -> u64
        ensures { result ≡ (queue_of self.now task).dropped }
    {
        match self.queues.get(task.0 as usize) {
            Some(queue) => queue.dropped(),
            None => 0,
        }
    }
}
