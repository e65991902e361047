//! A die that goes on by itself, and keeps what became of its tasks' jobs until they take it.

ghost use Rattle.std.specs.Prelude.{◌≡◌, ◌≢◌, [], length, IsSomeAnd, IfOk, IfErr, OnOk, OnErr};
ghost use Rattle.die_log.specs.Model.Start.{Start};
ghost use Rattle.planned_log.specs.declared.ask_kinds.AskKind.{AskKind};
ghost use Rattle.ongoing_log.specs.Ongoing.{Ongoing};
ghost use Rattle.ongoing_die.specs.Standing.{StandsAs};
ghost use Rattle.slot_core.specs.WithinSlot.{idle_reply};
ghost use Rattle.ongoing_die.specs.OngoingCalls.{IsOngoingAsk, IsOngoingAskAt, IsOngoingSlot, HaveOnePlan, filled};
ghost use Rattle.task_outcomes.specs.Queues.{new_queues, queue_of, first_of, with_taken};
ghost use Rattle.task_outcomes.specs.OutcomeDies.{HasTold};

use crate::die_outcomes::DieOutcomes;
use crate::task_outcome::TaskOutcome;
use flash_die::Nand;
use ongoing_die::{AskAtStop, AskKind, AskStop, OngoingDie, SlotStop, Taken};
use slot_core::new_reply;
use slot_types::{Op, SlotReply, TaskNo};
use std::alloc::{AllocError, Global};
use std::marker::Model;

/// A die that goes on by itself, with what became of its tasks' jobs. As each job is done its outcome is kept for its task, until
/// the task takes it: also beyond the end of the life in which it was done.
///
/// Contracts see the die, and by task the outcomes that it has still to take.
#[derive(Drop)]
pub struct OutcomeDie<N: Nand> {
    die: OngoingDie<N>,
    outcomes: DieOutcomes,
}

impl<N: Nand> Model for OutcomeDie<N> {
    ghost use Rattle.task_outcomes.specs.OutcomeDies.{OutcomeParts, HaveRooms};

    ghost Value = { OutcomeParts N };

    ghost view = { λ d. record { die = d.die; queues = d.outcomes } };

    ghost invariant = { λ d. HaveRooms d.die.die.terms d.outcomes };
}

impl<N: Nand> OutcomeDie<N> {
    /// A die whose tasks have no outcome to take: of jobs that were done before none is kept. It takes all memory that it ever
    /// needs, by task for as many outcomes, and for as many pages of their reads, as it may ask for operations in two periods.
    ///
    /// Refused for memory alone; the die is handed back then.
    pub fn new(alloc: Global, die: OngoingDie<N>) -> Result<OutcomeDie<N>, OngoingDie<N>>
        ensures die { IfOk result (λ own. own.die ≡ die) }
        ensures none { IfOk result (λ own. own.queues ≡ new_queues die.die.terms) }
        ensures back { IfErr result (λ kept. kept ≡ die) }
    {
        match DieOutcomes::new(alloc, die.die().terms()) {
            Ok(outcomes) => Ok(OutcomeDie { die, outcomes }),
            Err(_) => Err(die),
        }
    }

    /// Asks for a job of the task, as [`OngoingDie::ask`] does. It tells nothing, and takes no memory.
    pub fn ask(
        &mut self,
        alloc: Global,
        caller: u32,
        task: TaskNo,
        ops: &[Op],
    ) -> Result<Taken, AskStop>
        ensures ask { (first : Start) (d : Ongoing) → StandsAs first d self.old.die
            → IsOngoingAsk AskKind.Job caller task ops.now first d result self.old.die self.new.die }
        ensures plan { HaveOnePlan self.old.die self.new.die }
        ensures queues { self.new.queues ≡ self.old.queues }
    {
        self.ask_as(alloc, caller, AskKind::Job, task, ops)
    }

    /// Asks for a burst of the task, as [`OngoingDie::ask_all`] does. It tells nothing, and takes no memory.
    pub fn ask_all(
        &mut self,
        alloc: Global,
        caller: u32,
        task: TaskNo,
        ops: &[Op],
    ) -> Result<Taken, AskStop>
        ensures ask { (first : Start) (d : Ongoing) → StandsAs first d self.old.die
            → IsOngoingAsk AskKind.Burst caller task ops.now first d result self.old.die self.new.die }
        ensures plan { HaveOnePlan self.old.die self.new.die }
        ensures queues { self.new.queues ≡ self.old.queues }
    {
        self.ask_as(alloc, caller, AskKind::Burst, task, ops)
    }

    /// Asks for a job, as [`ask`](OutcomeDie::ask) does, or for a burst, as [`ask_all`](OutcomeDie::ask_all) does.
    pub fn ask_as(
        &mut self,
        alloc: Global,
        caller: u32,
        kind: AskKind,
        task: TaskNo,
        ops: &[Op],
    ) -> Result<Taken, AskStop>
        ensures ask { (first : Start) (d : Ongoing) → StandsAs first d self.old.die
            → IsOngoingAsk kind caller task ops.now first d result self.old.die self.new.die }
        ensures plan { HaveOnePlan self.old.die self.new.die }
        ensures queues { self.new.queues ≡ self.old.queues }
    {
        self.die.ask_as(alloc, caller, kind, task, ops)
    }

    /// Asks for a job of the task that is released in slot `at` of the clock, as [`OngoingDie::ask_at`] does. It tells nothing,
    /// and takes no memory.
    pub fn ask_at(
        &mut self,
        alloc: Global,
        caller: u32,
        task: TaskNo,
        ops: &[Op],
        at: u64,
    ) -> Result<Taken, AskAtStop>
        ensures ask { (first : Start) (d : Ongoing) → StandsAs first d self.old.die
            → IsOngoingAskAt AskKind.Job caller task ops.now at first d result self.old.die self.new.die }
        ensures plan { HaveOnePlan self.old.die self.new.die }
        ensures queues { self.new.queues ≡ self.old.queues }
    {
        self.ask_at_as(alloc, caller, AskKind::Job, task, ops, at)
    }

    /// Asks for a burst of the task that is released in slot `at` of the clock, as [`OngoingDie::ask_all_at`] does. It tells
    /// nothing, and takes no memory.
    pub fn ask_all_at(
        &mut self,
        alloc: Global,
        caller: u32,
        task: TaskNo,
        ops: &[Op],
        at: u64,
    ) -> Result<Taken, AskAtStop>
        ensures ask { (first : Start) (d : Ongoing) → StandsAs first d self.old.die
            → IsOngoingAskAt AskKind.Burst caller task ops.now at first d result self.old.die self.new.die }
        ensures plan { HaveOnePlan self.old.die self.new.die }
        ensures queues { self.new.queues ≡ self.old.queues }
    {
        self.ask_at_as(alloc, caller, AskKind::Burst, task, ops, at)
    }

    /// Asks for a job, as [`ask_at`](OutcomeDie::ask_at) does, or for a burst, as [`ask_all_at`](OutcomeDie::ask_all_at) does.
    pub fn ask_at_as(
        &mut self,
        alloc: Global,
        caller: u32,
        kind: AskKind,
        task: TaskNo,
        ops: &[Op],
        at: u64,
    ) -> Result<Taken, AskAtStop>
        ensures ask { (first : Start) (d : Ongoing) → StandsAs first d self.old.die
            → IsOngoingAskAt kind caller task ops.now at first d result self.old.die self.new.die }
        ensures plan { HaveOnePlan self.old.die self.new.die }
        ensures queues { self.new.queues ≡ self.old.queues }
    {
        self.die.ask_at_as(alloc, caller, kind, task, ops, at)
    }

    /// As [`slot`](OutcomeDie::slot), into a reply as [`new_reply`](slot_core::new_reply) makes it, so that no reply is moved.
    /// Where the slot is refused the reply is of no use any more.
    pub fn fill_slot(
        &mut self,
        alloc: Global,
        caller: u32,
        reply: &mut SlotReply,
    ) -> Result<(), SlotStop>
        requires unfilled { reply.old ≡ idle_reply 0 [] }
        ensures slot { (first : Start) (d : Ongoing) → StandsAs first d self.old.die
            → IsOngoingSlot N.ends N.failures N.never_fails caller first d (filled reply.new result) self.old.die self.new.die }
        ensures plan { HaveOnePlan self.old.die self.new.die }
        ensures told { OnOk result (HasTold caller self.old self.new) }
        ensures refused { OnErr result (self.new.queues ≡ self.old.queues) }
    {
        match self.die.fill_slot(alloc, caller, reply) {
            Ok(()) => {
                self.outcomes.note(self.die.die(), reply);
                Ok(())
            }
            Err(stop) => Err(stop),
        }
    }

    /// Carries out the present slot, as [`OngoingDie::slot`] does. The outcome of the job that is done with it is the last one that
    /// its task has to take; where there is no room for it the task's oldest go, and are counted. It takes no memory, and where
    /// the slot is refused no outcome comes or goes.
    pub fn slot(&mut self, alloc: Global, caller: u32) -> Result<SlotReply, SlotStop>
        ensures slot { (first : Start) (d : Ongoing) → StandsAs first d self.old.die
            → IsOngoingSlot N.ends N.failures N.never_fails caller first d result self.old.die self.new.die }
        ensures plan { HaveOnePlan self.old.die self.new.die }
        ensures told { OnOk result (HasTold caller self.old self.new) }
        ensures refused { OnErr result (self.new.queues ≡ self.old.queues) }
    {
        let mut reply = new_reply(alloc);
        match self.fill_slot(alloc, caller, &mut reply) {
            Ok(()) => Ok(reply),
            Err(stop) => Err(stop),
        }
    }

    /// Takes the first outcome of the task: that of the job which was done first of those that it has still to take, in whichever
    /// life; none where it has none. The die below stays as it is.
    ///
    /// The only refusal is for memory, that for what the job's reads gave: then the outcome stays the first. Of nothing no memory
    /// is taken.
    pub fn take_outcome(
        &mut self,
        alloc: Global,
        task: TaskNo,
    ) -> Result<Option<TaskOutcome>, AllocError>
        ensures die { self.new.die ≡ self.old.die }
        ensures ok { IfOk result (λ first. first_of self.old.queues task ≡ first) }
        ensures left { OnOk result (self.new.queues ≡ with_taken self.old.queues task) }
        ensures gave { OnErr result (IsSomeAnd (first_of self.old.queues task) (λ o. o.reads ≢ [])) }
        ensures refused { OnErr result (self.new.queues ≡ self.old.queues) }
    {
        self.outcomes.take(alloc, task)
    }

    /// How many outcomes the task has still to take.
    pub fn outcomes(&self, task: TaskNo) -> usize
        ensures { result ≡ length (queue_of self.now.queues task).kept }
    {
        self.outcomes.kept(task)
    }

    /// How many outcomes of the task were dropped, up to 2 to the power of 64, less 1: the oldest, as there was no room for a later
    /// one.
    pub fn dropped_outcomes(&self, task: TaskNo) -> u64
        ensures { result ≡ (queue_of self.now.queues task).dropped }
    {
        self.outcomes.dropped(task)
    }

    /// The die below: its questions change nothing.
    pub fn die(&self) -> &OngoingDie<N>
        ensures { result.now ≡ self.now.die }
    {
        &self.die
    }

    /// The die below. The outcomes that no task took are given up.
    pub fn into_die(self) -> OngoingDie<N>
        ensures { result ≡ self.die }
    {
        self.die
    }
}
