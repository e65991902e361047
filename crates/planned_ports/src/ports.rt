//! A die that its ports share. The condition of each call: the port is of this die.

ghost use Rattle.std.specs.Prelude.{◌≡◌, [], Some, None, IfOk, IfErr};
ghost use Rattle.planned_ports.specs.Pages.{foreign_page};
ghost use Rattle.planned_ports.specs.Unwrapping.{IsJob, IsSlot, IsOutcome, RefusesAsks, RefusesAsksAt, RefusesSlots, RefusesOutcomes, IsAskRefusal, IsAskAtRefusal, IsSlotRefusal, IsNoOutcome};
ghost use Rattle.turn_lock.specs.Views.{IsSamePass};
ghost use Rattle.planned_ports.specs.Ports.{AddsEntry, AddsNone, IsSamePort, IsSameClock, HasOwnAsks, HasOwnSlots, IsClock, IsAnswer, RefusesTask, RefusesTaskAt, RefusesClock, TellsOutcome, RefusesOutcome};

use crate::book::PlannedBook;
use crate::calls::{AskHead, Granted, Query, Refused, Request};
use crate::pages::{PageRange, first_foreign};
use crate::refusals::{AskAtRefused, AskRefused, OutcomeRefused, SlotRefused};
use flash_die::Nand;
use ongoing_die::{AskKind, Taken};
use slot_types::{Op, SlotReply, TaskNo};
use std::marker::Model;
use std::sync::Wait;
use task_outcomes::TaskOutcome;
use turn_lock::{Pass, Turned};

/// A die that one port at a time uses. Contracts see which lock it has.
#[derive(Drop)]
pub struct SharedPlannedDie<N: Nand> {
    pub(crate) turned: Turned<PlannedBook<N>>,
}

impl<N: Nand> Model for SharedPlannedDie<N> {
    ghost use Rattle.atomic_table.specs.Seated.{TableId};

    ghost Value = { TableId };

    ghost view = { λ d. d.turned };
}

impl<N: Nand> SharedPlannedDie<N> {
    /// Asks for a job or a burst of the task.
    fn ask_for<R: Wait>(
        &self,
        rt: &R,
        pass: &mut Pass<PlannedBook<N>>,
        kind: AskKind,
        task: TaskNo,
        ops: &[Op],
    ) -> Result<Granted, Refused>
        requires { pass.old.lock ≡ self.now }
        ensures same { IsSamePass pass.old pass.new }
        ensures added { IfOk result (λ answer.
            AddsEntry pass.old.view (Request.Ask kind task ops.now) answer pass.new.view) }
        ensures refused { IfErr result (λ refusal.
            AddsNone pass.old.view (Request.Ask kind task ops.now) refusal pass.new.view) }
    {
        self.turned.note(
            rt,
            pass,
            AskHead {
                kind,
                task,
                at: None,
            },
            &ops,
        )
    }

    /// Asks for a job or a burst of the task that is released in this slot of the clock.
    fn ask_at_for<R: Wait>(
        &self,
        rt: &R,
        pass: &mut Pass<PlannedBook<N>>,
        kind: AskKind,
        task: TaskNo,
        ops: &[Op],
        at: u64,
    ) -> Result<Granted, Refused>
        requires { pass.old.lock ≡ self.now }
        ensures same { IsSamePass pass.old pass.new }
        ensures added { IfOk result (λ answer.
            AddsEntry pass.old.view (Request.AskAt kind task ops.now at) answer pass.new.view) }
        ensures refused { IfErr result (λ refusal.
            AddsNone pass.old.view (Request.AskAt kind task ops.now at) refusal pass.new.view) }
    {
        self.turned.note(
            rt,
            pass,
            AskHead {
                kind,
                task,
                at: Some(at),
            },
            &ops,
        )
    }

    /// Carries the present slot out.
    fn carry_slot<R: Wait>(
        &self,
        rt: &R,
        pass: &mut Pass<PlannedBook<N>>,
    ) -> Result<Granted, Refused>
        requires { pass.old.lock ≡ self.now }
        ensures same { IsSamePass pass.old pass.new }
        ensures added { IfOk result (λ answer.
            AddsEntry pass.old.view Request.Slot answer pass.new.view) }
        ensures refused { IfErr result (λ refusal.
            AddsNone pass.old.view Request.Slot refusal pass.new.view) }
    {
        self.turned.apply(rt, pass, Request::Slot)
    }

    /// Takes the first outcome of the task.
    fn take_outcome<R: Wait>(
        &self,
        rt: &R,
        pass: &mut Pass<PlannedBook<N>>,
        task: TaskNo,
    ) -> Result<Granted, Refused>
        requires { pass.old.lock ≡ self.now }
        ensures same { IsSamePass pass.old pass.new }
        ensures added { IfOk result (λ answer.
            AddsEntry pass.old.view (Request.Outcome task) answer pass.new.view) }
        ensures refused { IfErr result (λ refusal.
            AddsNone pass.old.view (Request.Outcome task) refusal pass.new.view) }
    {
        self.turned.apply(rt, pass, Request::Outcome { task })
    }
}

/// A task's port: the only value that asks for jobs and bursts of this task and takes its outcomes, and it does so for no other
/// task. There is one for each task of the plan. It goes to any thread, and isn't copied.
#[derive(Drop)]
pub struct TaskPort<N: Nand> {
    pub(crate) pass: Pass<PlannedBook<N>>,
    pub(crate) task: TaskNo,
    pub(crate) pages: Option<PageRange>,
}

impl<N: Nand> Model for TaskPort<N> {
    ghost use Rattle.planned_ports.specs.Ports.{TaskParts, HasOwnAsks};

    ghost Value = { TaskParts N };

    ghost view = { λ p. record { lock = p.pass.lock; view = p.pass.view; task = p.task; pages = p.pages } };

    ghost invariant = { λ p. HasOwnAsks {N = N} (record {
      lock = p.pass.lock;
      view = p.pass.view;
      task = p.task;
      pages = p.pages;
    }) };
}

/// The clock's port: the only value that carries slots out. It goes to any thread, and isn't copied.
#[derive(Drop)]
pub struct ClockPort<N: Nand> {
    pub(crate) pass: Pass<PlannedBook<N>>,
}

impl<N: Nand> Model for ClockPort<N> {
    ghost use Rattle.planned_ports.specs.Ports.{ClockParts, HasOwnSlots};

    ghost Value = { ClockParts N };

    ghost view = { λ p. record { lock = p.pass.lock; view = p.pass.view } };

    ghost invariant = { λ p. HasOwnSlots {N = N} (record { lock = p.pass.lock; view = p.pass.view }) };
}

/// What an ask is answered.
fn job_of(granted: Granted) -> Taken
    requires { IsJob granted }
    ensures { granted ≡ Granted.Job result }
{
    match granted {
        Granted::Job(answer) => answer,
        _ => unreachable!(),
    }
}

/// What was done in a slot.
fn slot_of(granted: Granted) -> SlotReply
    requires { IsSlot granted }
    ensures { granted ≡ Granted.Slot result }
{
    match granted {
        Granted::Slot(reply) => reply,
        _ => unreachable!(),
    }
}

/// What became of a job.
fn outcome_of(granted: Granted) -> TaskOutcome
    requires { IsOutcome granted }
    ensures { granted ≡ Granted.Outcome result }
{
    match granted {
        Granted::Outcome(outcome) => outcome,
        _ => unreachable!(),
    }
}

/// Why an ask is refused behind the lock.
fn ask_refusal(refused: Refused) -> AskRefused
    requires { RefusesAsks refused }
    ensures { IsAskRefusal refused result }
{
    match refused {
        Refused::Ask(stop) => AskRefused::Die(stop),
        Refused::LockFull => AskRefused::LockFull,
        _ => unreachable!(),
    }
}

/// Why an ask for a slot of the clock is.
fn ask_at_refusal(refused: Refused) -> AskAtRefused
    requires { RefusesAsksAt refused }
    ensures { IsAskAtRefusal refused result }
{
    match refused {
        Refused::AskAt(stop) => AskAtRefused::Die(stop),
        Refused::LockFull => AskAtRefused::LockFull,
        _ => unreachable!(),
    }
}

/// Why a slot is.
fn slot_refusal(refused: Refused) -> SlotRefused
    requires { RefusesSlots refused }
    ensures { IsSlotRefusal refused result }
{
    match refused {
        Refused::Slot(stop) => SlotRefused::Die(stop),
        Refused::LockFull => SlotRefused::LockFull,
        _ => unreachable!(),
    }
}

/// What a task is answered that takes no outcome.
fn no_outcome(refused: Refused) -> Result<Option<TaskOutcome>, OutcomeRefused>
    requires { RefusesOutcomes refused }
    ensures { IsNoOutcome refused result }
{
    match refused {
        Refused::NoOutcome => Ok(None),
        Refused::NoMemory => Err(OutcomeRefused::NoMemory),
        Refused::LockFull => Err(OutcomeRefused::LockFull),
        _ => unreachable!(),
    }
}

impl<N: Nand> TaskPort<N> {
    /// Asks for a job of the port's task, as [`OngoingDie::ask`](ongoing_die::OngoingDie::ask) does: it is released in the
    /// slot that stands when the port has its turn. May wait for the turn, and for nothing else.
    ///
    /// The refusals, of which the first that stands is answered, and nothing changes: `ForeignPage`, where an operation is on
    /// a page that isn't the port's, with the first such page, before the turn is taken; `LockFull`, where 4,294,967,295
    /// requests were granted since the die was opened; `Die`, as the die lists the causes. It takes no memory.
    pub fn ask<R: Wait>(
        &mut self,
        rt: &R,
        die: &SharedPlannedDie<N>,
        ops: &[Op],
    ) -> Result<Taken, AskRefused>
        requires { self.old.lock ≡ die.now }
        ensures same { IsSamePort self.old self.new }
        ensures own { HasOwnAsks self.new }
        ensures granted { IfOk result (λ answer.
            AddsEntry self.old.view (Request.Ask AskKind.Job self.old.task ops.now) (Granted.Job answer) self.new.view) }
        ensures pages { IfOk result (λ _. foreign_page self.old.pages ops.now ≡ None) }
        ensures refused { IfErr result (λ refusal. RefusesTask AskKind.Job self.old ops.now refusal self.new) }
    {
        self.ask_as(rt, die, AskKind::Job, ops)
    }

    /// Asks for a burst of the port's task, as [`OngoingDie::ask_all`](ongoing_die::OngoingDie::ask_all) does: all its jobs
    /// are released in the slot that stands when the port has its turn, or all wait for the next life, or the whole burst
    /// is refused. May wait for the turn, and for nothing else.
    ///
    /// The refusals are those of [`ask`](TaskPort::ask), and nothing changes: `ForeignPage`, where one of its operations is
    /// on a page that isn't the port's; `LockFull`; `Die`, as the die lists the causes of a burst. It takes no memory.
    pub fn ask_all<R: Wait>(
        &mut self,
        rt: &R,
        die: &SharedPlannedDie<N>,
        ops: &[Op],
    ) -> Result<Taken, AskRefused>
        requires { self.old.lock ≡ die.now }
        ensures same { IsSamePort self.old self.new }
        ensures own { HasOwnAsks self.new }
        ensures granted { IfOk result (λ answer.
            AddsEntry self.old.view (Request.Ask AskKind.Burst self.old.task ops.now) (Granted.Job answer) self.new.view) }
        ensures pages { IfOk result (λ _. foreign_page self.old.pages ops.now ≡ None) }
        ensures refused { IfErr result (λ refusal. RefusesTask AskKind.Burst self.old ops.now refusal self.new) }
    {
        self.ask_as(rt, die, AskKind::Burst, ops)
    }

    /// Asks for a job or for a burst.
    fn ask_as<R: Wait>(
        &mut self,
        rt: &R,
        die: &SharedPlannedDie<N>,
        kind: AskKind,
        ops: &[Op],
    ) -> Result<Taken, AskRefused>
        requires { self.old.lock ≡ die.now }
        ensures same { IsSamePort self.old self.new }
        ensures own { HasOwnAsks self.new }
        ensures granted { IfOk result (λ answer.
            AddsEntry self.old.view (Request.Ask kind self.old.task ops.now) (Granted.Job answer) self.new.view) }
        ensures pages { IfOk result (λ _. foreign_page self.old.pages ops.now ≡ None) }
        ensures refused { IfErr result (λ refusal. RefusesTask kind self.old ops.now refusal self.new) }
    {
        match first_foreign(self.pages, ops) {
            Some(page) => return Err(AskRefused::ForeignPage { page }),
            None => {}
        }
        match die.ask_for(rt, &mut self.pass, kind, self.task, ops) {
            Ok(granted) => Ok(job_of(granted)),
            Err(refused) => Err(ask_refusal(refused)),
        }
    }

    /// Asks for a job of the port's task that is released in slot `at` of the clock of all lives, as
    /// [`OngoingDie::ask_at`](ongoing_die::OngoingDie::ask_at) does. Slot `at` is the one that stands when the port has its
    /// turn, or lies ahead of it by less than the task's period. Else than for the present slot the ask waits in the die, one
    /// of each task, and enters by itself. May wait for the turn, and for nothing else.
    ///
    /// The refusals, of which the first that stands is answered, and nothing changes: `ForeignPage` and `LockFull`, as of
    /// [`ask`](TaskPort::ask); `Die`, as the die lists the causes of such an ask. The slot may be over (`Past`) where others
    /// had their turn first. It takes no memory.
    pub fn ask_at<R: Wait>(
        &mut self,
        rt: &R,
        die: &SharedPlannedDie<N>,
        ops: &[Op],
        at: u64,
    ) -> Result<Taken, AskAtRefused>
        requires { self.old.lock ≡ die.now }
        ensures same { IsSamePort self.old self.new }
        ensures own { HasOwnAsks self.new }
        ensures granted { IfOk result (λ answer. AddsEntry self.old.view
            (Request.AskAt AskKind.Job self.old.task ops.now at) (Granted.Job answer) self.new.view) }
        ensures pages { IfOk result (λ _. foreign_page self.old.pages ops.now ≡ None) }
        ensures refused { IfErr result (λ refusal. RefusesTaskAt AskKind.Job self.old ops.now at refusal self.new) }
    {
        self.ask_at_as(rt, die, AskKind::Job, ops, at)
    }

    /// Asks for a burst of the port's task that is released in slot `at` of the clock of all lives, as
    /// [`OngoingDie::ask_all_at`](ongoing_die::OngoingDie::ask_all_at) does: all its jobs are released together, as the job
    /// of [`ask_at`](TaskPort::ask_at) is, or the whole burst is refused. May wait for the turn, and for nothing else.
    ///
    /// The refusals are those of [`ask_at`](TaskPort::ask_at), and nothing changes; but that `Die` has the causes of a burst.
    /// It takes no memory.
    pub fn ask_all_at<R: Wait>(
        &mut self,
        rt: &R,
        die: &SharedPlannedDie<N>,
        ops: &[Op],
        at: u64,
    ) -> Result<Taken, AskAtRefused>
        requires { self.old.lock ≡ die.now }
        ensures same { IsSamePort self.old self.new }
        ensures own { HasOwnAsks self.new }
        ensures granted { IfOk result (λ answer. AddsEntry self.old.view
            (Request.AskAt AskKind.Burst self.old.task ops.now at) (Granted.Job answer) self.new.view) }
        ensures pages { IfOk result (λ _. foreign_page self.old.pages ops.now ≡ None) }
        ensures refused { IfErr result (λ refusal. RefusesTaskAt AskKind.Burst self.old ops.now at refusal self.new) }
    {
        self.ask_at_as(rt, die, AskKind::Burst, ops, at)
    }

    /// Asks for a job or for a burst that is released in this slot of the clock.
    fn ask_at_as<R: Wait>(
        &mut self,
        rt: &R,
        die: &SharedPlannedDie<N>,
        kind: AskKind,
        ops: &[Op],
        at: u64,
    ) -> Result<Taken, AskAtRefused>
        requires { self.old.lock ≡ die.now }
        ensures same { IsSamePort self.old self.new }
        ensures own { HasOwnAsks self.new }
        ensures granted { IfOk result (λ answer. AddsEntry self.old.view
            (Request.AskAt kind self.old.task ops.now at) (Granted.Job answer) self.new.view) }
        ensures pages { IfOk result (λ _. foreign_page self.old.pages ops.now ≡ None) }
        ensures refused { IfErr result (λ refusal. RefusesTaskAt kind self.old ops.now at refusal self.new) }
    {
        match first_foreign(self.pages, ops) {
            Some(page) => return Err(AskAtRefused::ForeignPage { page }),
            None => {}
        }
        match die.ask_at_for(rt, &mut self.pass, kind, self.task, ops, at) {
            Ok(granted) => Ok(job_of(granted)),
            Err(refused) => Err(ask_at_refusal(refused)),
        }
    }

    /// Takes the first outcome of the port's task, as [`OutcomeDie::take_outcome`](task_outcomes::OutcomeDie::take_outcome) does:
    /// what became of the job which was done first of those whose outcome the task has still to take, in whichever life; none
    /// where it has none. May wait for the turn, and for nothing else.
    ///
    /// The refusals, and nothing changes: `LockFull`, where 4,294,967,295 requests were granted since the die was opened;
    /// `NoMemory`, where memory is refused for what the job's reads gave, and the outcome stays the first.
    pub fn take_outcome<R: Wait>(
        &mut self,
        rt: &R,
        die: &SharedPlannedDie<N>,
    ) -> Result<Option<TaskOutcome>, OutcomeRefused>
        requires { self.old.lock ≡ die.now }
        ensures same { IsSamePort self.old self.new }
        ensures own { HasOwnAsks self.new }
        ensures told { IfOk result (λ outcome. TellsOutcome self.old outcome self.new) }
        ensures refused { IfErr result (λ refusal. RefusesOutcome self.old refusal self.new) }
    {
        match die.take_outcome(rt, &mut self.pass, self.task) {
            Ok(granted) => Ok(Some(outcome_of(granted))),
            Err(refused) => no_outcome(refused),
        }
    }

    /// The answer to a question, which isn't known where there is none.
    fn question<R: Wait>(&mut self, rt: &R, die: &SharedPlannedDie<N>, query: Query) -> Option<u64>
        requires { self.old.lock ≡ die.now }
        ensures same { IsSamePort self.old self.new }
        ensures answer { IsAnswer query self.old.view self.new.view result }
    {
        // It says that no other pass has taken this one in.
        let _ = self.pass.number();
        die.turned.ask(rt, &mut self.pass, query)
    }

    /// How many outcomes the task has still to take. May wait for the turn.
    pub fn outcomes<R: Wait>(&mut self, rt: &R, die: &SharedPlannedDie<N>) -> u64
        requires { self.old.lock ≡ die.now }
        ensures same { IsSamePort self.old self.new }
        ensures outcomes { IsAnswer (Query.Outcomes self.old.task) self.old.view self.new.view (Some result) }
    {
        match self.question(rt, die, Query::Outcomes { task: self.task }) {
            Some(count) => count,
            None => unreachable!(),
        }
    }

    /// How many outcomes of the task were dropped, since there was no room for a later one, up to 2 to the power of 64, less 1.
    /// May wait for the turn.
    pub fn dropped_outcomes<R: Wait>(&mut self, rt: &R, die: &SharedPlannedDie<N>) -> u64
        requires { self.old.lock ≡ die.now }
        ensures same { IsSamePort self.old self.new }
        ensures dropped { IsAnswer (Query.Dropped self.old.task) self.old.view self.new.view (Some result) }
    {
        match self.question(rt, die, Query::Dropped { task: self.task }) {
            Some(count) => count,
            None => unreachable!(),
        }
    }

    /// The present slot of the clock of all lives; none once a fault of the device has stopped the die. May wait for the
    /// turn.
    pub fn clock<R: Wait>(&mut self, rt: &R, die: &SharedPlannedDie<N>) -> Option<u64>
        requires { self.old.lock ≡ die.now }
        ensures same { IsSamePort self.old self.new }
        ensures clock { IsClock self.old.view self.new.view result }
    {
        self.question(rt, die, Query::Clock)
    }

    /// The task that the port asks for.
    pub fn task(&self) -> TaskNo
        ensures task { result ≡ self.now.task }
        ensures own { HasOwnAsks self.now }
    {
        self.task
    }
}

impl<N: Nand> ClockPort<N> {
    /// Carries out the present slot, as [`OngoingDie::slot`](ongoing_die::OngoingDie::slot) does. May wait for the turn, and
    /// for no task.
    ///
    /// The refusals, and nothing changes but where the device fails: `LockFull`, where 4,294,967,295 requests were granted
    /// since the die was opened; `Die`, as the die lists the causes.
    pub fn slot<R: Wait>(
        &mut self,
        rt: &R,
        die: &SharedPlannedDie<N>,
    ) -> Result<SlotReply, SlotRefused>
        requires { self.old.lock ≡ die.now }
        ensures same { IsSameClock self.old self.new }
        ensures own { HasOwnSlots self.new }
        ensures granted { IfOk result (λ reply.
            AddsEntry self.old.view Request.Slot (Granted.Slot reply) self.new.view) }
        ensures refused { IfErr result (λ refusal. RefusesClock self.old refusal self.new) }
    {
        match die.carry_slot(rt, &mut self.pass) {
            Ok(granted) => Ok(slot_of(granted)),
            Err(refused) => Err(slot_refusal(refused)),
        }
    }

    /// The present slot of the clock of all lives; none once a fault of the device has stopped the die. May wait for the
    /// turn.
    pub fn clock<R: Wait>(&mut self, rt: &R, die: &SharedPlannedDie<N>) -> Option<u64>
        requires { self.old.lock ≡ die.now }
        ensures same { IsSameClock self.old self.new }
        ensures clock { IsClock self.old.view self.new.view result }
    {
        // It says that no other pass has taken this one in.
        let _ = self.pass.number();
        die.turned.ask(rt, &mut self.pass, Query::Clock)
    }
}
