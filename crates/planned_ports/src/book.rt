//! A die that goes on by itself as the book behind its lock.

ghost use Rattle.std.specs.Prelude.{◌≡◌, []};
ghost use Rattle.std.specs.Box.{box_value};
ghost use Rattle.planned_ports.specs.Calls.{calls_after};
ghost use Rattle.planned_ports.specs.Replies.{MayReply};
ghost use Rattle.planned_ports.specs.Heads.{whole_ask};
ghost use Rattle.planned_ports.specs.Shared.{IsSharedDie};

use crate::as_opened::AsOpened;
use crate::calls::{AskHead, Granted, Query, Refused, Request};
use crate::history::History;
use flash_die::Nand;
use ongoing_die::AskKind;
use slot_types::{Op, TaskNo};
use std::alloc::Global;
use std::marker::Model;
use task_outcomes::OutcomeDie;
use turn_lock::{Book, NotingBook};

/// The most entries that a lock takes.
const MOST: u64 = 4_294_967_295;

/// A die, what it takes its memory from, and how many requests were granted. Contracts see the die as it was and as it is,
/// and what was granted between.
// The book is moved out of its slot and back at each turn, so the die itself lies in a box.
#[derive(Drop)]
pub struct PlannedBook<N: Nand> {
    die: Box<OutcomeDie<N>>,
    alloc: Global,
    count: u64,
    opened: AsOpened<OutcomeDie<N>>,
    history: History,
}

impl<N: Nand> Model for PlannedBook<N> {
    ghost use Rattle.std.specs.Prelude.{◌≡◌, length};
    ghost use Rattle.std.specs.Box.{box_value};
    ghost use Rattle.planned_ports.specs.Shared.{SharedDie, IsSharedDie};

    ghost Value = { SharedDie N };

    ghost view = { λ b. record { opened = b.opened.value; calls = b.history.calls; die = box_value b.die } };

    ghost invariant = { λ b. (b.count ≡ length b.history.calls) × IsSharedDie {N = N} (record {
      opened = b.opened.value;
      calls = b.history.calls;
      die = box_value b.die;
    }) };
}

impl<N: Nand> PlannedBook<N> {
    /// The book of a die for which nothing was granted yet.
    pub(crate) fn new(alloc: Global, die: Box<OutcomeDie<N>>) -> PlannedBook<N>
        ensures opened { result.opened ≡ box_value die }
        ensures none { result.calls ≡ [] }
        ensures die { result.die ≡ box_value die }
    {
        die.die().goes_on();
        let opened = AsOpened::of(&*die);
        PlannedBook {
            die,
            alloc,
            count: 0,
            opened,
            history: History::new(),
        }
    }

    /// The die, which stands as what was granted says.
    pub(crate) fn into_die(self) -> OutcomeDie<N>
        ensures die { result ≡ self.die }
        ensures shared { IsSharedDie self }
    {
        Box::into_inner(self.die)
    }

    /// Asks for a job or a burst of the task.
    fn ask_for(
        &mut self,
        caller: u32,
        kind: AskKind,
        task: TaskNo,
        ops: &[Op],
    ) -> Result<Granted, Refused>
        ensures opened { self.new.opened ≡ self.old.opened }
        ensures replied { MayReply self.old.opened self.old.calls caller (Request.Ask kind task ops.now) result }
        ensures calls { self.new.calls
            ≡ calls_after self.old.calls caller (Request.Ask kind task ops.now) result }
    {
        if self.count >= MOST {
            return Err(Refused::LockFull);
        }
        match self.die.ask_as(self.alloc, caller, kind, task, ops) {
            Ok(taken) => {
                let answer = Ok(Granted::Job(taken));
                self.history = self.history.with_ask(caller, kind, task, ops, &answer);
                self.count += 1;
                answer
            }
            Err(stop) => Err(Refused::Ask(stop)),
        }
    }

    /// Asks for a job or a burst of the task that is released in this slot of the clock.
    fn ask_at_for(
        &mut self,
        caller: u32,
        kind: AskKind,
        task: TaskNo,
        ops: &[Op],
        at: u64,
    ) -> Result<Granted, Refused>
        ensures opened { self.new.opened ≡ self.old.opened }
        ensures replied { MayReply self.old.opened self.old.calls caller (Request.AskAt kind task ops.now at) result }
        ensures calls { self.new.calls
            ≡ calls_after self.old.calls caller (Request.AskAt kind task ops.now at) result }
    {
        if self.count >= MOST {
            return Err(Refused::LockFull);
        }
        match self.die.ask_at_as(self.alloc, caller, kind, task, ops, at) {
            Ok(taken) => {
                let answer = Ok(Granted::Job(taken));
                self.history = self
                    .history
                    .with_ask_at(caller, kind, task, ops, at, &answer);
                self.count += 1;
                answer
            }
            Err(stop) => Err(Refused::AskAt(stop)),
        }
    }

    /// An ask, as its head says.
    fn ask_by(&mut self, caller: u32, head: AskHead, ops: &[Op]) -> Result<Granted, Refused>
        ensures opened { self.new.opened ≡ self.old.opened }
        ensures replied { MayReply self.old.opened self.old.calls caller (whole_ask head ops.now) result }
        ensures calls { self.new.calls
            ≡ calls_after self.old.calls caller (whole_ask head ops.now) result }
    {
        match head.at {
            None => self.ask_for(caller, head.kind, head.task, ops),
            Some(at) => self.ask_at_for(caller, head.kind, head.task, ops, at),
        }
    }

    /// Carries the present slot out.
    fn carry_slot(&mut self, caller: u32) -> Result<Granted, Refused>
        ensures opened { self.new.opened ≡ self.old.opened }
        ensures replied { MayReply self.old.opened self.old.calls caller Request.Slot result }
        ensures calls { self.new.calls
            ≡ calls_after self.old.calls caller Request.Slot result }
    {
        if self.count >= MOST {
            return Err(Refused::LockFull);
        }
        match self.die.slot(self.alloc, caller) {
            Ok(reply) => {
                let answer = Ok(Granted::Slot(reply));
                self.history = self.history.with_slot(caller, &answer);
                self.count += 1;
                answer
            }
            Err(stop) => Err(Refused::Slot(stop)),
        }
    }

    /// Takes the first outcome of the task.
    fn take_outcome(&mut self, caller: u32, task: TaskNo) -> Result<Granted, Refused>
        ensures opened { self.new.opened ≡ self.old.opened }
        ensures replied { MayReply self.old.opened self.old.calls caller (Request.Outcome task) result }
        ensures calls { self.new.calls
            ≡ calls_after self.old.calls caller (Request.Outcome task) result }
    {
        if self.count >= MOST {
            return Err(Refused::LockFull);
        }
        match self.die.take_outcome(self.alloc, task) {
            Ok(Some(outcome)) => {
                let answer = Ok(Granted::Outcome(outcome));
                self.history = self.history.with_outcome(caller, task, &answer);
                self.count += 1;
                answer
            }
            Ok(None) => Err(Refused::NoOutcome),
            Err(_) => Err(Refused::NoMemory),
        }
    }
}

impl<N: Nand> Book for PlannedBook<N> {
    ghost use Rattle.std.specs.Prelude.{is_ok};
    ghost use Rattle.planned_ports.specs.Replies.{MayReply, IsSharedLog, Says};

    type Event = Request;

    type Reply = Result<Granted, Refused>;

    type Query = Query;

    type Answer = Option<u64>;

    type About = OutcomeDie<N>;

    ghost log = { λ shared. shared.calls };

    ghost about = { λ shared. shared.opened };

    ghost accepts = { is_ok };

    ghost gives = { MayReply };

    ghost says = { Says };

    ghost fits = { IsSharedLog };

    fn apply(&mut self, caller: u32, event: Request) -> Result<Granted, Refused> {
        match event {
            Request::Ask { kind, task, ops } => self.ask_for(caller, kind, task, ops.as_slice()),
            Request::AskAt {
                kind,
                task,
                ops,
                at,
            } => self.ask_at_for(caller, kind, task, ops.as_slice(), at),
            Request::Slot => self.carry_slot(caller),
            Request::Outcome { task } => self.take_outcome(caller, task),
        }
    }

    fn ask(&self, query: Query) -> Option<u64> {
        match query {
            Query::Clock => {
                if self.die.die().die().core().is_stopped() {
                    return None;
                }
                Some(self.die.die().clock())
            }
            Query::Outcomes { task } => Some(self.die.outcomes(task) as u64),
            Query::Dropped { task } => Some(self.die.dropped_outcomes(task)),
        }
    }

    fn len(&self) -> u64 {
        self.count
    }
}

/// An ask, whose operations are lent.
impl<'a, N: Nand> NotingBook<&'a [Op]> for PlannedBook<N> {
    ghost use Rattle.planned_ports.specs.Heads.{whole_ask};

    type Note = Result<Granted, Refused>;

    type Head = AskHead;

    ghost noted = { λ answer. answer };

    ghost whole = { λ head ops. whole_ask head ops.now };

    fn note(&mut self, caller: u32, head: AskHead, parts: &&'a [Op]) -> Result<Granted, Refused> {
        self.ask_by(caller, head, *parts)
    }
}
