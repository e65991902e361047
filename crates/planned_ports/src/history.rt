//! What was granted so far: a value without bytes, which only clauses read.

ghost use Rattle.std.specs.Prelude.{◌≡◌, List, [], ◌∷◌, ◌++◌};
ghost use Rattle.std.specs.Borrow.{ftrue};
ghost use Rattle.turn_lock.specs.Log.{entry};
ghost use Rattle.planned_ports.specs.Calls.{PortCall};

use crate::calls::{Granted, Refused, Request};
use ongoing_die::AskKind;
use slot_types::{Op, TaskNo};
use std::marker::Model;

/// The requests that were granted, from the first. It takes no memory, and is made by no instruction.
#[derive(Drop)]
pub(crate) struct History {
    pub(crate) ghost calls: { List PortCall },
}

impl Model for History {
    ghost also_owns = { λ _. ftrue };
}

// It owns nothing.
unsafe impl Send for History {}

impl History {
    /// Any calls: the caller picks them.
    fn at() -> History
        ghost calls: { List PortCall }
        ensures { result.calls ≡ calls }
    {
        History {}
    }

    /// Nothing was granted yet.
    pub(crate) fn new() -> History
        ensures { result.calls ≡ [] }
    {
        History::at()
    }

    /// With an ask more.
    pub(crate) fn with_ask(
        &self,
        caller: u32,
        kind: AskKind,
        task: TaskNo,
        ops: &[Op],
        answer: &Result<Granted, Refused>,
    ) -> History
        ensures { result.calls
            ≡ self.now.calls ++ entry caller (Request.Ask kind task ops.now) answer.now ∷ [] }
    {
        beside_ask(self, caller, kind, task, ops, answer)
    }

    /// With an ask for a slot of the clock more.
    pub(crate) fn with_ask_at(
        &self,
        caller: u32,
        kind: AskKind,
        task: TaskNo,
        ops: &[Op],
        at: u64,
        answer: &Result<Granted, Refused>,
    ) -> History
        ensures { result.calls
            ≡ self.now.calls ++ entry caller (Request.AskAt kind task ops.now at) answer.now ∷ [] }
    {
        beside_ask_at(self, caller, kind, task, ops, at, answer)
    }

    /// With a slot more.
    pub(crate) fn with_slot(&self, caller: u32, answer: &Result<Granted, Refused>) -> History
        ensures { result.calls ≡ self.now.calls ++ entry caller Request.Slot answer.now ∷ [] }
    {
        beside_slot(self, caller, answer)
    }

    /// With an outcome more that was taken.
    pub(crate) fn with_outcome(
        &self,
        caller: u32,
        task: TaskNo,
        answer: &Result<Granted, Refused>,
    ) -> History
        ensures { result.calls
            ≡ self.now.calls ++ entry caller (Request.Outcome task) answer.now ∷ [] }
    {
        beside_outcome(self, caller, task, answer)
    }
}

/// The calls that the caller picks by these.
fn beside_ask(
    _before: &History,
    _caller: u32,
    _kind: AskKind,
    _task: TaskNo,
    _ops: &[Op],
    _answer: &Result<Granted, Refused>,
) -> History
    ghost calls: { List PortCall }
    ensures { result.calls ≡ calls }
{
    History::at()
}

/// The calls that the caller picks by these.
fn beside_ask_at(
    _before: &History,
    _caller: u32,
    _kind: AskKind,
    _task: TaskNo,
    _ops: &[Op],
    _at: u64,
    _answer: &Result<Granted, Refused>,
) -> History
    ghost calls: { List PortCall }
    ensures { result.calls ≡ calls }
{
    History::at()
}

/// The calls that the caller picks by these.
fn beside_slot(_before: &History, _caller: u32, _answer: &Result<Granted, Refused>) -> History
    ghost calls: { List PortCall }
    ensures { result.calls ≡ calls }
{
    History::at()
}

/// The calls that the caller picks by these.
fn beside_outcome(
    _before: &History,
    _caller: u32,
    _task: TaskNo,
    _answer: &Result<Granted, Refused>,
) -> History
    ghost calls: { List PortCall }
    ensures { result.calls ≡ calls }
{
    History::at()
}
