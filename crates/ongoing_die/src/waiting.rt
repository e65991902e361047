//! Asks that wait for the next life or for a slot that was asked for, for a job or for a burst, one a task.

ghost use Rattle.std.specs.Prelude.{◌≡◌, ◌≤◌, ◌<◌, ◌∷◌, List, [], ℕ, length, map, replicate, slice_index_or, slice_set, vec_capacity, is_some, option_map, None, Some, IfOk, IfSome, IfNone};
ghost use Rattle.ongoing_log.specs.Ongoing.{WaitingAsk, ops_of};
ghost use Rattle.ongoing_die.specs.Standing.{ask_in, HaveRoom};
ghost use Rattle.ongoing_die.specs.Resuming.{NoneWaits, IsFirstWaiting};
ghost use Rattle.ongoing_die.specs.declared.waiting.Waiting.{Waiting};

use crate::lengths::work_of;
use demand_rules::Terms;
use slot_types::Op;
use std::alloc::{AllocError, Global};

/// The ask of a task that waits, if one does, and memory for it.
#[derive(Drop)]
pub struct Waiting {
    pub(crate) waits: bool,
    pub(crate) caller: u32,
    /// The slot of the clock of all lives in which it enters.
    pub(crate) until: u64,
    pub(crate) ops: Vec<Op>,
}

impl Waiting {
    /// None waits, and there is memory for an ask of so many operations.
    fn new(alloc: Global, most: u32) -> Result<Waiting, AllocError>
        ensures none { IfOk result (λ w. ask_in w ≡ None) }
        ensures room { IfOk result (λ w. vec_capacity w.ops ≡ most) }
    {
        let ops = Vec::with_capacity(alloc, most as usize)?;
        Ok(Waiting {
            waits: false,
            caller: 0,
            until: 0,
            ops,
        })
    }

    /// The slot for which the ask waits; `end`, where that is no sooner, or none waits.
    fn release_before(&self, end: u64) -> u64
        ensures within { result ≤ end }
        ensures first { (w : WaitingAsk) → ask_in self.now ≡ Some w → result ≤ w.until }
    {
        if self.waits && self.until < end {
            self.until
        } else {
            end
        }
    }

    /// This ask waits from now on until slot `until`. It takes no memory.
    fn keep(&mut self, caller: u32, ops: &[Op], until: u64)
        requires room { length ops.now ≤ vec_capacity self.old.ops }
        ensures kept { ask_in self.new ≡ Some (record { caller = caller; ops = ops.now; until = until }) }
        ensures room { vec_capacity self.new.ops ≡ vec_capacity self.old.ops }
    {
        self.ops.clear();
        for op in ops {
            self.ops.push_reserved(*op);
        }
        self.caller = caller;
        self.until = until;
        self.waits = true;
    }
}

/// Of no task an ask waits, and there is memory for one of each.
pub(crate) fn none_waiting(alloc: Global, terms: &Terms) -> Result<Vec<Waiting>, AllocError>
    ensures none { IfOk result (λ waiting. map ask_in waiting.items ≡ replicate (length terms.now.tasks) None) }
    ensures room { IfOk result (λ waiting. HaveRoom terms.now waiting.items) }
{
    let mut waiting = Vec::with_capacity(alloc, terms.tasks.len())?;
    for task in 0..terms.tasks.len() {
        let none = Waiting::new(alloc, work_of(terms, task))?;
        waiting.push(none)?;
    }
    Ok(waiting)
}

/// Whether an ask of the task waits.
pub(crate) fn is_waiting(waiting: &Vec<Waiting>, task: usize) -> bool
    ensures { result ≡ is_some (slice_index_or (map ask_in waiting.now.items) task None) }
{
    match waiting.get(task) {
        Some(own) => own.waits,
        None => false,
    }
}

/// The operations of the task's ask that waits, if one does.
pub(crate) fn ops_waiting(waiting: &Vec<Waiting>, task: usize) -> Option<&[Op]>
    ensures { option_map (λ ops. ops.now) result ≡ ops_of (slice_index_or (map ask_in waiting.now.items) task None) }
{
    match waiting.get(task) {
        Some(own) if own.waits => Some(own.ops.as_slice()),
        _ => None,
    }
}

/// The ask of a task waits from now on until slot `until` of the clock. It takes no memory.
pub(crate) fn keep_waiting(
    waiting: &mut Vec<Waiting>,
    task: usize,
    caller: u32,
    ops: &[Op],
    until: u64,
)
    requires task { task < length waiting.old.items }
    requires room { (d : Waiting) → length ops.now ≤ vec_capacity (slice_index_or waiting.old.items task d).ops }
    ensures kept { map ask_in waiting.new.items
        ≡ slice_set (map ask_in waiting.old.items) task (Some (record { caller = caller; ops = ops.now; until = until })) }
    ensures room { (own : ℕ) (d : Waiting) → vec_capacity (slice_index_or waiting.new.items own d).ops
        ≡ vec_capacity (slice_index_or waiting.old.items own d).ops }
{
    waiting[task].keep(caller, ops, until)
}

/// The first slot of the clock before slot `end` for which something waits; `end`, where nothing does.
pub(crate) fn first_release(waiting: &Vec<Waiting>, end: u64) -> u64
    ensures within { result ≤ end }
    ensures first { (task : ℕ) (w : WaitingAsk)
        → slice_index_or (map ask_in waiting.now.items) task None ≡ Some w → result ≤ w.until }
{
    let mut first = end;
    for task in 0..waiting.len() {
        first = waiting[task].release_before(first);
    }
    first
}

/// The first task of which an ask waits, if there is one.
pub(crate) fn first_waiting(waiting: &Vec<Waiting>) -> Option<u32>
    requires few { length waiting.now.items ≤ 16 }
    ensures some { IfSome result (IsFirstWaiting (map ask_in waiting.now.items)) }
    ensures none { IfNone result (NoneWaits (map ask_in waiting.now.items)) }
{
    for task in 0..waiting.len() {
        if waiting[task].waits {
            return Some(task as u32);
        }
    }
    None
}
