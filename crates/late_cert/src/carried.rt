//! What the slots carried, kept in runs. Contracts see it as a list by slot.

ghost use Rattle.std.specs.Prelude.{◌≡◌, ◌+◌, ◌<◌, ◌≤◌, ◌∷◌, ◌++◌, ◌==◌, [], length, replicate, IsOk, OnOk, OnErr, slice_get, vec_len};
ghost use Rattle.std.specs.Prelude.{vec_capacity};
ghost use Rattle.slot_types.specs.Refusal.{FailsForMemory};
ghost use Rattle.late_cert.specs.Runs.{slots_of};

use slot_types::{JobNo, Refusal};
use std::alloc::Global;
use std::marker::Model;

/// Slots one after the other that carried the same: the job or collection that had them, or nothing.
#[derive(Clone, Copy, PartialEq, Eq, Debug, Drop)]
pub(crate) struct Run {
    pub(crate) number: Option<JobNo>,
    pub(crate) length: u32,
}

/// By slot from 0 the job or collection that had it, or nothing where the slot was idle.
///
/// Slots one after the other that carried the same take memory once.
#[derive(Debug, Drop)]
pub struct Carried {
    runs: Vec<Run>,
    /// How many slots the runs have.
    len: usize,
}

impl Model for Carried {
    ghost use Rattle.std.specs.Prelude.{◌≡◌, length};
    ghost use Rattle.late_cert.specs.Schedule.{Slots};
    ghost use Rattle.late_cert.specs.Runs.{slots_of};

    ghost Value = { Slots };

    ghost view = { λ carried. slots_of carried.runs.items };

    ghost invariant = { λ carried. carried.len ≡ length (slots_of carried.runs.items) };
}

impl Carried {
    /// No slot yet. It takes no memory.
    pub fn new(alloc: Global) -> Carried
        ensures { result ≡ [] }
    {
        Carried {
            runs: Vec::new(alloc),
            len: 0,
        }
    }

    /// Adds what the next slot carried. Without memory for it (`NoMemory`) nothing changes.
    pub fn push(&mut self, number: Option<JobNo>) -> Result<(), Refusal>
        ensures ok { OnOk result (self.new ≡ self.old ++ number ∷ []) }
        ensures refused { FailsForMemory result }
        ensures err { OnErr result (self.new ≡ self.old) }
    {
        self.push_run(number, 1)
    }

    /// Adds that each of the next `length` slots carried the same; none needs no memory. Without memory for it (`NoMemory`)
    /// nothing changes.
    /// Where the slot before carried the same too, they become one run.
    pub fn push_run(&mut self, number: Option<JobNo>, length: u32) -> Result<(), Refusal>
        ensures ok { OnOk result (self.new ≡ self.old ++ replicate length number) }
        ensures none { length ≡ 0 → IsOk result }
        ensures refused { FailsForMemory result }
        ensures err { OnErr result (self.new ≡ self.old) }
    {
        if length == 0 {
            return Ok(());
        }
        // More slots than a number can count.
        if length as usize > usize::MAX - self.len {
            return Err(Refusal::NoMemory);
        }
        self.runs.reserve(1)?;
        add_run(&mut self.runs, number, length);
        self.len += length as usize;
        Ok(())
    }

    /// How many slots there are.
    pub fn len(&self) -> usize
        ensures { result ≡ length self.now }
    {
        self.len
    }

    /// Whether there is no slot.
    pub fn is_empty(&self) -> bool
        ensures { result ≡ (length self.now == 0) }
    {
        self.len == 0
    }

    /// What a slot carried, if there is such a slot. It walks over the runs before it.
    pub fn get(&self, slot: usize) -> Option<Option<JobNo>>
        ensures { result ≡ slice_get self.now slot }
    {
        slot_in(self.runs.as_slice(), slot)
    }

    /// The runs, in order.
    pub(crate) fn runs(&self) -> &[Run]
        ensures { slots_of result.now ≡ self.now }
    {
        self.runs.as_slice()
    }
}

// Adds a run in room that was made: to the last run, where that carried the same and can be as long, else as its own.
fn add_run(runs: &mut Vec<Run>, number: Option<JobNo>, length: u32)
    requires { vec_len runs.old < vec_capacity runs.old }
    ensures slots { slots_of runs.new.items ≡ slots_of runs.old.items ++ replicate length number }
    ensures len { vec_len runs.new ≤ vec_len runs.old + 1 }
    ensures capacity { vec_capacity runs.new ≡ vec_capacity runs.old }
{
    let count = runs.len();
    if count > 0 && runs[count - 1].number == number {
        if let Some(longer) = runs[count - 1].length.checked_add(length) {
            runs[count - 1].length = longer;
            return;
        }
    }
    runs.push_reserved(Run { number, length });
}

// What a slot carried, if the runs reach it.
fn slot_in(runs: &[Run], slot: usize) -> Option<Option<JobNo>>
    ensures { result ≡ slice_get (slots_of runs.now) slot }
{
    let mut left = slot;
    for run in runs {
        let length = run.length as usize;
        if left < length {
            return Some(run.number);
        }
        left -= length;
    }
    None
}
