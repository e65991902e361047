//! What a task asked for, as far as it may still count.
//!
//! The sums of what counts are kept, and what counts no more stands in front. So whether there is room is known at once,
//! and a job is looked at once more when it counts no more.

ghost use Rattle.std.specs.Prelude.{◌≡◌, ◌+◌, ◌≤◌, ◌&&◌, nat_le, ◌∷◌, ◌++◌, ℕ, true, [], if◌then◌else◌, drop, All, IfNone, IfOk};
ghost use Rattle.std.specs.VecDeque.{deque_capacity};
ghost use Rattle.planned_log.specs.Asks.{free_at};
ghost use Rattle.planned_die.specs.Remembered.{amount_of, newest_first, next_room, AllCount, IsKeptFor, HasRoomFor, HasRoomForOne};

use crate::memory::AskedJob;
use demand_rules::TaskTerms;
use std::alloc::{AllocError, Global};
use std::collections::VecDeque;

/// The jobs that a task asked for.
#[derive(Drop)]
pub struct TaskAsks {
    /// The oldest first. Those that count no more go when one is added, so that there is room for all that may count.
    pub(crate) jobs: VecDeque<AskedJob>,
    /// How many of them, the oldest, are known to count no more.
    pub(crate) passed: usize,
    /// How many operations the others have.
    pub(crate) operations: u32,
    /// And how many writes.
    pub(crate) writes: u32,
}

fn amount(job: &AskedJob, of_writes: bool) -> u32
    ensures { result ≡ if of_writes then job.now.writes else job.now.operations }
{
    if of_writes {
        job.writes
    } else {
        job.operations
    }
}

impl TaskAsks {
    /// Nothing asked for, and memory for the jobs of a task that may ask for `work` operations in a period.
    pub(crate) fn new(alloc: Global, work: u32) -> Result<TaskAsks, AllocError>
        ensures jobs { IfOk result (λ t. t.jobs.items ≡ []) }
        ensures passed { IfOk result (λ t. t.passed ≡ 0) }
        ensures operations { IfOk result (λ t. t.operations ≡ 0) }
        ensures writes { IfOk result (λ t. t.writes ≡ 0) }
        ensures memory { IfOk result (λ t. work ≤ deque_capacity t.jobs) }
    {
        let jobs = VecDeque::with_capacity(alloc, work as usize)?;
        Ok(TaskAsks {
            jobs,
            passed: 0,
            operations: 0,
            writes: 0,
        })
    }

    /// Passes by the jobs that count no more in this slot of the clock: by each once.
    pub(crate) fn pass(&mut self, period: u32, clock: u64)
        requires kept { IsKeptFor period clock self.old }
        ensures jobs { self.new.jobs.items ≡ self.old.jobs.items }
        ensures list { self.new.jobs ≡ self.old.jobs }
        ensures fewer { self.new.operations ≤ self.old.operations }
        ensures kept { IsKeptFor period clock self.new }
        ensures counts { AllCount period clock (drop self.new.passed self.new.jobs.items) }
    {
        while self.passed < self.jobs.len() {
            let oldest = self.jobs[self.passed];
            if u128::from(clock) < u128::from(oldest.at) + u128::from(period) {
                return;
            }
            self.operations -= oldest.operations;
            self.writes -= oldest.writes;
            self.passed += 1;
        }
    }

    fn total(&self, of_writes: bool) -> u32
        ensures { result ≡ if of_writes then self.now.writes else self.now.operations }
    {
        if of_writes {
            self.writes
        } else {
            self.operations
        }
    }

    /// The first slot of the clock in which what counts leaves room below the limit for `more` more; 0 where it leaves
    /// it now. It goes over the oldest jobs that count, up to the one that has to count no more.
    pub(crate) fn free_slot(
        &self,
        period: u32,
        clock: u64,
        limit: u32,
        more: u32,
        of_writes: bool,
    ) -> u64
        requires kept { IsKeptFor period clock self.now }
        requires early { All (λ j. j.at ≤ 4611686018427387904) self.now.jobs.items }
        ensures { result ≡ free_at (amount_of of_writes) limit period
            (newest_first (drop self.now.passed self.now.jobs.items)) more }
    {
        let mut left = u64::from(self.total(of_writes)) + u64::from(more);
        let mut place = self.passed;
        let mut slot = 0;
        while left > u64::from(limit) && place < self.jobs.len() {
            let oldest = self.jobs[place];
            left -= u64::from(amount(&oldest, of_writes));
            slot = oldest.at + u64::from(period);
            place += 1;
        }
        slot
    }

    /// Whether with what wasn't passed by there is room for `ops` operations and `writes` writes more.
    fn has_room(&self, own: &TaskTerms, ops: u32, writes: u32) -> bool
        ensures room { result ≡ (nat_le (self.now.operations + ops) own.now.work
            && nat_le (self.now.writes + writes) own.now.writes) }
        ensures fits { result ≡ true → HasRoomFor self.now ops writes }
        ensures few { result ≡ true → self.now.operations + ops ≤ own.now.work }
    {
        u64::from(self.operations) + u64::from(ops) <= u64::from(own.work)
            && u64::from(self.writes) + u64::from(writes) <= u64::from(own.writes)
    }

    /// The first slot in which the task has room for a job, counted from slot `first` of the clock, if it has none in slot
    /// `clock`.
    pub(crate) fn next_room(
        &self,
        own: &TaskTerms,
        first: u64,
        clock: u64,
        ops: u32,
        writes: u32,
    ) -> Option<u64>
        requires kept { IsKeptFor own.now.period clock self.now }
        requires counts { AllCount own.now.period clock (drop self.now.passed self.now.jobs.items) }
        requires early { All (λ j. j.at ≤ 4611686018427387904) self.now.jobs.items }
        requires ops { ops ≤ own.now.work }
        requires writes { writes ≤ own.now.writes }
        requires first { first ≤ clock }
        ensures next { result ≡ next_room own.now first clock (newest_first self.now.jobs.items) ops writes }
        ensures room { IfNone result (HasRoomFor self.now ops writes) }
        ensures few { IfNone result (self.now.operations + ops ≤ own.now.work) }
    {
        if self.has_room(own, ops, writes) {
            return None;
        }
        let operations = self.free_slot(own.period, clock, own.work, ops, false);
        let written = self.free_slot(own.period, clock, own.writes, writes, true);
        Some(operations.max(written) - first)
    }

    /// Notes a job that comes now, and drops those that count no more. It takes no memory.
    pub(crate) fn note(&mut self, job: AskedJob)
        requires room { HasRoomForOne self.old }
        requires operations { self.old.operations + job.operations ≤ 4294967295 }
        requires writes { self.old.writes + job.writes ≤ 4294967295 }
        ensures jobs { self.new.jobs.items ≡ drop self.old.passed self.old.jobs.items ++ job ∷ [] }
        ensures kept { (period : ℕ) → IsKeptFor period job.at self.old → IsKeptFor period job.at self.new }
        ensures operations { self.new.operations ≡ self.old.operations + job.operations }
        ensures memory { deque_capacity self.new.jobs ≡ deque_capacity self.old.jobs }
    {
        while self.passed > 0 {
            let _ = self.jobs.pop_front();
            self.passed -= 1;
        }
        self.jobs.push_back_reserved(job);
        self.operations += job.operations;
        self.writes += job.writes;
    }
}
