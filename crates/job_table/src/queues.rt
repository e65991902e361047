//! Who waits for a release, and who is released, by deadline.

ghost use Rattle.std.specs.Prelude.{◌≡◌, ◌+◌, ◌<◌, ◌≤◌, ◌^◌, [], length, nat_lt, if◌then◌else◌, Contains, option_map, IsOk, OnOk};
ghost use Rattle.slot_types.specs.Refusal.{FailsForMemory};
ghost use Rattle.due_queue.specs.Queue.{beyond, with_key, first_of, rest_of, IsRising};
ghost use Rattle.due_queue.specs.Keys.{is_due_before, is_released_before};
ghost use Rattle.job_table.specs.QueuedKeys.{AreQueued, AreLater};

use crate::flat_jobs::FlatJobs;
use due_queue::{DueQueue, Key, WaitKey, WaitList};
use slot_types::{JobNo, Refusal};
use std::alloc::Global;
use std::marker::Model;

/// The keys of what waits and of what is released. Each key that waits has room among the released ones, so that a job
/// comes from one queue to the other without taking memory.
#[derive(Drop)]
pub(crate) struct Queues {
    waiting: WaitList,
    ready: DueQueue,
}

impl Model for Queues {
    ghost use Rattle.std.specs.Prelude.{◌+◌, ◌-◌, min, length};
    ghost use Rattle.job_table.specs.QueuedKeys.{Lines, IsRoomy};

    ghost Value = { Lines };

    ghost view = { λ q. record {
      waiting = q.waiting.keys;
      ready = q.ready.keys;
      room = min q.waiting.spare (q.ready.spare - length q.waiting.keys);
      memory = min (q.waiting.spare + length q.waiting.keys) (q.ready.spare + length q.ready.keys);
    } };

    ghost invariant = { λ q. IsRoomy q.waiting.keys q.ready.keys q.ready.spare };
}

impl Queues {
    /// Nobody waits. It takes no memory.
    pub(crate) fn new(alloc: Global) -> Queues
        ensures { result ≡ record { waiting = []; ready = []; room = 0; memory = 0 } }
    {
        Queues {
            waiting: WaitList::new(alloc),
            ready: DueQueue::new(alloc),
        }
    }

    /// Takes all keys away. The memory stays, and all of it is room again.
    pub(crate) fn clear(&mut self)
        ensures waiting { self.new.waiting ≡ [] }
        ensures ready { self.new.ready ≡ [] }
        ensures room { self.new.room ≡ self.old.memory }
        ensures memory { self.new.memory ≡ self.old.memory }
    {
        self.waiting.clear();
        self.ready.clear();
    }

    /// Makes room for `count` more jobs, and never less than there was. Where there is that room already, this isn't
    /// refused.
    pub(crate) fn reserve(&mut self, count: u32) -> Result<(), Refusal>
        requires { length self.old.waiting < 2 ^ 32 }
        ensures ok { OnOk result (count ≤ self.new.room) }
        ensures refused { FailsForMemory result }
        ensures succeeds { count ≤ self.old.room → IsOk result }
        ensures room { self.old.room ≤ self.new.room }
        ensures lasts { self.new.room ≤ self.new.memory }
        ensures memory { self.old.memory ≤ self.new.memory }
        ensures waiting { self.new.waiting ≡ self.old.waiting }
        ensures ready { self.new.ready ≡ self.old.ready }
    {
        let waiting = self.waiting.len();
        self.ready.reserve(waiting + count as usize)?;
        self.waiting.reserve(count as usize)
    }

    /// A job comes into the queue that its release puts it in.
    pub(crate) fn enter(&mut self, clock: u32, number: u32, release: u32, due: u32)
        requires room { 0 < self.old.room }
        requires not_waiting { ¬ Contains self.old.waiting
            (record { release = release; number = number }) }
        requires not_ready { ¬ Contains self.old.ready (record { due = due; number = number }) }
        ensures waiting { self.new.waiting
            ≡ (if nat_lt clock release then with_key is_released_before
            (record { release = release; number = number }) self.old.waiting
            else self.old.waiting) }
        ensures ready { self.new.ready
            ≡ (if nat_lt clock release then self.old.ready else with_key is_due_before
            (record { due = due; number = number }) self.old.ready) }
        ensures room { self.old.room ≤ self.new.room + 1 }
        ensures memory { self.new.memory ≡ self.old.memory }
    {
        if clock < release {
            self.wait(WaitKey { release, number });
        } else {
            self.stand(Key { due, number });
        }
    }

    /// A job waits for its release.
    fn wait(&mut self, key: WaitKey)
        requires room { 0 < self.old.room }
        requires absent { ¬ Contains self.old.waiting key }
        ensures waiting { self.new.waiting ≡ with_key is_released_before key self.old.waiting }
        ensures ready { self.new.ready ≡ self.old.ready }
        ensures taken { self.old.room ≤ self.new.room + 1 }
        ensures memory { self.new.memory ≡ self.old.memory }
    {
        self.waiting.insert(key);
    }

    /// A job is released.
    fn stand(&mut self, key: Key)
        requires room { 0 < self.old.room }
        requires absent { ¬ Contains self.old.ready key }
        ensures waiting { self.new.waiting ≡ self.old.waiting }
        ensures ready { self.new.ready ≡ with_key is_due_before key self.old.ready }
        ensures taken { self.old.room ≤ self.new.room + 1 }
        ensures memory { self.new.memory ≡ self.old.memory }
    {
        self.ready.insert(key);
    }

    /// Puts all that are released by `now` into the queue of those.
    pub(crate) fn release_by(&mut self, jobs: &FlatJobs, now: u32)
        requires { AreQueued jobs.now.jobs now self.old.waiting self.old.ready }
        ensures queued { AreQueued jobs.now.jobs now self.new.waiting self.new.ready }
        ensures later { AreLater now self.new.waiting }
        ensures fewer { length self.new.waiting ≤ length self.old.waiting }
        ensures room { self.old.room ≤ self.new.room }
        ensures memory { self.old.memory ≤ self.new.memory }
    {
        while let Some(key) = self.waiting.pop_released(now) {
            let number = key.number;
            let due = jobs.at(JobNo(number)).due();
            self.ready.insert(Key { due, number });
        }
    }

    /// The number of the first released job, if there is one.
    pub(crate) fn first(&self) -> Option<u32>
        ensures first { result ≡ option_map (λ k. k.number) (first_of self.now.ready) }
        ensures rising { IsRising is_due_before self.now.ready }
    {
        self.ready.first().map(|key| key.number)
    }

    /// The number of the first released job after `count` others, if there is one. Nothing changes.
    pub(crate) fn first_after(&mut self, count: usize) -> Option<u32>
        ensures first { result ≡ option_map (λ k.
            k.number) (first_of (beyond count self.old.ready)) }
        ensures unchanged { self.new ≡ self.old }
        ensures rising { IsRising is_due_before self.old.ready }
    {
        let _length = self.ready.len();
        self.ready.first_after(count).map(|key| key.number)
    }

    /// The number of the first job that waits for its release, if there is one.
    pub(crate) fn first_waiting(&self) -> Option<u32>
        ensures first { result ≡ option_map (λ k. k.number) (first_of self.now.waiting) }
        ensures rising { IsRising is_released_before self.now.waiting }
    {
        self.waiting.first().map(|key| key.number)
    }

    /// The first released job is over.
    pub(crate) fn drop_first(&mut self)
        ensures waiting { self.new.waiting ≡ self.old.waiting }
        ensures ready { self.new.ready ≡ rest_of self.old.ready }
        ensures room { self.old.room ≤ self.new.room }
        ensures memory { self.new.memory ≡ self.old.memory }
        ensures rising { IsRising is_due_before self.old.ready }
    {
        let _ = self.ready.pop_first();
    }
}
