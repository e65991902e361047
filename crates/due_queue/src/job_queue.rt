//! A queue of jobs.

ghost use Rattle.std.specs.Prelude.{◌≡◌, ◌+◌, ◌<◌, ◌≤◌, [], length, Contains, IsOk, OnOk, OnErr, OnSome, IfNone};
ghost use Rattle.slot_types.specs.Refusal.{FailsForMemory};
ghost use Rattle.due_queue.specs.Queue.{beyond, with_key, first_of, rest_of, IsRising};
ghost use Rattle.due_queue.specs.Keys.{released_by};

use crate::keys::{JobKey, Key, WaitKey};
use crate::pair_heap::PairHeap;
use slot_types::Refusal;
use std::alloc::Global;
use std::marker::{Model, PhantomData};

/// The released jobs that wait, the earliest deadline first.
pub type DueQueue = JobQueue<Key>;

/// The accepted jobs that are not released yet, the earliest release first.
pub type WaitList = JobQueue<WaitKey>;

/// A queue of keys, the first of their order first. Contracts see its keys in order, and how many more it has room for.
///
/// A key takes memory only in `reserve`, which makes room beforehand.
#[derive(Drop)]
pub struct JobQueue<K: JobKey> {
    pairs: PairHeap,
    keys: PhantomData<K>,
}

impl<K: JobKey> Model for JobQueue<K> {
    ghost use Rattle.std.specs.Prelude.{map};
    ghost use Rattle.due_queue.specs.Queue.{Queue};

    ghost Value = { Queue K };

    ghost view = { λ q. record { keys = map K.made q.pairs.keys; spare = q.pairs.spare } };
}

impl<K: JobKey> JobQueue<K> {
    /// A queue without keys, and without room for any. It takes no memory.
    pub fn new(alloc: Global) -> JobQueue<K>
        ensures { result ≡ record { keys = []; spare = 0 } }
    {
        JobQueue {
            pairs: PairHeap::new(alloc),
            keys: PhantomData,
        }
    }

    /// Makes room for at least `count` more keys, and never less than there was. Where there is that room already, this
    /// isn't refused. Refused with `NoMemory`, nothing changes.
    pub fn reserve(&mut self, count: usize) -> Result<(), Refusal>
        ensures ok { OnOk result (count ≤ self.new.spare) }
        ensures refused { FailsForMemory result }
        ensures spare { self.old.spare ≤ self.new.spare }
        ensures keys { self.new.keys ≡ self.old.keys }
        ensures succeeds { count ≤ self.old.spare → IsOk result }
        ensures err { OnErr result (self.new ≡ self.old) }
    {
        self.pairs.reserve(count)
    }

    /// Takes all keys away, each of which leaves room for one more. The queue keeps its memory.
    pub fn clear(&mut self)
        ensures keys { self.new.keys ≡ [] }
        ensures spare { self.new.spare ≡ self.old.spare + length self.old.keys }
    {
        self.pairs.clear();
    }

    /// Puts a key in its place, in room that was reserved. The key is not there yet.
    pub fn insert(&mut self, key: K)
        requires room { 0 < self.old.spare }
        requires absent { ¬ Contains self.old.keys key }
        ensures keys { self.new.keys ≡ with_key K.is_before key self.old.keys }
        ensures spare { self.new.spare + 1 ≡ self.old.spare }
    {
        self.pairs.insert(key.pair());
    }

    /// The first key: that with the earliest slot, of equal ones that with the smallest number.
    pub fn first(&self) -> Option<K>
        ensures first { result ≡ first_of self.now.keys }
        ensures rising { IsRising K.is_before self.now.keys }
    {
        match self.pairs.first() {
            Some((slot, number)) => Some(K::of(slot, number)),
            None => None,
        }
    }

    /// The first key after `count` others. It takes the time of `count` removals and insertions. The queue is as
    /// before.
    pub fn first_after(&mut self, count: usize) -> Option<K>
        ensures first { result ≡ first_of (beyond count self.old.keys) }
        ensures unchanged { self.new ≡ self.old }
    {
        match self.pairs.first_after(count) {
            Some((slot, number)) => Some(K::of(slot, number)),
            None => None,
        }
    }

    /// How many keys there are.
    pub fn len(&self) -> usize
        ensures len { result ≡ length self.now.keys }
        ensures rising { IsRising K.is_before self.now.keys }
    {
        self.pairs.len()
    }

    // Takes the first key away, if there is one, which leaves room for one more.
    fn take_first(&mut self) -> Option<K>
        ensures first { result ≡ first_of self.old.keys }
        ensures rest { self.new.keys ≡ rest_of self.old.keys }
        ensures spare { OnSome result (self.new.spare ≡ self.old.spare + 1) }
        ensures none { IfNone result (self.new ≡ self.old) }
    {
        match self.pairs.pop_first() {
            Some((slot, number)) => Some(K::of(slot, number)),
            None => None,
        }
    }
}

impl JobQueue<Key> {
    /// Takes the first key away, if there is one, which leaves room for one more.
    pub fn pop_first(&mut self) -> Option<Key>
        ensures first { result ≡ first_of self.old.keys }
        ensures rest { self.new.keys ≡ rest_of self.old.keys }
        ensures spare { OnSome result (self.new.spare ≡ self.old.spare + 1) }
        ensures none { IfNone result (self.new ≡ self.old) }
    {
        self.take_first()
    }
}

impl JobQueue<WaitKey> {
    /// Takes the first key away if its release is at most `now`, which leaves room for one more.
    pub fn pop_released(&mut self, now: u32) -> Option<WaitKey>
        ensures first { result ≡ released_by now (first_of self.old.keys) }
        ensures rest { OnSome result (self.new.keys ≡ rest_of self.old.keys) }
        ensures spare { OnSome result (self.new.spare ≡ self.old.spare + 1) }
        ensures none { IfNone result (self.new ≡ self.old) }
    {
        match self.first() {
            Some(key) if key.release <= now => self.take_first(),
            _ => None,
        }
    }
}
