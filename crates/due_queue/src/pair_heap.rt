//! A heap of pairs of numbers, the least first, in memory reserved beforehand.

ghost use Rattle.std.specs.Prelude.{◌≡◌, ◌+◌, ◌-◌, ◌<◌, ◌≤◌, [], length, Contains, IsOk, OnOk, OnErr, OnSome, IfNone};
ghost use Rattle.slot_types.specs.Refusal.{FailsForMemory};
ghost use Rattle.due_queue.specs.Queue.{beyond, with_key, first_of, rest_of, IsRising};
ghost use Rattle.due_queue.specs.Pairs.{is_pair_before};

use slot_types::Refusal;
use std::alloc::Global;
use std::cmp::Reverse;
use std::collections::BinaryHeap;
use std::marker::Model;

/// Pairs seen in order, by the first number and where it is equal by the second, and how many more there is room for.
#[derive(Drop)]
pub struct PairHeap {
    heap: BinaryHeap<Reverse<(u32, u32)>>,
    spare: usize,
}

impl Model for PairHeap {
    ghost use Rattle.std.specs.Prelude.{ℕ};
    ghost use Rattle.std.specs.BinaryHeap.{heap_items, heap_len, heap_capacity};
    ghost use Rattle.due_queue.specs.Queue.{Queue};
    ghost use Rattle.due_queue.specs.Heaps.{pairs_in, IsSoundHeap};

    ghost Value = { Queue (ℕ × ℕ) };

    ghost view = { λ h. record { keys = pairs_in (heap_items h.heap); spare = h.spare } };

    ghost invariant = { λ h. IsSoundHeap (heap_items h.heap) (heap_len h.heap) (heap_capacity h.heap) h.spare };
}

impl PairHeap {
    pub fn new(alloc: Global) -> PairHeap
        ensures { result ≡ record { keys = []; spare = 0 } }
    {
        PairHeap {
            heap: BinaryHeap::new(alloc),
            spare: 0,
        }
    }

    pub fn reserve(&mut self, count: usize) -> Result<(), Refusal>
        ensures ok { OnOk result (count ≤ self.new.spare) }
        ensures refused { FailsForMemory result }
        ensures spare { self.old.spare ≤ self.new.spare }
        ensures keys { self.new.keys ≡ self.old.keys }
        ensures succeeds { count ≤ self.old.spare → IsOk result }
        ensures err { OnErr result (self.new ≡ self.old) }
    {
        if count <= self.spare {
            return Ok(());
        }
        self.heap.reserve(count)?;
        self.spare = count;
        Ok(())
    }

    pub fn clear(&mut self)
        ensures keys { self.new.keys ≡ [] }
        ensures spare { self.new.spare ≡ self.old.spare + length self.old.keys }
    {
        self.spare += self.heap.len();
        self.heap.clear();
    }

    pub fn insert(&mut self, pair: (u32, u32))
        requires room { 0 < self.old.spare }
        requires absent { ¬ Contains self.old.keys pair }
        ensures keys { self.new.keys ≡ with_key is_pair_before pair self.old.keys }
        ensures spare { self.new.spare + 1 ≡ self.old.spare }
    {
        match self.heap.push(Reverse(pair)) {
            Ok(()) => self.spare -= 1,
            // In reserved room a push takes no memory.
            Err(_) => unreachable!(),
        }
    }

    pub fn first(&self) -> Option<(u32, u32)>
        ensures first { result ≡ first_of self.now.keys }
        ensures rising { IsRising is_pair_before self.now.keys }
    {
        match self.heap.peek() {
            Some(least) => Some(least.0),
            None => None,
        }
    }

    pub fn pop_first(&mut self) -> Option<(u32, u32)>
        ensures first { result ≡ first_of self.old.keys }
        ensures rest { self.new.keys ≡ rest_of self.old.keys }
        ensures spare { OnSome result (self.new.spare ≡ self.old.spare + 1) }
        ensures none { IfNone result (self.new ≡ self.old) }
    {
        match self.heap.pop() {
            Some(Reverse(least)) => {
                self.spare += 1;
                Some(least)
            }
            None => None,
        }
    }

    /// The first pair after `count` others. The heap is as before, for which it gives up those others and takes them
    /// back.
    pub fn first_after(&mut self, count: usize) -> Option<(u32, u32)>
        ensures first { result ≡ first_of (beyond count self.old.keys) }
        ensures unchanged { self.new ≡ self.old }
    {
        let first = self.first();
        if count == 0 {
            return first;
        }
        match self.pop_first() {
            None => None,
            Some(pair) => {
                let found = self.first_after(count - 1);
                self.insert(pair);
                found
            }
        }
    }

    pub fn len(&self) -> usize
        ensures len { result ≡ length self.now.keys }
        ensures rising { IsRising is_pair_before self.now.keys }
    {
        self.heap.len()
    }
}
