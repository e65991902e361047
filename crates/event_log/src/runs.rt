//! A list in which equal neighbours are kept once, with their count.

ghost use Rattle.std.specs.Prelude.{◌≡◌, ◌+◌, ◌<◌, ◌≤◌, ◌∷◌, ◌++◌, ◌^◌, [], true, length, take, drop, IsOk, OnOk, OnErr, Some};
ghost use Rattle.slot_types.specs.Refusal.{FailsForMemory};
ghost use Rattle.event_log.specs.Spread.{spread, last_of, AreSome};
ghost use Rattle.event_log.specs.NoteRecords.{new_records};

use crate::items_from::ItemsFrom;
use slot_types::Refusal;
use std::alloc::Global;
use std::marker::Model;

/// One item, `count` times.
#[derive(Clone, Copy, Debug, Drop)]
pub(crate) struct Run<T> {
    pub(crate) item: T,
    pub(crate) count: u32,
}

/// A list that grows at its end. Contracts see its items one by one, for how many more there is room at least, for how
/// many there is memory where it is empty, in how many runs it keeps them, and how many items there were when it was
/// marked, 0 before that.
#[derive(Drop)]
pub struct Runs<T> {
    runs: Vec<Run<T>>,
    /// How many runs there were when it was marked.
    marked: usize,
}

impl<T> Model for Runs<T> {
    ghost use Rattle.std.specs.Prelude.{◌-◌, ◌≤◌, length, take, vec_len, vec_capacity};
    ghost use Rattle.event_log.specs.Spread.{Spread, spread, AreSome};

    ghost Value = { Spread T };

    ghost view = { λ r. record {
      items = spread r.runs.items;
      room = vec_capacity r.runs - vec_len r.runs;
      memory = vec_capacity r.runs;
      kept = vec_len r.runs;
      marked = length (spread (take r.marked r.runs.items));
    } };

    ghost invariant = { λ r. AreSome r.runs.items × (r.marked ≤ vec_len r.runs) };
}

impl<T> Runs<T> {
    /// A list with no item. It takes no memory.
    pub fn new(alloc: Global) -> Runs<T>
        ensures items { result.items ≡ [] }
        ensures memory { result.memory ≡ 0 }
        ensures kept { result.kept ≡ 0 }
        ensures marked { result.marked ≡ 0 }
    {
        Runs {
            runs: Vec::new(alloc),
            marked: 0,
        }
    }

    /// Makes room for at least `count` more items, and never less than there was. Where there is that room already,
    /// this isn't refused. Refused with `NoMemory`, nothing changes.
    pub fn reserve(&mut self, count: usize) -> Result<(), Refusal>
        ensures ok { OnOk result (count ≤ self.new.room) }
        ensures refused { FailsForMemory result }
        ensures items { self.new.items ≡ self.old.items }
        ensures kept { self.new.kept ≡ self.old.kept }
        ensures marked { self.new.marked ≡ self.old.marked }
        ensures room { self.old.room ≤ self.new.room }
        ensures memory { self.old.memory ≤ self.new.memory }
        ensures succeeds { count ≤ self.old.room → IsOk result }
        ensures err { OnErr result (self.new ≡ self.old) }
    {
        self.runs.reserve(count)?;
        Ok(())
    }
}

impl<T: Drop> Runs<T> {
    /// Takes all items and the mark away. The list keeps its memory, and all of it is room again.
    pub fn clear(&mut self)
        ensures items { self.new.items ≡ [] }
        ensures kept { self.new.kept ≡ 0 }
        ensures marked { self.new.marked ≡ 0 }
        ensures room { self.new.room ≡ self.old.memory }
        ensures memory { self.new.memory ≡ self.old.memory }
    {
        self.runs.clear();
        self.marked = 0;
    }
}

impl<T> Runs<T> {
    /// For how many more items there is room, however few of them are alike. It is never more than there is memory for.
    pub fn room(&self) -> usize
        ensures room { result ≡ self.now.room }
        ensures most { self.now.room ≤ self.now.memory }
    {
        self.runs.capacity() - self.runs.len()
    }

    /// How many runs there are.
    pub fn kept(&self) -> usize
        ensures { result ≡ self.now.kept }
    {
        self.runs.len()
    }

    /// Marks the list where it ends now. No later item may then be added to the run that is the last one now.
    pub fn mark(&mut self)
        ensures { self.new ≡ record self.old { marked = length self.old.items } }
    {
        self.marked = self.runs.len();
    }

    /// The runs before the mark, in order.
    pub(crate) fn before_mark(&self) -> &[Run<T>]
        ensures items { spread result.now ≡ take self.now.marked self.now.items }
        ensures some { AreSome result.now }
    {
        &self.runs.as_slice()[..self.marked]
    }

    /// The items from this place on, in order. It takes a step for each run before it.
    pub(crate) fn items_from(&self, place: u32) -> ItemsFrom<'_, T>
        ensures { result ≡ drop place self.now.items }
    {
        ItemsFrom::new(self.runs.as_slice(), place)
    }
}

impl<T: Copy> Runs<T> {
    /// The last item, if there is one.
    pub fn last(&self) -> Option<T>
        ensures { result ≡ last_of self.now.items }
    {
        let count = self.runs.len();
        if count == 0 {
            return None;
        }
        Some(self.runs[count - 1].item)
    }

    /// Adds an item in room that was made: to the last run, if it is said to be like it, else as a run of its own.
    pub fn push_reserved(&mut self, item: T, is_like_last: bool)
        requires room { 0 < self.old.room }
        requires few { length self.old.items + 1 < 2 ^ 32 }
        requires like { is_like_last ≡ true → last_of self.old.items ≡ Some item }
        requires unmarked { is_like_last ≡ true → self.old.marked < length self.old.items }
        ensures items { self.new.items ≡ self.old.items ++ item ∷ [] }
        ensures kept { self.new.kept ≡ new_records is_like_last + self.old.kept }
        ensures marked { self.new.marked ≡ self.old.marked }
        ensures room { self.old.room ≤ self.new.room + 1 }
        ensures room_stays { is_like_last ≡ true → self.new.room ≡ self.old.room }
        ensures memory { self.new.memory ≡ self.old.memory }
    {
        if is_like_last {
            let last = self.runs.len() - 1;
            self.runs[last].count += 1;
        } else {
            self.runs.push_reserved(Run { item, count: 1 });
        }
    }
}
