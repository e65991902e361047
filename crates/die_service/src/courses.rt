//! A feed on its way to its die.

ghost use Rattle.std.specs.Prelude.{◌≡◌, ◌<◌, ◌++◌, ◌∷◌, ◌-◌, [], length, IfOk, IfSome, IfNone, OnErr, OnOk};
ghost use Rattle.slot_types.specs.Arrivals.{arrival_of};
ghost use Rattle.slot_types.specs.Refusal.{FailsForMemory};
ghost use Rattle.slot_core.specs.Events.{with_ops};
ghost use Rattle.die_service.specs.Runs.{AllArrive};
ghost use Rattle.die_service.specs.Drives.{Comes, NoneDue, whole_course};

use crate::ends::{RefusedEvent, RefusedList};
use crate::feeds::Feed;
use crate::refused::RefusedAt;
use slot_core::EventHead;
use slot_types::{JobHead, LentOps, Refusal};
use std::alloc::Global;
use std::marker::Model;

/// A feed, the events of which come one after the other, with room to note each that is refused. So no event takes
/// memory as it comes.
#[derive(Drop)]
pub(crate) struct Course {
    feed: Feed,
    // How many events came.
    place: usize,
    refused: Vec<RefusedEvent>,
}

impl Model for Course {
    ghost use Rattle.std.specs.Prelude.{◌≤◌, drop, length, vec_capacity};
    ghost use Rattle.die_service.specs.Feeds.{last_ops};
    ghost use Rattle.die_service.specs.Runs.{AllArrive};
    ghost use Rattle.die_service.specs.Drives as drives;

    ghost Value = { drives.Course };

    ghost view = { λ c. record {
      rest = drop c.place c.feed;
      place = c.place;
      ops = last_ops c.place c.feed;
      refused = c.refused.items;
    } };

    ghost invariant = { λ c.
        AllArrive c.feed × (length c.refused.items ≤ c.place) × (c.place ≤ length c.feed) × (length c.feed ≤ vec_capacity c.refused) };
}

impl Course {
    /// The whole of a feed. The only refusal is out of memory.
    pub(crate) fn new(alloc: Global, feed: Feed) -> Result<Course, Refusal>
        requires arrive { AllArrive feed }
        ensures whole { IfOk result (λ course. course ≡ whole_course feed) }
        ensures refused { FailsForMemory result }
    {
        let refused = Vec::with_capacity(alloc, feed.len())?;
        Ok(Course {
            feed,
            place: 0,
            refused,
        })
    }

    /// The course of no event. It takes no memory.
    pub(crate) fn empty(alloc: Global) -> Course
        ensures { result ≡ whole_course [] }
    {
        Course {
            feed: Feed::new(alloc),
            place: 0,
            refused: Vec::new(alloc),
        }
    }

    /// Adds an event at the end, a job of these operations, which are lent, or a collection. Refused with NoMemory, the
    /// course stays as it was.
    #[inline(always)]
    pub(crate) fn add(&mut self, at: u32, head: JobHead, ops: &LentOps) -> Result<(), Refusal>
        ensures ok { OnOk result (self.new ≡ record self.old {
          rest = self.old.rest ++ record { at = at; event = arrival_of head ops.now } ∷ [];
        }) }
        ensures refused { FailsForMemory result }
        ensures err { OnErr result (self.new ≡ self.old) }
    {
        let noted = self.refused.len();
        self.refused.reserve(self.feed.len() + 1 - noted)?;
        self.feed.push_lent(at, head, ops)
    }

    /// Goes on to the next event, if it comes by this slot. Its operations are then those of the course.
    #[inline(always)]
    pub(crate) fn next_due(&mut self, clock: u32) -> Option<EventHead>
        ensures due { IfSome result (λ head.
            Comes clock self.old (with_ops head self.new.ops) self.new) }
        ensures room { IfSome result (λ _. length self.new.refused < self.new.place) }
        ensures none { IfNone result (NoneDue clock self.old.rest) }
        ensures stays { IfNone result (self.new ≡ self.old) }
    {
        let place = self.place;
        if place >= self.feed.len() || self.feed.at(place) > clock {
            return None;
        }
        self.place = place + 1;
        Some(self.feed.head(place))
    }

    /// The operations of the event that came last, as they lie in the feed.
    pub(crate) fn ops(&self) -> LentOps<'_>
        ensures { result ≡ self.now.ops }
    {
        if self.place == 0 {
            return LentOps::none();
        }
        self.feed.ops(self.place - 1)
    }

    /// Notes that the event that came last was refused.
    pub(crate) fn note(&mut self, refused: RefusedAt)
        requires room { length self.old.refused < self.old.place }
        ensures rest { self.new.rest ≡ self.old.rest }
        ensures place { self.new.place ≡ self.old.place }
        ensures noted { self.new.refused ≡ self.old.refused
            ++ record { place = self.old.place - 1; refused = refused } ∷ [] }
    {
        self.refused.push_reserved(RefusedEvent {
            place: self.place - 1,
            refused,
        });
    }

    /// The events that were refused.
    pub(crate) fn refused(&self) -> &[RefusedEvent]
        ensures { result.now ≡ self.now.refused }
    {
        self.refused.as_slice()
    }

    /// Takes all events away. The memory stays.
    pub(crate) fn clear(&mut self)
        ensures { self.new ≡ whole_course [] }
    {
        self.feed.clear();
        self.refused.clear();
        self.place = 0;
    }

    /// The events that were refused.
    pub(crate) fn into_refused(self) -> RefusedList
        ensures { result ≡ self.refused }
    {
        RefusedList::from_vec(self.refused)
    }
}
