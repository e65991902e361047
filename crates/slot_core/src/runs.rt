//! Events carried out one after the other.

ghost use Rattle.std.specs.Prelude.{◌≡◌, [], length, IsOk, IfOk, OnErr};
ghost use Rattle.slot_types.specs.Refusal.{FailsForMemory};
ghost use Rattle.slot_types.specs.declared.plans.Times.{Times};
ghost use Rattle.die_log.specs.Results.Supply.{AreStocked};
ghost use Rattle.die_log.specs.Results.InTime.{IsInTime};
ghost use Rattle.slot_core.specs.Calls.{IsCall};
ghost use Rattle.slot_core.specs.Runs.{result_of, IsRun, HasGrown};
ghost use Rattle.slot_core.specs.AcceptedRuns.{IsPlanned, AreAcceptedUntilFault};

use crate::die_core::DieCore;
use flash_die::Nand;
use slot_types::{Event, Items, Refusal, Reply};
use std::alloc::Global;

/// The answers to events, in their order.
pub type Replies = Items<Reply>;

impl<N: Nand> DieCore<N> {
    /// Carries out one event for caller 0.
    fn apply(&mut self, alloc: Global, event: Event) -> Reply
        ensures { IsCall N.ends N.failures N.never_fails 0 event (result_of result) self.old
            self.new }
    {
        match self.perform(alloc, 0, event) {
            Ok(reply) => reply,
            Err(refusal) => Reply::Refused(refusal),
        }
    }

    // One reply an event, in memory that is taken first.
    fn answer_each(&mut self, alloc: Global, events: Items<Event>) -> Result<Replies, Refusal>
        ensures ran { IfOk result (λ replies.
            IsRun N.ends N.failures N.never_fails self.old events replies self.new) }
        ensures nothing { events ≡ [] → IsOk result }
        ensures refused { FailsForMemory result }
        ensures unchanged { OnErr result (self.new ≡ self.old) }
    {
        if events.is_empty() {
            return Ok(Replies::new(alloc));
        }
        let mut replies = match Vec::with_capacity(alloc, events.len()) {
            Ok(room) => room,
            Err(_) => return Err(Refusal::NoMemory),
        };
        for event in events.into_vec() {
            let reply = self.apply(alloc, event);
            replies.push_reserved(reply);
        }
        Ok(Items::from_vec(replies))
    }

    /// Carries out events in their order for caller 0, and answers one reply an event: that of [`DieCore::submit`],
    /// [`DieCore::collect`] or [`DieCore::slot`] at its place. A refused event doesn't end the run. The log grows by
    /// the accepted ones in their order; where it was empty, no other exact log of the plan has just these calls.
    ///
    /// Let a die without a call get events that keep to its plan, whose times pass their test, and let memory be
    /// refused to none of them. Then no event is refused until the device fails. And nothing is late, also where the
    /// device fails at the end: all that is due by then is done or was waived, and nothing is done after its deadline.
    ///
    /// The only refusal is `NoMemory`, where memory is refused for the replies; no event is carried out then. Without
    /// events no memory is taken.
    pub fn run(&mut self, alloc: Global, events: Items<Event>) -> Result<Replies, Refusal>
        ensures ran { IfOk result (λ replies.
            IsRun N.ends N.failures N.never_fails self.old events replies self.new) }
        ensures only { IfOk result (λ replies. HasGrown self.old events replies self.new) }
        ensures accepted { IfOk result (λ replies.
            (times : Times) → IsPlanned times self.old events replies
            → AreStocked self.old.start times → AreAcceptedUntilFault replies) }
        ensures in_time { IfOk result (λ replies.
            (times : Times) → IsPlanned times self.old events replies
            → IsInTime self.old.start.plan self.new.log) }
        ensures nothing { events ≡ [] → IsOk result }
        ensures refused { FailsForMemory result }
        ensures unchanged { OnErr result (self.new ≡ self.old) }
    {
        // What a die keeps is known where one of its fields is used.
        let _ = &self.volume;
        self.answer_each(alloc, events)
    }
}
