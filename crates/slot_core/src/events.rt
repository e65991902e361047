//! Events of a die: a job or a collection arrives, or a slot is carried out.

ghost use Rattle.slot_types.specs.Arrivals.{arrival_of};
ghost use Rattle.slot_core.specs.Calls.{IsCall, reply_as};
ghost use Rattle.slot_core.specs.Events.{with_ops, reply_of_note};

use crate::die_core::DieCore;
use crate::slot_note::SlotNote;
use flash_die::Nand;
use slot_types::{Event, JobHead, JobNo, LentOps, Refusal, Reply};
use std::alloc::Global;

/// An event without a job's operations, which lie next to it.
#[derive(Clone, Copy, PartialEq, Eq, Debug, Drop)]
pub enum EventHead {
    /// A job or a collection arrives.
    Arrive(JobHead),
    /// The present slot is carried out.
    Slot,
}

/// What is kept of the reply to an accepted event.
#[derive(Drop)]
pub enum ReplyNote {
    /// A job or a collection was accepted under this number.
    Taken(JobNo),
    /// A slot was carried out.
    Slot(SlotNote),
}

impl<N: Nand> DieCore<N> {
    /// Accepts a job of these operations, or a collection, which leaves them aside.
    #[inline(never)]
    fn arrive(
        &mut self,
        alloc: Global,
        caller: u32,
        head: JobHead,
        ops: &LentOps,
    ) -> Result<JobNo, Refusal>
        ensures { IsCall N.ends N.failures N.never_fails caller (arrival_of head ops.now)
            (reply_as Reply.Taken result) self.old
            self.new }
    {
        let JobHead {
            collects,
            task,
            release,
            due,
        } = head;
        if collects {
            self.collect(alloc, caller, task, release, due)
        } else {
            self.submit_ops(alloc, caller, task, release, due, ops)
        }
    }

    /// Carries out an event, and answers as [`DieCore::submit`], [`DieCore::collect`] or [`DieCore::slot`] does.
    pub fn perform(&mut self, alloc: Global, caller: u32, event: Event) -> Result<Reply, Refusal>
        ensures { IsCall N.ends N.failures N.never_fails caller event result self.old self.new }
    {
        let taken = match event {
            Event::Submit {
                task,
                release,
                due,
                ops,
            } => {
                let head = JobHead {
                    collects: false,
                    task,
                    release,
                    due,
                };
                self.arrive(alloc, caller, head, &LentOps::list(ops.as_slice()))
            }
            Event::Collect { task, release, due } => {
                let head = JobHead {
                    collects: true,
                    task,
                    release,
                    due,
                };
                self.arrive(alloc, caller, head, &LentOps::none())
            }
            Event::Slot => {
                return match self.slot(alloc, caller) {
                    Ok(reply) => Ok(Reply::Slot(reply)),
                    Err(refusal) => Err(refusal),
                };
            }
        };
        match taken {
            Ok(number) => Ok(Reply::Taken(number)),
            Err(refusal) => Err(refusal),
        }
    }

    /// As `perform`, of an event whose operations are lent, and hands back no more than a note of the reply.
    #[inline(always)]
    pub fn note(
        &mut self,
        alloc: Global,
        caller: u32,
        head: EventHead,
        ops: &LentOps,
    ) -> Result<ReplyNote, Refusal>
        ensures { IsCall N.ends N.failures N.never_fails caller (with_ops head ops.now)
            (reply_as reply_of_note result) self.old
            self.new }
    {
        match head {
            EventHead::Arrive(head) => match self.arrive(alloc, caller, head, ops) {
                Ok(number) => Ok(ReplyNote::Taken(number)),
                Err(refusal) => Err(refusal),
            },
            EventHead::Slot => match self.note_slot(alloc, caller) {
                Ok(slot) => Ok(ReplyNote::Slot(slot)),
                Err(refusal) => Err(refusal),
            },
        }
    }
}
