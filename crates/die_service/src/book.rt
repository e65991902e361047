//! A die as the book behind its lock.

ghost use Rattle.std.specs.Prelude.{◌≡◌, true, false};
ghost use Rattle.std.specs.Box.{box_value};

use crate::queries::{Answer, Query};
use crate::refused::RefusedAt;
use flash_die::Nand;
use log_start::LogStart;
use slot_core::{DieCore, EventHead, ReplyNote};
use slot_types::{Event, LentOps, Reply};
use std::alloc::Global;
use std::marker::Model;
use turn_lock::{Book, NotingBook};

/// A die and what it takes its memory from. Contracts see the die.
// The book is moved out of its slot and back at each turn, so the die itself lies in a box.
#[derive(Drop)]
pub struct DieBook<N: Nand> {
    pub(crate) core: Box<DieCore<N>>,
    alloc: Global,
}

impl<N: Nand> Model for DieBook<N> {
    ghost use Rattle.std.specs.Prelude.{◌≡◌, true, false};
    ghost use Rattle.std.specs.Box.{box_value};
    ghost use Rattle.slot_core.specs.Core.{Core};

    ghost Value = { Core N };

    ghost view = { λ b. box_value b.core };

    // A die whose device never fails is never stopped.
    ghost invariant = { λ b. N.never_fails ≡ true → (box_value b.core).stopped ≡ false };
}

impl<N: Nand> DieBook<N> {
    /// The book of a die that isn't stopped.
    pub(crate) fn new(alloc: Global, core: Box<DieCore<N>>) -> DieBook<N>
        requires runs { (box_value core).stopped ≡ false }
        ensures { result ≡ box_value core }
    {
        DieBook { core, alloc }
    }

    /// The die.
    pub(crate) fn into_core(self) -> DieCore<N>
        ensures die { result ≡ self }
        ensures runs { N.never_fails ≡ true → result.stopped ≡ false }
    {
        Box::into_inner(self.core)
    }
}

impl<N: Nand> Book for DieBook<N> {
    ghost use Rattle.std.specs.Prelude.{is_ok};
    ghost use Rattle.die_service.specs.Logs.{calls_of};
    ghost use Rattle.die_service.specs.Replies.{HasExactLog, MayReply};
    ghost use Rattle.die_service.specs.Answers.{MayAnswer};

    type Event = Event;

    type Reply = Result<Reply, RefusedAt>;

    type Query = Query;

    type Answer = Answer;

    type About = LogStart;

    ghost log = { λ die. calls_of die.log };

    ghost about = { λ die. die.start };

    ghost accepts = { is_ok };

    ghost gives = { λ start calls _ event reply. MayReply N.never_fails start calls event reply };

    ghost says = { MayAnswer };

    ghost fits = { HasExactLog };

    fn apply(&mut self, caller: u32, event: Event) -> Result<Reply, RefusedAt> {
        let entries = self.core.len();
        match self.core.perform(self.alloc, caller, event) {
            Ok(reply) => Ok(reply),
            Err(refusal) => Err(RefusedAt { entries, refusal }),
        }
    }

    fn ask(&self, query: Query) -> Answer {
        match query {
            Query::Outcome(job) => Answer::Outcome(self.core.outcome(self.alloc, job)),
            Query::Worst => Answer::Worst(self.core.worst()),
            Query::Certificate => Answer::Certificate(self.core.certificate(self.alloc)),
            Query::Now => Answer::Now(self.core.now()),
        }
    }

    fn len(&self) -> u64 {
        // It says that the plan meets its bound, and that the log is exact.
        self.core.promises();
        self.core.len()
    }
}

impl<'a, N: Nand> NotingBook<LentOps<'a>> for DieBook<N> {
    ghost use Rattle.die_service.specs.Replies.{result_of_note};
    ghost use Rattle.slot_core.specs.Events.{with_ops};

    type Note = Result<ReplyNote, RefusedAt>;

    type Head = EventHead;

    ghost noted = { result_of_note };

    ghost whole = { with_ops };

    #[inline(always)]
    fn note(
        &mut self,
        caller: u32,
        head: EventHead,
        ops: &LentOps<'a>,
    ) -> Result<ReplyNote, RefusedAt> {
        let before = self.core.len();
        match self.core.note(self.alloc, caller, head, ops) {
            Ok(note) => Ok(note),
            Err(refusal) => Err(RefusedAt {
                entries: before,
                refusal,
            }),
        }
    }
}
