//! A die as one worker has it, with its feed.

ghost use Rattle.std.specs.Prelude.{◌≡◌, ◌<◌, [], false, IsTrue, IfSome, IfNone};
ghost use Rattle.die_service.specs.Drives.{IsFirstState, NoneDue, end_at, first_state};
ghost use Rattle.die_service.specs.Work.{WorksOne, WorksDue, WorksSlot, WorksStop, WorksOff};

use crate::courses::Course;
use crate::ends::DieEnd;
use crate::refused::RefusedAt;
use crate::work::Work;
use slot_types::MAX_SLOT;
use std::marker::Model;

/// What a worker calls for a die, and what the die is still to be asked.
#[derive(Drop)]
pub(crate) struct Driver<W: Work> {
    pub(crate) work: W,
    pub(crate) course: Course,
    // How many slots were carried out.
    slots: u32,
    // Why a slot was refused.
    stop: Option<RefusedAt>,
}

impl<W: Work> Model for Driver<W> {
    ghost use Rattle.die_service.specs.Drives as drives;

    ghost Value = { drives.WorkerState W };

    ghost view = { λ d. record { work = d.work; course = d.course; slots = d.slots; stop = d.stop } };
}

impl<W: Work> Driver<W> {
    /// A die of which nothing was asked yet.
    pub(crate) fn new(work: W, course: Course) -> Driver<W>
        ensures { result ≡ first_state work course }
    {
        Driver {
            work,
            course,
            slots: 0,
            stop: None,
        }
    }

    /// What the worker called, and what came of it.
    pub(crate) fn into_end(self) -> (DieEnd, W)
        ensures end { result.0 ≡ end_at self }
        ensures work { result.1 ≡ self.work }
    {
        let Driver {
            work,
            course,
            slots,
            stop,
        } = self;
        let end = DieEnd {
            slots,
            refused: course.into_refused(),
            stop,
        };
        (end, work)
    }

    /// Asks for the next event, if it comes by this slot, and says whether it did.
    #[inline(always)]
    fn bring_one(&mut self, clock: u32) -> bool
        ensures brought { IsTrue result → WorksOne W.does clock self.old self.new }
        ensures none { result ≡ false → NoneDue clock self.old.course.rest × (self.new ≡ self.old) }
    {
        let Some(head) = self.course.next_due(clock) else {
            return false;
        };
        match self.work.event(head, &self.course.ops()) {
            Ok(_) => {}
            Err(refused) => self.course.note(refused),
        }
        true
    }

    /// Asks for the events that come by this slot.
    #[inline(always)]
    fn bring_due(&mut self, clock: u32)
        ensures { WorksDue W.does clock self.old self.new }
    {
        while self.bring_one(clock) {}
    }

    /// Asks for a slot, and answers its number if it was carried out.
    #[inline(always)]
    fn take_slot(&mut self) -> Option<u32>
        requires { self.old.slots < 4294967295 }
        ensures taken { IfSome result (λ slot. WorksSlot W.does self.old slot self.new) }
        ensures few { IfSome result (λ slot. slot < MAX_SLOT) }
        ensures stopped { IfNone result (WorksStop W.does self.old self.new) }
    {
        match self.work.slot() {
            Ok(note) => {
                self.slots = self.slots + 1;
                Some(note.slot())
            }
            Err(refused) => {
                self.stop = Some(refused);
                None
            }
        }
    }

    /// Asks for `slots` slots with the clock from `from` on, and before each for the events that come by it.
    pub(crate) fn run(&mut self, number: u32, from: u32, slots: u32)
        requires { IsFirstState self.old }
        ensures { WorksOff W.does number from slots self.old self.new }
    {
        let mut clock = from;
        for _done in 0..slots {
            self.bring_due(clock);
            self.work.before(number, clock);
            let Some(slot) = self.take_slot() else {
                return;
            };
            self.work.after(number, slot);
            clock = slot + 1;
        }
        self.bring_due(clock);
    }

    /// Forgets what came of it: as if nothing had been asked yet.
    pub(crate) fn forget(&mut self)
        ensures { self.new ≡ first_state self.old.work self.old.course }
    {
        self.slots = 0;
        self.stop = None;
    }

    /// Why a slot was refused, if one was.
    pub(crate) fn stop(&self) -> Option<RefusedAt>
        ensures { result ≡ self.now.stop }
    {
        self.stop
    }
}
