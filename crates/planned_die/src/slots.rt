//! Slots, with the collections that are due in them.

ghost use Rattle.std.specs.Prelude.{◌≡◌, []};
ghost use Rattle.die_log.specs.Model.Lives.{Lives};
ghost use Rattle.slot_core.specs.WithinSlot.{idle_reply};
ghost use Rattle.planned_die.specs.Planned.{HasLived};
ghost use Rattle.planned_die.specs.PlannedCalls.{IsSlot, told};

use crate::collections::enter_rest;
use crate::next_collections::still_quiet;
use crate::planned_die::PlannedDie;
use flash_die::Nand;
use slot_core::new_reply;
use slot_types::{Refusal, SlotReply};
use std::alloc::Global;

impl<N: Nand> PlannedDie<N> {
    /// As [`slot`](PlannedDie::slot), into a reply as [`new_reply`](slot_core::new_reply) makes it, so that no reply is moved.
    /// Where the slot is refused the reply is of no use any more.
    pub fn fill_slot(
        &mut self,
        alloc: Global,
        caller: u32,
        reply: &mut SlotReply,
    ) -> Result<(), Refusal>
        requires unfilled { reply.old ≡ idle_reply 0 [] }
        ensures slot { IsSlot N.ends N.failures N.never_fails caller (told reply.new result) self.old self.new }
        ensures lived { (earlier : Lives) → HasLived self.old earlier → HasLived self.new earlier }
    {
        if self.core.is_stopped() {
            return Err(Refusal::DieStopped);
        }
        let now = self.core.now();
        if now >= self.life {
            return Err(Refusal::ClockEnd);
        }
        enter_rest(
            &mut self.core,
            &self.terms,
            alloc,
            caller,
            self.life,
            self.quiet,
            &mut self.entered,
        );
        match self.core.fill_slot(caller, reply) {
            Ok(()) => {
                self.entered = 0;
                self.quiet = still_quiet(self.terms.tasks.as_slice(), self.quiet, now);
                Ok(())
            }
            Err(refusal) => Err(refusal),
        }
    }

    /// Enters the collections that the plan has in the present slot, and carries out the slot, as
    /// [`DieCore::slot`](slot_core::DieCore::slot) does.
    ///
    /// The refusals, in this order: `DieStopped`; `ClockEnd`, where the life has ended; these change nothing.
    /// `DeviceFault`, which stops the die, once the slot's collections have come. There is no other: it takes no memory.
    #[inline(always)]
    pub fn slot(&mut self, alloc: Global, caller: u32) -> Result<SlotReply, Refusal>
        ensures slot { IsSlot N.ends N.failures N.never_fails caller result self.old self.new }
        ensures lived { (earlier : Lives) → HasLived self.old earlier → HasLived self.new earlier }
    {
        let mut reply = new_reply(alloc);
        match self.fill_slot(alloc, caller, &mut reply) {
            Ok(()) => Ok(reply),
            Err(refusal) => Err(refusal),
        }
    }
}
