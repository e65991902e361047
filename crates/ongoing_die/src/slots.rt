//! Slots.

ghost use Rattle.std.specs.Prelude.{◌≡◌, []};
ghost use Rattle.die_log.specs.Model.Start.{Start};
ghost use Rattle.slot_core.specs.WithinSlot.{idle_reply};
ghost use Rattle.ongoing_log.specs.Ongoing.{Ongoing};
ghost use Rattle.ongoing_die.specs.Standing.{StandsAs};
ghost use Rattle.ongoing_die.specs.OngoingCalls.{filled, IsOngoingSlot, HaveOnePlan};

use crate::ongoing_die::OngoingDie;
use crate::refusals::SlotStop;
use flash_die::Nand;
use ongoing_log::a_die_goes_on_by_itself;
use slot_core::new_reply;
use slot_types::SlotReply;
use std::alloc::Global;

impl<N: Nand> OngoingDie<N> {
    /// As [`slot`](OngoingDie::slot), into a reply as [`new_reply`](slot_core::new_reply) makes it, so that no reply is moved.
    /// Where the slot is refused the reply is of no use any more.
    pub fn fill_slot(
        &mut self,
        alloc: Global,
        caller: u32,
        reply: &mut SlotReply,
    ) -> Result<(), SlotStop>
        requires unfilled { reply.old ≡ idle_reply 0 [] }
        ensures slot { (first : Start) (d : Ongoing) → StandsAs first d self.old
            → IsOngoingSlot N.ends N.failures N.never_fails caller first d (filled reply.new result) self.old self.new }
        ensures plan { HaveOnePlan self.old self.new }
    {
        match self.go_on(alloc) {
            Ok(()) => {}
            Err(stop) => return Err(SlotStop::Ended(stop)),
        }
        a_die_goes_on_by_itself();
        match self.die.fill_slot(alloc, caller, reply) {
            Ok(()) => {}
            Err(_) => return Err(SlotStop::DeviceFault),
        }
        Ok(())
    }

    /// Carries out the present slot, with the collections that the plan has in it, as
    /// [`PlannedDie::slot`](planned_die::PlannedDie::slot) does. What waits for the slot enters before. Where it ends a life,
    /// the first call after it begins the next one in the same slot of the clock. So what became of the life's jobs may be asked
    /// up to then.
    ///
    /// The refusals: `Ended`, where the whole die carries out none, as [`LifeStop`](crate::LifeStop) lists the causes, and
    /// nothing changes; `DeviceFault`, which stops the die, once the slot's collections have come. There is no other: it
    /// takes no memory.
    #[inline(always)]
    pub fn slot(&mut self, alloc: Global, caller: u32) -> Result<SlotReply, SlotStop>
        ensures slot { (first : Start) (d : Ongoing) → StandsAs first d self.old
            → IsOngoingSlot N.ends N.failures N.never_fails caller first d result self.old self.new }
        ensures plan { HaveOnePlan self.old self.new }
    {
        let mut reply = new_reply(alloc);
        match self.fill_slot(alloc, caller, &mut reply) {
            Ok(()) => Ok(reply),
            Err(stop) => Err(stop),
        }
    }
}
