//! What a worker calls for one of its dies.

ghost use Rattle.std.specs.Prelude.{◌<◌, IfOk, IfErr, Ok, Err};
ghost use Rattle.slot_core.specs.Events.{with_ops, reply_of_note};
ghost use Rattle.die_service.specs.Runs.{asked_event};
ghost use Rattle.die_service.specs.Work.{Before, Asked, After};

use crate::refused::RefusedAt;
use slot_core::{EventHead, ReplyNote, SlotNote};
use slot_types::{Event, LentOps, MAX_SLOT, Reply};

/// What a worker calls for a die: the die, and the hook around each slot. Contracts say what each call makes of it; so
/// they name the worker's calls, in their order.
pub(crate) trait Work: Drop {
    ghost use Rattle.die_service.specs.Work.{WorkCall};

    // whether this call may turn one work into the other
    ghost does: { Self → WorkCall → Self → Type 0 };

    /// The hook before a slot of the die: the clock.
    fn before(&mut self, die: u32, slot: u32)
        ensures { does self.old (Before die slot) self.new };

    /// An event of a feed, asked of the die.
    fn event(&mut self, head: EventHead, ops: &LentOps) -> Result<ReplyNote, RefusedAt>
        ensures called { IfOk result (λ note. does self.old
            (Asked (asked_event (with_ops head ops.now) (Ok (reply_of_note note)))) self.new) }
        ensures called_refused { IfErr result (λ refused. does self.old
            (Asked (asked_event (with_ops head ops.now) (Err refused))) self.new) };

    /// The present slot, asked of the die.
    fn slot(&mut self) -> Result<SlotNote, RefusedAt>
        ensures called { IfOk result (λ reply. does self.old
            (Asked (asked_event Event.Slot (Ok (Reply.Slot reply)))) self.new) }
        ensures called_refused { IfErr result (λ refused. does self.old
            (Asked (asked_event Event.Slot (Err refused))) self.new) }
        ensures few { IfOk result (λ reply. reply.slot < MAX_SLOT) };

    /// The hook after a slot of the die was carried out: its number.
    fn after(&mut self, die: u32, slot: u32)
        ensures { does self.old (After die slot) self.new };
}
