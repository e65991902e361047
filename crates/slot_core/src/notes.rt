//! What is noted of a slot: in the table, and in the log.

ghost use Rattle.std.specs.Prelude.{◌≡◌, ◌+◌, ◌<◌, ◌≤◌, ◌∷◌, ◌++◌, ◌^◌, [], if◌then◌else◌, None, Some, true, false, length, ◌↔◌, IsTrue};
ghost use Rattle.job_table.specs.Order.{IsHead};
ghost use Rattle.job_table.specs.Table.{work_at, reads_next_at};
ghost use Rattle.job_table.specs.Worst.{IsWorst};
ghost use Rattle.event_log.specs.Slots.{carried_in};
ghost use Rattle.event_log.specs.NoteRecords.{stands_alone};
ghost use Rattle.slot_core.specs.HeadSteps.{is_read_act, table_after_step, deed_by};
ghost use Rattle.slot_core.specs.WithinSlot.{idle_reply};

use crate::head_step::HeadStep;
use event_log::{Deed, EventLog};
use job_table::JobTable;
use slot_types::{Act, JobNo, SlotReply, Waived, WaivedList};
use std::alloc::Global;

/// Notes a step of the head in the table, and says whether it is done now and the worst.
pub(crate) fn note_step(
    table: &mut JobTable,
    number: JobNo,
    turn: HeadStep,
    completion: u32,
) -> bool
    requires running { table.old.ended ≡ false }
    requires head { IsHead table.old number }
    requires room { work_at table.old.jobs number + 1 < 2 ^ 32 }
    requires reads { reads_next_at table.old.jobs number ≡ is_read_act turn.act }
    ensures table { table.new ≡ table_after_step table.old number turn completion }
    ensures worst { IsTrue result ↔ (IsTrue turn.last × IsWorst table.new.jobs number) }
{
    match turn.act {
        Act::Read { bytes, .. } => table.carry_read(number, bytes),
        _ => table.carry(number),
    }
    if turn.last {
        table.finish(number, completion, turn.given);
        table.is_worst(number)
    } else {
        false
    }
}

/// Adds a step of the head to the log, in room that was made, and marks the log there if its head is the worst now.
pub(crate) fn log_step(
    events: &mut EventLog,
    caller: u32,
    deed: Deed,
    waived: &[Waived],
    is_worst: bool,
)
    requires room { 0 < events.old.room }
    requires waiver_room { length waived.now ≤ events.old.waiver_room }
    requires few { length events.old.notes + 1 < 2 ^ 32 }
    requires alone { is_worst ≡ true → stands_alone deed ≡ true }
    ensures events { events.new.notes
        ≡ record { caller = caller; deed = deed; waived = waived.now } ∷ events.old.notes }
    ensures room { events.old.room ≡ events.new.room + 1 }
    ensures waiver_room { events.old.waiver_room ≡ events.new.waiver_room + length waived.now }
    ensures memory { events.new.memory ≡ events.old.memory }
    ensures waiver_memory { events.new.waiver_memory ≡ events.old.waiver_memory }
    ensures marked { events.new.marked
        ≡ (if is_worst then length (carried_in events.new.notes) else events.old.marked) }
{
    events.push_reserved(caller, deed, waived);
    if is_worst {
        events.mark();
    }
}

/// The number, if it is its last act.
pub(crate) fn finished(number: JobNo, last: bool) -> Option<JobNo>
    ensures { result ≡ (if last then Some number else None) }
{
    if last { Some(number) } else { None }
}

/// A reply to be filled by [`fill_slot`](crate::DieCore::fill_slot). It takes no memory.
pub fn new_reply(alloc: Global) -> SlotReply
    ensures { result ≡ idle_reply 0 [] }
{
    SlotReply {
        slot: 0,
        waived: WaivedList::new(alloc),
        ran: None,
        finished: None,
    }
}

/// What a step of this number's was, which did its operation at this place if it is a job.
pub(crate) fn deed_of(number: JobNo, place: u32, turn: HeadStep) -> Deed
    ensures { result ≡ deed_by number place turn.last turn.act }
{
    match turn.act {
        Act::Read { .. } | Act::Write { .. } | Act::Trim { .. } => {
            if turn.last {
                Deed::LastOperation { number, place }
            } else {
                Deed::Operation { number, place }
            }
        }
        Act::CopyRead { page } => Deed::CopyRead { number, page },
        Act::CopyProgram { page } => Deed::CopyProgram { number, page },
        Act::Erase { block } => {
            if turn.last {
                Deed::LastEraseSlot { number, block }
            } else {
                Deed::EraseSlot { number, block }
            }
        }
    }
}
