//! What the sentences of several breaches have in common: each says which row it is, what the row has, and what it may have.

use crate::die_rows::Line;
use flashplan_slot_times::Slots;
use slot_types::{DiePlan, MAX_SLOT};
use std::io;
use std::io::Write;

/// A slot, or `count` of them, with the time where it is known how many us one takes.
pub fn slots_in(count: u32, slot_us: Option<u32>) -> Slots {
    Slots {
        count: u64::from(count),
        slot_us,
    }
}

/// The slot that comes `slots` slots after another one.
pub fn slot_after(slot: u32, slots: u32, slot_us: Option<u32>) -> Slots {
    Slots {
        count: u64::from(slot).saturating_add(u64::from(slots)),
        slot_us,
    }
}

/// Tells which row it is.
pub fn put_row(text: &mut Vec<u8>, die: u32, line: &Line, slot_us: Option<u32>) -> io::Result<()> {
    let (record, task) = (line.record, line.task);
    let at = slots_in(line.at, slot_us);
    write!(
        text,
        "die {die} record {record} slot {at} task {task} breaks its plan: "
    )
}

/// Tells which slot of a row isn't the one that it has to be.
pub fn put_number(
    text: &mut Vec<u8>,
    name: &str,
    is: Slots,
    has: Slots,
    why: &str,
) -> io::Result<()> {
    writeln!(text, "{name} is {is}, and has to be {has}, {why}")
}

/// Tells how many of something there are, and how many there may be.
pub fn put_count(text: &mut Vec<u8>, is: u64, what: &str, from: u32, to: u32) -> io::Result<()> {
    writeln!(text, "it has {is} {what}, and may have {from} to {to}")
}

/// Tells that the task isn't there.
pub fn put_task(text: &mut Vec<u8>, plan: &DiePlan) -> io::Result<()> {
    let last = plan.caps.len().saturating_sub(1);
    writeln!(text, "its tasks are numbered from 0 to {last}")
}

/// Tells the release of a row that comes in another slot.
pub fn put_release(text: &mut Vec<u8>, line: &Line, slot_us: Option<u32>) -> io::Result<()> {
    put_number(
        text,
        "release",
        slots_in(line.release, slot_us),
        slots_in(line.at, slot_us),
        "the slot before which it comes",
    )
}

/// Tells a deadline that is beyond the last one.
pub fn put_last_due(text: &mut Vec<u8>, due: Slots) -> io::Result<()> {
    let last = slots_in(MAX_SLOT, due.slot_us);
    writeln!(text, "due is {due}, and may be at most {last}")
}

/// Tells a release that is no multiple of the collect period.
pub fn put_multiple(
    text: &mut Vec<u8>,
    line: &Line,
    period: u32,
    slot_us: Option<u32>,
) -> io::Result<()> {
    let (release, period) = (slots_in(line.release, slot_us), slots_in(period, slot_us));
    writeln!(
        text,
        "release is {release}, and has to be a multiple of {period}, the collect period"
    )
}

/// Tells a release that is after the last slot.
pub fn put_end(
    text: &mut Vec<u8>,
    line: &Line,
    slots: u32,
    slot_us: Option<u32>,
) -> io::Result<()> {
    let (release, slots) = (slots_in(line.release, slot_us), slots_in(slots, slot_us));
    writeln!(
        text,
        "release is {release}, and has to be below {slots}, the number of slots"
    )
}

/// Tells that a run has more slots than it may.
pub fn put_many_slots(text: &mut Vec<u8>, slots: u32, slot_us: Option<u32>) -> io::Result<()> {
    let (slots, most) = (slots_in(slots, slot_us), slots_in(MAX_SLOT, slot_us));
    writeln!(text, "the run has {slots} slots, and may have {most}")
}

/// Tells a collection that doesn't come.
pub fn put_missing(
    text: &mut Vec<u8>,
    die: u32,
    task: u32,
    slot: u32,
    period: u32,
    slot_us: Option<u32>,
) -> io::Result<()> {
    let (slot, period) = (slots_in(slot, slot_us), slots_in(period, slot_us));
    writeln!(
        text,
        "die {die} slot {slot} task {task} breaks its plan: no collection comes, and one has to at each multiple of {period}"
    )
}

/// The second collection of a task in a slot.
pub fn second_of(lines: &[Line], task: u32, slot: u32) -> Option<Line> {
    let mut seen = false;
    for line in lines {
        if line.collects && line.task == task && line.at == slot {
            if seen {
                return Some(*line);
            }
            seen = true;
        }
    }
    None
}
