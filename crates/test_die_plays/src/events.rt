//! Events of a die, by the lines that ask for them.

use crate::fields::{Fields, UNREAD};
use slot_types::{Event, Items, Refusal, TaskNo};
use std::alloc::Global;

/// The event of a line: a job (task, release, due, operations), one of several equal ones, a collection (task, release,
/// due) or a slot.
pub(crate) fn event_in(alloc: Global, fields: &Fields) -> Result<Event, Refusal> {
    if fields.name == "slot" {
        return Ok(Event::Slot);
    }
    let task = TaskNo(fields.number(0)?);
    let (release, due) = (fields.number(1)?, fields.number(2)?);
    match fields.name {
        "job" | "jobs" => Ok(Event::Submit {
            task,
            release,
            due,
            ops: fields.ops(alloc, 3)?,
        }),
        "collect" => Ok(Event::Collect { task, release, due }),
        _ => Err(UNREAD),
    }
}

fn note_slots(events: &mut Items<Event>, slots: u32) -> Result<(), Refusal> {
    for _ in 0..slots {
        events.push(Event::Slot)?;
    }
    Ok(())
}

/// Adds the events that a line asks for. Most lines ask for none.
pub(crate) fn note(
    events: &mut Items<Event>,
    alloc: Global,
    fields: &Fields,
) -> Result<(), Refusal> {
    match fields.name {
        "job" | "collect" | "slot" => {
            let event = event_in(alloc, fields)?;
            events.push(event)?;
            Ok(())
        }
        "slots" | "pass" => note_slots(events, fields.number(0)?),
        _ => Ok(()),
    }
}
