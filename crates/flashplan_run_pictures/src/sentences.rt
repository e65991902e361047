//! What is said of a run above its picture, and above its lines for a terminal.

use crate::pictures::{Scene, Worst};
use flashplan_run_figures::Quantity;
use flashplan_slot_times::Units;
use std::io;
use std::io::Write;

/// A noun, as it stands after a number.
fn noun(count: u32, one: &'static str, many: &'static str) -> &'static str {
    if count == 1 { one } else { many }
}

/// Names the die, and of how many it is one where there are several.
fn put_die(text: &mut Vec<u8>, scene: &Scene<'_>) -> io::Result<()> {
    write!(text, "Die {}", scene.die)?;
    if scene.dies > 1 {
        write!(text, " of {}", scene.dies)?;
    }
    Ok(())
}

/// Says in which slot a die failed, where it did, and where that lies before all that is shown.
fn put_failed(text: &mut Vec<u8>, scene: &Scene<'_>) -> io::Result<()> {
    let Some(slot) = scene.failed else {
        return Ok(());
    };
    let at = scene.units.slots(u64::from(slot));
    write!(text, "; it failed in slot {at}")?;
    if slot < scene.window.from {
        write!(text, ", before these")?;
    }
    Ok(())
}

/// Says which slots of which die are shown. The one in which it failed counts as one of its slots.
pub fn put_title(text: &mut Vec<u8>, scene: &Scene<'_>) -> io::Result<()> {
    let units = scene.units;
    let (from, to) = (
        units.slots(u64::from(scene.window.from)),
        units.slots(u64::from(scene.window.to)),
    );
    let count = scene
        .slots
        .saturating_add(u32::from(scene.failed.is_some()));
    let slots = units.slots(u64::from(count));
    put_die(text, scene)?;
    write!(text, ", slots {from} to {to} of {slots}")?;
    put_failed(text, scene)
}

/// Tells the counts of the whole run.
pub fn put_counts(text: &mut Vec<u8>, scene: &Scene<'_>) -> io::Result<()> {
    let (count, units) = (scene.slots, scene.units);
    let (slots, erased) = (units.slots(u64::from(count)), scene.counts.erased);
    let written = Quantity::pages(scene.counts.written, count, units);
    let copied = Quantity::pages(scene.counts.copied, count, units);
    let in_slots = noun(count, "slot", "slots");
    let pages = noun(scene.counts.written, "page", "pages");
    let blocks = noun(erased, "block", "blocks");
    write!(
        text,
        "In all {slots} {in_slots}: {written} {pages} written by jobs, {copied} copied by collections, {erased} {blocks} erased."
    )
}

/// Tells a worst one, and the busy interval of its certificate.
fn put_worst(text: &mut Vec<u8>, worst: &Worst, units: Units) -> io::Result<()> {
    let (kind, job, task) = (worst.whose.kind(), worst.whose.job, worst.whose.task);
    let start = units.slots(u64::from(worst.start));
    let due = units.slots(u64::from(worst.due));
    let completion = units.slots(u64::from(worst.completion));
    let lateness = Quantity::lateness(worst.lateness, units);
    write!(
        text,
        "Worst: {kind} {job} of task {task}, due {due}, completed {completion}, lateness {lateness}; from slot {start} on each \
         slot carried work due by {due}."
    )
}

/// Tells the worst one, if something is done.
pub fn put_worst_of(text: &mut Vec<u8>, scene: &Scene<'_>) -> io::Result<()> {
    match &scene.worst {
        Some(worst) => put_worst(text, worst, scene.units),
        None => write!(text, "Nothing is done."),
    }
}
