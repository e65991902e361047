//! What the slots carried, and the waivers.

use crate::briefs::Kind;
use crate::kinds::{class_of, words_of};
use crate::layouts::{Layout, Spot};
use crate::pictures::Scene;
use crate::windows::Carried;
use flashplan_slot_times::Units;
use std::alloc::Global;
use std::io;
use std::io::Write;

/// Below which numbers a cell is wide enough for: six pixels a digit.
fn numbers_in(cell: u32) -> u32 {
    if cell < 20 {
        0
    } else if cell < 40 {
        1_000
    } else {
        1_000_000
    }
}

/// Draws the number of a cell's page or block, where it is wide enough.
fn put_number(text: &mut Vec<u8>, carried: &Carried, spot: Spot, cell: u32) -> io::Result<()> {
    let of = carried.brief.of;
    if of >= numbers_in(cell) {
        return Ok(());
    }
    let x = spot.x.saturating_add(u64::from(cell / 2));
    let y = spot.y.saturating_add(12);
    match carried.brief.kind {
        Kind::Write | Kind::Trim | Kind::Erase => {
            writeln!(text, "<text class=\"p w\" x=\"{x}\" y=\"{y}\">{of}</text>")
        }
        _ => writeln!(text, "<text class=\"p\" x=\"{x}\" y=\"{y}\">{of}</text>"),
    }
}

/// Draws what a slot carried.
fn put_cell(
    text: &mut Vec<u8>,
    carried: &Carried,
    spot: Spot,
    cell: u32,
    units: Units,
) -> io::Result<()> {
    let (x, y, width) = (spot.x, spot.y.saturating_add(3), cell.saturating_sub(1));
    let (class, words, of) = (
        class_of(carried.brief.kind),
        words_of(carried.brief.kind),
        carried.brief.of,
    );
    let (slot, kind) = (units.slots(u64::from(carried.slot)), carried.whose.kind());
    let (job, task) = (carried.whose.job, carried.whose.task);
    let done = if carried.last { ", and is done" } else { "" };
    writeln!(
        text,
        "<rect class=\"{class}\" x=\"{x}\" y=\"{y}\" width=\"{width}\" height=\"12\"><title>slot {slot}: {kind} {job} of task \
         {task} {words} {of}{done}</title></rect>"
    )?;
    if carried.last {
        let end = x.saturating_add(u64::from(cell)).saturating_sub(3);
        writeln!(
            text,
            "<rect class=\"end\" x=\"{end}\" y=\"{y}\" width=\"3\" height=\"12\"/>"
        )?;
    }
    put_number(text, carried, spot, cell)
}

/// Draws what each slot carried.
pub fn put_cells(text: &mut Vec<u8>, scene: &Scene<'_>, layout: &Layout) -> io::Result<()> {
    for carried in &scene.window.carried {
        if let Some(spot) = layout.spot(carried.slot, carried.whose) {
            put_cell(text, carried, spot, layout.cell, scene.units)?;
        }
    }
    Ok(())
}

/// Draws the waivers.
pub fn put_waivers(text: &mut Vec<u8>, scene: &Scene<'_>, layout: &Layout) -> io::Result<()> {
    for waiver in &scene.window.waived {
        if let Some(spot) = layout.spot(waiver.slot, waiver.whose) {
            let x = spot.x.saturating_add(u64::from(layout.cell / 2));
            let (y, given) = (spot.y, waiver.given);
            let slot = scene.units.slots(u64::from(waiver.slot));
            let (job, task) = (waiver.whose.job, waiver.whose.task);
            writeln!(
                text,
                "<use href=\"#waiver\" x=\"{x}\" y=\"{y}\"><title>slot {slot}: collection {job} of task {task} is waived, and \
                 gives {given} pages</title></use>"
            )?;
        }
    }
    Ok(())
}

/// Draws, from one slot to before another, a dashed line in the lane of what a slot carried.
fn put_gap(
    text: &mut Vec<u8>,
    layout: &Layout,
    carried: &Carried,
    from: u32,
    to: u32,
) -> io::Result<()> {
    let mut start = from;
    for _ in from..to {
        if to <= start {
            break;
        }
        let Some(band) = layout.band_at(start) else {
            break;
        };
        let end = band.end.min(to);
        if let Some(spot) = layout.spot(start, carried.whose) {
            let (x, y) = (spot.x, spot.y.saturating_add(9));
            let right = band.x_of(end, layout.cell);
            let (job, of) = (carried.whose.job, carried.brief.of);
            writeln!(
                text,
                "<path class=\"gap\" d=\"M{x},{y}H{right}\"><title>the erase of block {of} by collection {job} is \
                 suspended</title></path>"
            )?;
        }
        start = end.max(start.saturating_add(1));
    }
    Ok(())
}

/// Takes the last slot that an erase had out of those of the erases that haven't ended.
fn take_last(open: &mut Vec<Carried>, job: u32) -> Option<Carried> {
    let place = open.iter().position(|last| last.whose.job == job)?;
    Some(open.swap_remove(place))
}

/// Draws how long an erase was suspended before a slot of it. `open` are the erases that haven't ended, by the last slot
/// that each had.
fn put_gap_before(
    text: &mut Vec<u8>,
    layout: &Layout,
    open: &mut Vec<Carried>,
    carried: &Carried,
) -> io::Result<()> {
    if let Some(last) = take_last(open, carried.whose.job) {
        let from = last.slot.saturating_add(1);
        put_gap(text, layout, carried, from, carried.slot)?;
    }
    if !carried.last {
        open.push(*carried)?;
    }
    Ok(())
}

/// Draws the gaps of all erases, of which none is open before.
fn put_gaps_of(
    text: &mut Vec<u8>,
    open: &mut Vec<Carried>,
    scene: &Scene<'_>,
    layout: &Layout,
) -> io::Result<()> {
    for carried in &scene.window.carried {
        if carried.brief.kind == Kind::Erase {
            put_gap_before(text, layout, open, carried)?;
        }
    }
    for last in open.as_slice() {
        let from = last.slot.saturating_add(1);
        put_gap(text, layout, last, from, scene.window.to)?;
    }
    Ok(())
}

/// Draws the erases that are suspended: between two slots of an erase, as long as others are carried.
pub fn put_gaps(
    alloc: Global,
    text: &mut Vec<u8>,
    scene: &Scene<'_>,
    layout: &Layout,
) -> io::Result<()> {
    let mut open = Vec::new(alloc);
    put_gaps_of(text, &mut open, scene, layout)
}
