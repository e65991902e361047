//! The picture of a comparison, as SVG: a curve for each policy, which has above each lateness the share of a task's
//! jobs that were later.

use crate::curves::{Axis, Corner, Curve, DECADE, HEIGHT, WIDTH};
use crate::shares::Share;
use flashplan_slot_times::{Time, Units};
use slot_types::Refusal;
use std::alloc::Global;
use std::io;
use std::io::Write;

/// What a picture is of.
#[derive(Clone, Copy)]
pub(crate) struct Caption {
    pub(crate) die: u32,
    pub(crate) task: u32,
    pub(crate) from: u32,
    pub(crate) slots: u32,
    pub(crate) pool: usize,
    /// In which units slots are said.
    pub(crate) units: Units,
}

/// Where the axes begin.
const CORNER: Corner = Corner { x: 78, y: 62 };

/// Curves that lie one upon the other.
#[derive(Drop)]
struct Group {
    path: Vec<u8>,
    /// The places of its curves.
    curves: Vec<usize>,
    /// Which share of the jobs is late.
    late: Share,
}

/// The styles. Each curve is thinner than those that are drawn before it, and has longer gaps, in a pattern of 20: so those
/// that lie on each other can be told apart, in prints without colour, too. On a screen that is dark, the picture is too.
const STYLES: &str = "<style>
svg{background:#fff;print-color-adjust:exact;-webkit-print-color-adjust:exact}
.back{fill:#fff}
text{font:13px sans-serif;fill:#222}
.h{font-size:16px;font-weight:bold}
.e{text-anchor:end}
.m{text-anchor:middle}
.s{fill:#555}
.axis{stroke:#ddd}
.due{stroke:#b00020;stroke-dasharray:4 3}
.late{fill:#b00020;fill-opacity:.05}
path{fill:none;stroke-width:2}
.c0{stroke:#0b62a4;stroke-width:5}
.c1{stroke:#b00020;stroke-width:3.5}
.c2{stroke:#e08a00;stroke-width:3;stroke-dasharray:16 4}
.c3{stroke:#8a4f9e;stroke-width:2.6;stroke-dasharray:12 8}
.c4{stroke:#1b9e47;stroke-width:2.3;stroke-dasharray:8 12}
.c5{stroke:#222;stroke-width:2;stroke-dasharray:4 16}
.c6{stroke:#00a0b0;stroke-width:2;stroke-dasharray:2 8}
.c7{stroke:#8c6d1f;stroke-width:2;stroke-dasharray:2 18}
@media screen and (prefers-color-scheme:dark){
svg{background:#16181d}
.back{fill:#16181d}
text{fill:#ddd}
.s{fill:#aaa}
.axis{stroke:#3a3f48}
.c0{stroke:#5db0f0}
.c1,.due{stroke:#ff8a96}
.c2{stroke:#f0b050}
.c3{stroke:#c99adb}
.c4{stroke:#6bd08a}
.c5{stroke:#eee}
.c6{stroke:#4fd0d8}
.c7{stroke:#d8b860}
}
</style>";

// The place of the group with a path.
fn place_of(groups: &[Group], path: &[u8]) -> Option<usize> {
    for place in 0..groups.len() {
        if groups[place].path.as_slice() == path {
            return Some(place);
        }
    }
    None
}

// A group of one curve.
fn group_of(alloc: Global, path: Vec<u8>, place: usize, late: Share) -> io::Result<Group> {
    let mut curves = Vec::new(alloc);
    curves.push(place)?;
    Ok(Group { path, curves, late })
}

// The curves, those that are equal together, in the order of their first ones.
fn groups_of(alloc: Global, curves: &[Curve], axis: Axis) -> io::Result<Vec<Group>> {
    let mut groups: Vec<Group> = Vec::new(alloc);
    for place in 0..curves.len() {
        let mut path = Vec::new(alloc);
        curves[place].put_path(&mut path, axis, CORNER)?;
        match place_of(groups.as_slice(), path.as_slice()) {
            Some(same) if same < groups.len() => groups[same].curves.push(place)?,
            _ => {
                let group = group_of(alloc, path, place, curves[place].late())?;
                groups.push(group)?;
            }
        }
    }
    Ok(groups)
}

fn put_head(text: &mut Vec<u8>, caption: Caption, jobs: usize) -> io::Result<()> {
    let Caption {
        die,
        task,
        from,
        slots,
        pool,
        units,
    } = caption;
    let (from, slots) = (units.slots(u64::from(from)), units.slots(u64::from(slots)));
    writeln!(
        text,
        "<title>Die {die}, task {task}: which share of its jobs is how late, by policy</title>"
    )?;
    writeln!(text, "{STYLES}")?;
    writeln!(
        text,
        "<rect class=\"back\" width=\"100%\" height=\"100%\"/>"
    )?;
    writeln!(
        text,
        "<text class=\"h\" x=\"16\" y=\"24\">Die {die}, task {task}: how late its {jobs} jobs were in slots {from} to \
         {slots}</text>"
    )?;
    writeln!(
        text,
        "<text class=\"s\" x=\"16\" y=\"44\">share whose lateness was greater than the one below, or that was refused; pool \
         of {pool} blocks</text>"
    )
}

/// The shares at the ends of the decades.
const SHARES: [&str; 5] = ["100 %", "10 %", "1 %", "0.1 %", "0.01 %"];

fn put_shares(text: &mut Vec<u8>) -> io::Result<()> {
    let (left, right) = (CORNER.x, CORNER.x.saturating_add(WIDTH));
    let label = left.saturating_sub(8);
    let mut y = CORNER.y;
    for share in SHARES {
        let middle = y.saturating_add(4);
        writeln!(
            text,
            "<path class=\"axis\" d=\"M{left},{y}H{right}\"/><text class=\"e\" x=\"{label}\" y=\"{middle}\">{share}</text>"
        )?;
        y = y.saturating_add(DECADE / 10);
    }
    Ok(())
}

// Where the axis of shares ends.
fn bottom() -> u64 {
    CORNER.y.saturating_add(HEIGHT / 10)
}

fn x_of(axis: Axis, lateness: i64) -> Option<i64> {
    let pixel = axis.pixel_of(lateness)?;
    Some(pixel.saturating_add(i64::from(CORNER.x)))
}

// The time of a lateness, with a sign where it is before the deadline.
fn time_of(alloc: Global, lateness: i64, slot_us: u32) -> io::Result<String> {
    let sign = if lateness < 0 { "-" } else { "" };
    let us = u128::from(lateness.unsigned_abs()) * u128::from(slot_us);
    let time = Time { us };
    Ok(format!(in alloc; "{sign}{time}")?)
}

// How many pixels half of a text takes, of eight a character at most.
fn half_of(text: &str) -> i64 {
    i64::try_from(text.len())
        .unwrap_or(i64::MAX)
        .saturating_mul(4)
}

// Names a time below its tick.
fn put_time(text: &mut Vec<u8>, x: i64, time: &str) -> io::Result<()> {
    let y = bottom().saturating_add(34);
    writeln!(
        text,
        "<text class=\"m s\" x=\"{x}\" y=\"{y}\">{time}</text>"
    )
}

// Names the times below the ticks, where there is room for them, and it is known how long a slot is.
fn put_times(alloc: Global, text: &mut Vec<u8>, axis: Axis, units: Units) -> io::Result<()> {
    let Some(slot_us) = units.slot_us else {
        return Ok(());
    };
    let tick = axis.tick();
    let first = axis.low.checked_div_euclid(tick).unwrap_or(0);
    let mut free = i64::MIN;
    for count in 0..13i64 {
        let lateness = first.saturating_add(count).saturating_mul(tick);
        let Some(x) = x_of(axis, lateness) else {
            continue;
        };
        let time = time_of(alloc, lateness, slot_us)?;
        let half = half_of(time.as_str());
        if free <= x.saturating_sub(half) {
            put_time(text, x, time.as_str())?;
            free = x.saturating_add(half);
        }
    }
    Ok(())
}

// How far below the axis its name stands, under the times.
fn name_below(units: Units) -> u64 {
    if units.slot_us.is_some() { 52 } else { 40 }
}

// Draws a tick below the axis.
fn put_tick(text: &mut Vec<u8>, x: i64) -> io::Result<()> {
    let (bottom, short) = (bottom(), bottom().saturating_add(5));
    write!(text, "<path class=\"axis\" d=\"M{x},{bottom}V{short}\"/>")
}

// Names a lateness below its tick.
fn put_lateness(text: &mut Vec<u8>, x: i64, lateness: &str) -> io::Result<()> {
    let label = bottom().saturating_add(20);
    write!(
        text,
        "<text class=\"m\" x=\"{x}\" y=\"{label}\">{lateness}</text>"
    )
}

// Draws the ticks, and names those that have room for their number after the one before.
fn put_ticks(alloc: Global, text: &mut Vec<u8>, axis: Axis) -> io::Result<()> {
    let tick = axis.tick();
    let first = axis.low.checked_div_euclid(tick).unwrap_or(0);
    let mut free = i64::MIN;
    for count in 0..13i64 {
        let lateness = first.saturating_add(count).saturating_mul(tick);
        let Some(x) = x_of(axis, lateness) else {
            continue;
        };
        put_tick(text, x)?;
        let number = format!(in alloc; "{lateness}")?;
        let half = half_of(number.as_str());
        let start = x.saturating_sub(half);
        if free <= start {
            put_lateness(text, x, number.as_str())?;
            free = x.saturating_add(half);
        }
        writeln!(text)?;
    }
    Ok(())
}

// Names the axis of latenesses, under the times.
fn put_axis_name(text: &mut Vec<u8>, units: Units) -> io::Result<()> {
    let x = CORNER.x.saturating_add(WIDTH / 2);
    let y = bottom().saturating_add(name_below(units));
    writeln!(
        text,
        "<text class=\"m s\" x=\"{x}\" y=\"{y}\">lateness in slots</text>"
    )
}

// Shades what is late, where the axis shows any of it.
fn put_late(text: &mut Vec<u8>, axis: Axis) -> io::Result<()> {
    let Some(x) = x_of(axis, 0) else {
        return Ok(());
    };
    let right = i64::from(CORNER.x.saturating_add(WIDTH));
    let (top, bottom, height) = (CORNER.y, bottom(), HEIGHT / 10);
    let width = right.saturating_sub(x).max(0);
    let (after, y) = (x.saturating_add(5), bottom.saturating_sub(8));
    writeln!(
        text,
        "<rect class=\"late\" x=\"{x}\" y=\"{top}\" width=\"{width}\" height=\"{height}\"/>"
    )?;
    writeln!(
        text,
        "<path class=\"due\" d=\"M{x},{top}V{bottom}\"/><text x=\"{after}\" y=\"{y}\">late</text>"
    )
}

// Adds the names of a group below a height, and answers where they end.
fn put_names(
    text: &mut Vec<u8>,
    curves: &[Curve],
    place: usize,
    group: &Group,
    top: u64,
) -> io::Result<u64> {
    let line = top.saturating_sub(4);
    writeln!(text, "<path class=\"c{place}\" d=\"M576,{line}H606\"/>")?;
    let mut y = top;
    for curve in group.curves.as_slice() {
        let policy = match curves.get(*curve) {
            Some(curve) => curve.policy,
            None => "",
        };
        writeln!(text, "<text x=\"614\" y=\"{y}\">{policy}</text>")?;
        y = y.saturating_add(18);
    }
    let late = group.late;
    writeln!(
        text,
        "<text class=\"e\" x=\"808\" y=\"{top}\">{late} % late</text>"
    )?;
    Ok(y.saturating_add(6))
}

fn put_groups(text: &mut Vec<u8>, curves: &[Curve], groups: &[Group]) -> io::Result<()> {
    let mut y = CORNER.y.saturating_add(12);
    for place in 0..groups.len() {
        let group = &groups[place];
        text.write_all(b"<path class=\"c")?;
        write!(text, "{place}")?;
        text.write_all(b"\" d=\"")?;
        text.write_all(group.path.as_slice())?;
        text.write_all(b"\"/>\n")?;
        y = put_names(text, curves, place, group, y)?;
    }
    Ok(())
}

// The curves of a picture, or that there are none.
fn put_curves(alloc: Global, text: &mut Vec<u8>, curves: &[Curve], units: Units) -> io::Result<()> {
    let axis = Axis::of(curves);
    put_shares(text)?;
    put_late(text, axis)?;
    put_ticks(alloc, text, axis)?;
    put_times(alloc, text, axis, units)?;
    put_axis_name(text, units)?;
    let groups = groups_of(alloc, curves, axis)?;
    put_groups(text, curves, groups.as_slice())
}

fn put_picture(
    alloc: Global,
    text: &mut Vec<u8>,
    caption: Caption,
    curves: &[Curve],
) -> io::Result<()> {
    writeln!(
        text,
        "<svg xmlns=\"http://www.w3.org/2000/svg\" width=\"820\" height=\"400\" viewBox=\"0 0 820 400\">"
    )?;
    let jobs = match curves.first() {
        Some(curve) => curve.rising.len(),
        None => 0,
    };
    put_head(text, caption, jobs)?;
    if jobs > 0 {
        put_curves(alloc, text, curves, caption.units)?;
    }
    writeln!(text, "</svg>")
}

/// Draws curves, as the text of an SVG picture. The only refusal is NoMemory.
pub(crate) fn picture(
    alloc: Global,
    caption: Caption,
    curves: &[Curve],
) -> Result<Vec<u8>, Refusal> {
    let mut text = Vec::new(alloc);
    match put_picture(alloc, &mut text, caption, curves) {
        Ok(()) => Ok(text),
        Err(_) => Err(Refusal::NoMemory),
    }
}
