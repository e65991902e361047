//! What lies under the lanes: their stripes, the rulers, and the busy interval of the worst.

ghost use Rattle.std.specs.Prelude.{◌<◌};

use crate::layouts::{ACROSS, Band, CURVES, LANE, LEFT, Layout, RULER, SPAN};
use crate::pictures::{Scene, Worst};
use flashplan_slot_times::Units;
use std::io;
use std::io::Write;

/// Shades every other lane of a band.
fn put_stripes(text: &mut Vec<u8>, band: &Band, cell: u32) -> io::Result<()> {
    let width = band.x_of(band.end, cell);
    for lane in 0..band.keys.len() {
        if lane % 2 == 0 {
            let y = band.y_of(lane);
            writeln!(
                text,
                "<rect class=\"lane\" x=\"0\" y=\"{y}\" width=\"{width}\" height=\"{LANE}\"/>"
            )?;
        }
    }
    Ok(())
}

/// How many slots lie between two ticks.
fn tick_of(cell: u32) -> u32
    ensures { 0 < result }
{
    if cell < 20 { 10 } else { 5 }
}

/// How wide the number of a slot is, with its time where it is known how long a slot is, and with a margin. The text is as
/// it was.
fn width_of(text: &mut Vec<u8>, slot: u32, units: Units) -> io::Result<u64> {
    let before = text.len();
    let at = units.slots(u64::from(slot));
    write!(text, "{at}")?;
    let signs = text.len().saturating_sub(before) as u64;
    text.truncate(before);
    Ok(signs.saturating_mul(6).saturating_add(6))
}

/// Draws the number of a slot, so wide, at its tick; farther left, where the picture would cut it.
fn put_number(
    text: &mut Vec<u8>,
    x: u64,
    y: u64,
    wide: u64,
    slot: u32,
    units: Units,
) -> io::Result<()> {
    let at = units.slots(u64::from(slot));
    if x.saturating_add(wide / 2) > ACROSS {
        let end = ACROSS.saturating_sub(2);
        write!(
            text,
            "<text class=\"n e\" x=\"{end}\" y=\"{y}\">{at}</text>"
        )
    } else {
        write!(text, "<text class=\"n\" x=\"{x}\" y=\"{y}\">{at}</text>")
    }
}

/// Draws the tick of a slot, without its number.
fn put_tick(text: &mut Vec<u8>, band: &Band, x: u64) -> io::Result<()> {
    let (top, below) = (band.top.saturating_add(RULER), band.bottom());
    write!(text, "<path class=\"tick\" d=\"M{x},{top}V{below}\"/>")
}

/// Where the number of a slot begins at its tick, so wide with its margin.
fn start_of(x: u64, wide: u64) -> u64 {
    let end = x.saturating_add(wide / 2).min(ACROSS);
    end.saturating_sub(wide)
}

/// Draws the ticks of a band, and the numbers of those that have room for one after the number before.
fn put_ticks(text: &mut Vec<u8>, band: &Band, cell: u32, units: Units) -> io::Result<()> {
    let every = tick_of(cell);
    let y = band.top.saturating_add(11);
    let mut free: u64 = 0;
    for slot in band.first..band.end.saturating_add(1) {
        if slot % every != 0 && slot != band.first {
            continue;
        }
        let x = band.x_of(slot, cell);
        put_tick(text, band, x)?;
        let wide = width_of(text, slot, units)?;
        let start = start_of(x, wide);
        if slot == band.first || start >= free {
            put_number(text, x, y, wide, slot, units)?;
            free = start.saturating_add(wide);
        }
        writeln!(text)?;
    }
    Ok(())
}

/// Names the axis of a band, before the number of its first slot.
fn put_axis(text: &mut Vec<u8>, band: &Band, units: Units) -> io::Result<()> {
    let wide = width_of(text, band.first, units)?;
    let (x, y) = (start_of(LEFT, wide), band.top.saturating_add(11));
    writeln!(text, "<text class=\"l\" x=\"{x}\" y=\"{y}\">slot</text>")
}

/// Draws the axes and the ticks of all bands.
pub fn put_rulers(text: &mut Vec<u8>, units: Units, layout: &Layout) -> io::Result<()> {
    for band in &layout.bands {
        put_axis(text, band, units)?;
        put_ticks(text, band, layout.cell, units)?;
    }
    Ok(())
}

/// Shades the busy interval of the worst in a band.
fn put_part(
    text: &mut Vec<u8>,
    worst: &Worst,
    band: &Band,
    cell: u32,
    units: Units,
) -> io::Result<()> {
    let (first, end) = (worst.start.max(band.first), worst.completion.min(band.end));
    if first >= end {
        return Ok(());
    }
    let (x, y) = (band.x_of(first, cell), band.top.saturating_add(RULER));
    let width = band.x_of(end, cell).saturating_sub(x);
    let height = band.bottom().saturating_sub(y);
    let (kind, job) = (worst.whose.kind(), worst.whose.job);
    let start = units.slots(u64::from(worst.start));
    let completion = units.slots(u64::from(worst.completion));
    let due = units.slots(u64::from(worst.due));
    writeln!(
        text,
        "<rect class=\"busy_interval\" x=\"{x}\" y=\"{y}\" width=\"{width}\" height=\"{height}\"><title>certificate of {kind} {job}: \
         slots {start} to {completion} carried work due by {due}</title></rect>"
    )
}

/// Draws the stripes, and shades the busy interval of the worst.
pub fn put_busy_interval(text: &mut Vec<u8>, scene: &Scene<'_>, layout: &Layout) -> io::Result<()> {
    for band in &layout.bands {
        put_stripes(text, band, layout.cell)?;
        if let Some(worst) = &scene.worst {
            put_part(text, worst, band, layout.cell, scene.units)?;
        }
    }
    Ok(())
}

/// Draws where a die failed: a line before the slot, and a word beside it where there is room.
fn put_failed(
    text: &mut Vec<u8>,
    band: &Band,
    slot: u32,
    cell: u32,
    units: Units,
) -> io::Result<()> {
    let at = units.slots(u64::from(slot));
    let (x, top) = (band.x_of(slot, cell), band.top.saturating_add(RULER));
    let bottom = band.bottom().saturating_add(CURVES).saturating_sub(4);
    let y = bottom.saturating_sub(4);
    let right = LEFT.saturating_add(u64::from(SPAN));
    let (class, beside) = if x.saturating_add(20) > right {
        ("l late", x.saturating_sub(6))
    } else {
        ("late", x.saturating_add(6))
    };
    writeln!(
        text,
        "<path class=\"failed\" d=\"M{x},{top}V{bottom}\"><title>the die failed in slot {at}</title></path><text \
         class=\"{class}\" x=\"{beside}\" y=\"{y}\">failed</text>"
    )
}

/// Draws where the die failed, if that lies in the window.
pub fn put_failure(text: &mut Vec<u8>, scene: &Scene<'_>, layout: &Layout) -> io::Result<()> {
    let Some(slot) = scene.failed else {
        return Ok(());
    };
    match layout.band_at(slot) {
        Some(band) => put_failed(text, band, slot, layout.cell, scene.units),
        None => Ok(()),
    }
}
