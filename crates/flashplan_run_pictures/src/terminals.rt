//! What the slots of a window carried, as lines for a terminal: a character a slot.

ghost use Rattle.slot_types.specs.Refusal.{FailsForMemory};

use crate::briefs::Kind;
use crate::layouts::{Band, Layout};
use crate::pictures::Scene;
use crate::rows::Row;
use crate::sentences::{put_counts, put_title, put_worst_of};
use crate::spans::{Span, Waiting, spans_of};
use crate::windows::Whose;
use flashplan_slot_times::{Time, Units};
use slot_types::Refusal;
use std::alloc::Global;
use std::io;
use std::io::Write;

/// How wide the names of lanes are at least, with the blank after them.
const NAMES: usize = 32;

/// How wide a slot of a picture is whose bands have 40 slots.
const CELL: u32 = 25;

/// What the characters mean.
const LEGEND: &str =
    "R read, W write, T trim; of a collection: r read, p program, e a part of an erase, w waived; . waits, \
! waits past its deadline";

fn sign_of(kind: Kind) -> u8 {
    match kind {
        Kind::Read => b'R',
        Kind::Write => b'W',
        Kind::Trim => b'T',
        Kind::CopyRead => b'r',
        Kind::CopyProgram => b'p',
        Kind::Erase => b'e',
    }
}

/// The characters of a band: `width` in each lane.
#[derive(Drop)]
struct Grid {
    first: u32,
    width: usize,
    signs: Vec<u8>,
}

impl Grid {
    // Fills the slots of a lane from one to before another.
    fn fill(&mut self, lane: usize, first: u32, end: u32, sign: u8) {
        for slot in first..end {
            self.put(lane, slot, sign);
        }
    }

    fn put(&mut self, lane: usize, slot: u32, sign: u8) {
        let column = slot.saturating_sub(self.first) as usize;
        if column >= self.width {
            return;
        }
        let place = lane.saturating_mul(self.width).saturating_add(column);
        if let Some(cell) = self.signs.get_mut(place) {
            *cell = sign;
        }
    }

    // The characters of a lane, without the blanks at its end.
    fn lane(&self, lane: usize) -> &[u8] {
        let first = lane.saturating_mul(self.width).min(self.signs.len());
        let end = first.saturating_add(self.width).min(self.signs.len());
        match self.signs.get(first..end) {
            Some(signs) => signs.trim_ascii_end(),
            None => &[],
        }
    }
}

/// A band of blanks. The only refusal is NoMemory.
fn blank(alloc: Global, band: &Band) -> Result<Grid, Refusal>
    ensures { FailsForMemory result }
{
    let width = band.end.saturating_sub(band.first) as usize;
    let cells = width.saturating_mul(band.keys.len());
    Ok(Grid {
        first: band.first,
        width,
        signs: vec![in alloc; b' '; cells]?,
    })
}

/// Adds a band of blanks for each of the layout. The only refusal is NoMemory.
fn put_blanks(alloc: Global, grids: &mut Vec<Grid>, layout: &Layout) -> Result<(), Refusal>
    ensures { FailsForMemory result }
{
    for band in &layout.bands {
        let grid = blank(alloc, band)?;
        grids.push(grid)?;
    }
    Ok(())
}

/// Puts a character into the slots of a span that lie in a band.
fn put_part(grid: &mut Grid, band: &Band, span: &Span, sign: u8) {
    if let Some(lane) = band.lane_of(span.key) {
        grid.fill(
            lane,
            span.first.max(band.first),
            span.end.min(band.end),
            sign,
        );
    }
}

/// Puts a character into the slots of spans.
fn put_spans(grids: &mut Vec<Grid>, layout: &Layout, spans: &[Span], sign: u8) {
    for span in spans {
        let (first, end) = layout.bands_in(span);
        for place in first..end {
            if let (Some(grid), Some(band)) = (grids.get_mut(place), layout.bands.get(place)) {
                put_part(grid, band, span, sign);
            }
        }
    }
}

/// Puts a character of a job into a slot.
fn put_sign(grids: &mut Vec<Grid>, layout: &Layout, slot: u32, whose: Whose, sign: u8) {
    let Some((band, lane)) = layout.place_of(slot, whose) else {
        return;
    };
    if let Some(grid) = grids.get_mut(band) {
        grid.put(lane, slot, sign);
    }
}

/// Puts all that the window has into the bands. In these slots of its lanes something waits past its deadline.
fn put_signs(grids: &mut Vec<Grid>, layout: &Layout, scene: &Scene<'_>, late: &[Span]) {
    put_spans(grids, layout, &layout.waits, b'.');
    put_spans(grids, layout, late, b'!');
    for carried in &scene.window.carried {
        put_sign(
            grids,
            layout,
            carried.slot,
            carried.whose,
            sign_of(carried.brief.kind),
        );
    }
    for waiver in &scene.window.waived {
        put_sign(grids, layout, waiver.slot, waiver.whose, b'w');
    }
}

/// Adds what the lines are of, the counts of the whole run, the worst, and what the characters mean.
fn put_head(text: &mut Vec<u8>, scene: &Scene<'_>) -> io::Result<()> {
    put_title(text, scene)?;
    text.push(b'\n')?;
    put_counts(text, scene)?;
    text.push(b'\n')?;
    put_worst_of(text, scene)?;
    text.push(b'\n')?;
    writeln!(text, "{LEGEND}")
}

/// Adds blanks, so that a name which began at this length of the text is as wide as all are.
fn put_blanks_after(text: &mut Vec<u8>, start: usize, width: usize) -> io::Result<()> {
    for _ in text.len().saturating_sub(start)..width {
        text.push(b' ')?;
    }
    Ok(())
}

/// Adds the slots of a band that end with 0, each from its column on.
fn put_ruler(text: &mut Vec<u8>, band: &Band, width: usize) -> io::Result<()> {
    let start = text.len();
    write!(text, "slot")?;
    put_blanks_after(text, start, width)?;
    let left = text.len();
    for slot in band.first..band.end {
        if slot % 10 == 0 {
            for _ in text.len().saturating_sub(left)..(slot - band.first) as usize {
                text.push(b' ')?;
            }
            write!(text, "{slot}")?;
        }
    }
    writeln!(text)
}

/// Adds the times of these slots, each from its column on where there is room for it, where it is known how long a slot
/// is.
fn put_times(text: &mut Vec<u8>, band: &Band, width: usize, units: Units) -> io::Result<()> {
    let Some(slot_us) = units.slot_us else {
        return Ok(());
    };
    let start = text.len();
    write!(text, "time")?;
    put_blanks_after(text, start, width)?;
    let left = text.len();
    for slot in band.first..band.end {
        let (used, column) = (
            text.len().saturating_sub(left),
            slot.saturating_sub(band.first) as usize,
        );
        if slot % 10 == 0 && (used == 0 || used < column) {
            put_blanks_after(text, left, column)?;
            let us = u128::from(slot) * u128::from(slot_us);
            let time = Time { us };
            write!(text, "{time}")?;
        }
    }
    writeln!(text)
}

/// Names a job.
fn put_job_name(text: &mut Vec<u8>, row: &Row, units: Units) -> io::Result<()> {
    let Whose { job, task, .. } = row.whose;
    let (kind, due) = (row.whose.kind(), units.slots(u64::from(row.due)));
    write!(text, "{kind} {job}, task {task}, due {due}")
}

/// Names the lane of a job. The rows are rising by their numbers.
fn put_job_lane(text: &mut Vec<u8>, key: u32, scene: &Scene<'_>) -> io::Result<()> {
    let place = scene.rows.partition_point(|row| row.whose.job < key);
    match scene.rows.get(place) {
        Some(row) if row.whose.job == key => put_job_name(text, row, scene.units),
        _ => Ok(()),
    }
}

/// Names the lane of a task's jobs or collections.
fn put_task_lane(text: &mut Vec<u8>, key: u32) -> io::Result<()> {
    let (task, what) = (key / 2, if key % 2 == 0 { "jobs" } else { "collections" });
    write!(text, "task {task}: {what}")
}

/// Names a lane, as wide as all are.
fn put_name(
    text: &mut Vec<u8>,
    key: u32,
    layout: &Layout,
    scene: &Scene<'_>,
    width: usize,
) -> io::Result<()> {
    let start = text.len();
    if layout.by_task {
        put_task_lane(text, key)?;
    } else {
        put_job_lane(text, key, scene)?;
    }
    put_blanks_after(text, start, width)
}

/// How wide the names of a picture are: 32, or as the longest one and a blank, where that is more.
fn width_of(alloc: Global, layout: &Layout, scene: &Scene<'_>) -> io::Result<usize> {
    let mut width = NAMES;
    if layout.by_task {
        return Ok(width);
    }
    let mut name = Vec::new(alloc);
    for row in scene.rows {
        name.clear();
        put_job_name(&mut name, row, scene.units)?;
        width = width.max(name.len().saturating_add(1));
    }
    Ok(width)
}

/// Marks the slot of a band in which the die failed, if it is there.
fn put_failed(
    text: &mut Vec<u8>,
    band: &Band,
    failed: Option<u32>,
    width: usize,
) -> io::Result<()> {
    match failed {
        Some(slot) if band.first <= slot && slot < band.end => {
            let start = text.len();
            write!(text, "the die failed")?;
            let before = slot.saturating_sub(band.first) as usize;
            put_blanks_after(text, start, width.saturating_add(before))?;
            writeln!(text, "X")
        }
        _ => Ok(()),
    }
}

/// Adds the lines of a band.
fn put_band(
    text: &mut Vec<u8>,
    band: &Band,
    grid: &Grid,
    layout: &Layout,
    scene: &Scene<'_>,
    width: usize,
) -> io::Result<()> {
    text.push(b'\n')?;
    put_ruler(text, band, width)?;
    put_times(text, band, width, scene.units)?;
    for lane in 0..band.keys.len() {
        put_name(text, band.keys[lane], layout, scene, width)?;
        text.write_all(grid.lane(lane))?;
        text.push(b'\n')?;
    }
    put_failed(text, band, scene.failed, width)
}

/// Adds all lines.
fn put_lines(
    alloc: Global,
    text: &mut Vec<u8>,
    grids: &[Grid],
    layout: &Layout,
    scene: &Scene<'_>,
) -> io::Result<()> {
    put_head(text, scene)?;
    let width = width_of(alloc, layout, scene)?;
    for (band, grid) in layout.bands.iter().zip(grids) {
        put_band(text, band, grid, layout, scene, width)?;
    }
    Ok(())
}

/// The lines of bands. The only refusal is NoMemory.
fn lines_of(
    alloc: Global,
    grids: &[Grid],
    layout: &Layout,
    scene: &Scene<'_>,
) -> Result<Vec<u8>, Refusal>
    ensures { FailsForMemory result }
{
    let mut text = Vec::new(alloc);
    match put_lines(alloc, &mut text, grids, layout, scene) {
        Ok(()) => Ok(text),
        Err(_) => Err(Refusal::NoMemory),
    }
}

/// The lines, where things stand as the layout says. The only refusal is NoMemory.
fn lines_in(alloc: Global, layout: &Layout, scene: &Scene<'_>) -> Result<Vec<u8>, Refusal>
    ensures { FailsForMemory result }
{
    let mut grids = Vec::new(alloc);
    put_blanks(alloc, &mut grids, layout)?;
    let (window, slots, by_task) = (scene.window, scene.slots, layout.by_task);
    let late = spans_of(alloc, window, scene.rows, slots, by_task, Waiting::Late)?;
    put_signs(&mut grids, layout, scene, &late);
    lines_of(alloc, grids.as_slice(), layout, scene)
}

/// Writes what the slots of a window carried as lines for a terminal. The only refusal is NoMemory.
pub fn lines(alloc: Global, scene: &Scene<'_>) -> Result<Vec<u8>, Refusal>
    ensures { FailsForMemory result }
{
    let layout = Layout::of(alloc, scene.window, scene.rows, scene.slots, CELL)?;
    lines_in(alloc, &layout, scene)
}
