//! The lanes of a picture: their names, how long each waits, its releases and its deadlines.

use crate::layouts::{Band, LEFT, Layout};
use crate::pictures::Scene;
use crate::rows::{End, Row};
use crate::spans::Span;
use flashplan_run_figures::Quantity;
use flashplan_slot_times::Units;
use std::io;
use std::io::Write;

/// Draws how long a lane's jobs wait in a band.
fn put_wait(text: &mut Vec<u8>, span: &Span, band: &Band, cell: u32) -> io::Result<()> {
    let Some(lane) = band.lane_of(span.key) else {
        return Ok(());
    };
    let (first, end) = (span.first.max(band.first), span.end.min(band.end));
    let (x, right) = (band.x_of(first, cell), band.x_of(end, cell));
    let middle = band.y_of(lane).saturating_add(9);
    writeln!(text, "<path class=\"wait\" d=\"M{x},{middle}H{right}\"/>")
}

/// Draws how long the jobs of each lane wait.
pub fn put_waits(text: &mut Vec<u8>, layout: &Layout) -> io::Result<()> {
    for span in &layout.waits {
        let (first, end) = layout.bands_in(span);
        for place in first..end {
            let Some(band) = layout.bands.get(place) else {
                break;
            };
            put_wait(text, span, band, layout.cell)?;
        }
    }
    Ok(())
}

/// Draws the release and the deadline of a job.
fn put_times_of(
    text: &mut Vec<u8>,
    row: &Row,
    scene: &Scene<'_>,
    layout: &Layout,
) -> io::Result<()> {
    let (kind, job, task) = (row.whose.kind(), row.whose.job, row.whose.task);
    let last = row.last_in_time();
    let release = scene.units.slots(u64::from(row.release));
    let due = scene.units.slots(u64::from(row.due));
    if scene.window.has(row.release) {
        if let Some(spot) = layout.spot(row.release, row.whose) {
            let (x, y) = (spot.x, spot.y);
            writeln!(
                text,
                "<use class=\"release\" href=\"#release\" x=\"{x}\" y=\"{y}\"><title>{kind} {job} of task {task} is \
                 released in slot {release}</title></use>"
            )?;
        }
    }
    if scene.window.has(last) {
        if let Some(spot) = layout.spot(last, row.whose) {
            let (x, y) = (spot.x.saturating_add(u64::from(layout.cell)), spot.y);
            writeln!(
                text,
                "<use class=\"due\" href=\"#due\" x=\"{x}\" y=\"{y}\"><title>{kind} {job} of task {task} is due \
                 before slot {due}</title></use>"
            )?;
        }
    }
    Ok(())
}

/// Draws the releases and the deadlines.
pub fn put_times(text: &mut Vec<u8>, scene: &Scene<'_>, layout: &Layout) -> io::Result<()> {
    for row in scene.rows {
        put_times_of(text, row, scene, layout)?;
    }
    Ok(())
}

/// Tells what became of a job.
fn put_end(text: &mut Vec<u8>, row: &Row, units: Units) -> io::Result<()> {
    match row.end {
        End::Waiting => write!(text, "it waits"),
        End::Waived { .. } => write!(text, "waived"),
        End::Done { completion } => {
            let slots_late = i64::from(completion) - i64::from(row.due);
            let completed = units.slots(u64::from(completion));
            let lateness = Quantity::lateness(slots_late, units);
            write!(text, "completed {completed}, lateness {lateness}")
        }
    }
}

/// Names the lane of a job.
fn put_label(
    text: &mut Vec<u8>,
    row: &Row,
    y: u64,
    is_worst: bool,
    units: Units,
) -> io::Result<()> {
    let class = if is_worst { "l late" } else { "l" };
    let (x, y) = (LEFT.saturating_sub(8), y.saturating_add(13));
    let (kind, job, task) = (row.whose.kind(), row.whose.job, row.whose.task);
    let release = units.slots(u64::from(row.release));
    let due = units.slots(u64::from(row.due));
    write!(
        text,
        "<text class=\"{class}\" x=\"{x}\" y=\"{y}\">{kind} {job}, task {task}<title>release {release}, due {due}, "
    )?;
    put_end(text, row, units)?;
    writeln!(text, "</title></text>")
}

/// Names the lane of a job in the band of a slot.
fn put_label_at(
    text: &mut Vec<u8>,
    row: &Row,
    slot: u32,
    scene: &Scene<'_>,
    layout: &Layout,
) -> io::Result<()> {
    let is_worst = match &scene.worst {
        Some(worst) => worst.whose == row.whose,
        None => false,
    };
    match layout.spot(slot, row.whose) {
        Some(spot) => put_label(text, row, spot.y, is_worst, scene.units),
        None => Ok(()),
    }
}

/// Names the lanes of jobs.
fn put_job_labels(text: &mut Vec<u8>, scene: &Scene<'_>, layout: &Layout) -> io::Result<()> {
    for row in scene.rows {
        let (first, end) = layout.bands_of(row, scene.window, scene.slots);
        for place in first..end {
            let Some(band) = layout.bands.get(place) else {
                break;
            };
            put_label_at(text, row, band.first, scene, layout)?;
        }
        let due = row.last_in_time();
        let band = layout.band_of(due);
        if scene.window.has(due) && (band < first || end <= band) {
            put_label_at(text, row, due, scene, layout)?;
        }
    }
    Ok(())
}

/// Names the lanes of tasks.
fn put_task_labels(text: &mut Vec<u8>, layout: &Layout) -> io::Result<()> {
    let x = LEFT.saturating_sub(8);
    for band in &layout.bands {
        for lane in 0..band.keys.len() {
            let key = band.keys[lane];
            let (task, y) = (key / 2, band.y_of(lane).saturating_add(13));
            let name = if key % 2 == 0 { "jobs" } else { "collections" };
            writeln!(
                text,
                "<text class=\"l\" x=\"{x}\" y=\"{y}\">task {task}: {name}</text>"
            )?;
        }
    }
    Ok(())
}

/// Names the lanes.
pub fn put_labels(text: &mut Vec<u8>, scene: &Scene<'_>, layout: &Layout) -> io::Result<()> {
    if layout.by_task {
        put_task_labels(text, layout)
    } else {
        put_job_labels(text, scene, layout)
    }
}
