//! Curves below the bands: how many pages are spare, and how many tokens each task has.

use crate::layouts::{Band, CURVES, LEFT, Layout};
use crate::pictures::Scene;
use crate::windows::Level;
use std::alloc::Global;
use std::io;
use std::io::Write;

/// What lies above a band's curves.
const ABOVE: u64 = 8;

/// How many tasks have a colour of their own.
const COLOURS: usize = 8;

/// The height of the greatest level.
const HIGH: u64 = CURVES - ABOVE - 4;

/// The greatest levels, each at least 1: of the spare pages, and of the tokens of any task.
#[derive(Clone, Copy, Drop)]
struct Greatest {
    spare: u32,
    tokens: u32,
}

impl Greatest {
    /// Of some levels.
    fn of(levels: &[Level]) -> Greatest {
        let (mut spare, mut tokens) = (1u32, 1u32);
        for level in levels {
            if level.series == 0 {
                spare = spare.max(level.pages);
            } else {
                tokens = tokens.max(level.pages);
            }
        }
        Greatest { spare, tokens }
    }

    /// The one that a series is measured by.
    fn of_series(self, series: usize) -> u32 {
        if series == 0 { self.spare } else { self.tokens }
    }
}

/// How many series some levels are of.
pub fn series_in(levels: &[Level]) -> usize {
    let mut count: usize = 0;
    for level in levels {
        count = count.max(level.series.saturating_add(1));
    }
    count
}

/// Of levels, from a place on, the place of the first one that isn't before a slot.
fn place_of(levels: &[Level], from: usize, slot: u32) -> usize {
    let mut place = from;
    for next in from..levels.len() {
        if levels[next].slot >= slot {
            break;
        }
        place = next.saturating_add(1);
    }
    place
}

/// Takes levels as those that stand, by series.
fn take(now: &mut Vec<u32>, levels: &[Level]) {
    for level in levels {
        if let Some(pages) = now.get_mut(level.series) {
            *pages = level.pages;
        }
    }
}

/// Some of the levels.
fn some_of(levels: &[Level], from: usize, to: usize) -> &[Level] {
    match levels.get(from..to) {
        Some(some) => some,
        None => &[],
    }
}

/// How far from the top a level of a band stands.
fn height_of(band: &Band, pages: u32, greatest: u32) -> u64 {
    let bottom = band.bottom().saturating_add(ABOVE).saturating_add(HIGH);
    let high = u64::from(pages).saturating_mul(HIGH) / u64::from(greatest.max(1));
    bottom.saturating_sub(high)
}

/// The class of a series: of the spare pages, or of the tokens of a task. Eight tasks have colours and gaps of their own, and
/// eight more the same ones, thinner.
pub fn put_class(text: &mut Vec<u8>, series: usize) -> io::Result<()> {
    match series.checked_sub(1) {
        None => write!(text, "spare"),
        Some(task) if task < COLOURS => write!(text, "tokens t{task}"),
        Some(task) => {
            let colour = task % COLOURS;
            write!(text, "tokens t{colour} thin")
        }
    }
}

/// Draws the curve of a series in a band, which begins at a level, and what then changes.
fn put_curve(
    text: &mut Vec<u8>,
    band: &Band,
    cell: u32,
    greatest: u32,
    series: usize,
    first: u32,
    changes: &[Level],
) -> io::Result<()> {
    let (x, y) = (
        band.x_of(band.first, cell),
        height_of(band, first, greatest),
    );
    write!(text, "<path class=\"")?;
    put_class(text, series)?;
    write!(text, "\" d=\"M{x},{y}")?;
    for level in changes {
        if level.series == series {
            let x = band.x_of(level.slot, cell);
            let y = height_of(band, level.pages, greatest);
            write!(text, "H{x}V{y}")?;
        }
    }
    let end = band.x_of(band.end, cell);
    write!(text, "H{end}\"><title>")?;
    match series.checked_sub(1) {
        Some(task) => write!(text, "tokens of task {task}")?,
        None => write!(text, "spare pages")?,
    }
    writeln!(text, "</title></path>")
}

/// Tells how high the curves of a band go.
fn put_names(text: &mut Vec<u8>, band: &Band, greatest: Greatest) -> io::Result<()> {
    let x = LEFT.saturating_sub(8);
    let y = band.bottom().saturating_add(ABOVE).saturating_add(17);
    let below = y.saturating_add(14);
    let Greatest { spare, tokens } = greatest;
    writeln!(
        text,
        "<text class=\"l\" x=\"{x}\" y=\"{y}\">spare pages: 0 to {spare}</text><text class=\"l\" x=\"{x}\" \
         y=\"{below}\">tokens: 0 to {tokens}</text>"
    )
}

/// Draws the curves of a band, which begin at the levels that stand, by series.
fn put_curves(
    text: &mut Vec<u8>,
    band: &Band,
    cell: u32,
    greatest: Greatest,
    now: &[u32],
    changes: &[Level],
) -> io::Result<()> {
    put_names(text, band, greatest)?;
    for series in 0..now.len() {
        let high = greatest.of_series(series);
        put_curve(text, band, cell, high, series, now[series], changes)?;
    }
    Ok(())
}

/// Draws the curves of all bands. `now` has a level for each series, all 0.
fn put_bands(
    text: &mut Vec<u8>,
    now: &mut Vec<u32>,
    levels: &[Level],
    layout: &Layout,
) -> io::Result<()> {
    let greatest = Greatest::of(levels);
    let mut read: usize = 0;
    for band in &layout.bands {
        let first = place_of(levels, read, band.first.saturating_add(1));
        take(now, some_of(levels, read, first));
        read = place_of(levels, first, band.end);
        let changes = some_of(levels, first, read);
        put_curves(text, band, layout.cell, greatest, now, changes)?;
        take(now, changes);
    }
    Ok(())
}

/// Draws the curves of all bands.
pub fn put_levels(
    alloc: Global,
    text: &mut Vec<u8>,
    scene: &Scene<'_>,
    layout: &Layout,
) -> io::Result<()> {
    let levels = scene.window.levels.as_slice();
    let mut now = vec![in alloc; 0u32; series_in(levels)]?;
    put_bands(text, &mut now, levels, layout)
}
