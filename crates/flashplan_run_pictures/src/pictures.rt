//! The picture of a die's slots, as SVG.

ghost use Rattle.slot_types.specs.Refusal.{FailsForMemory};

use crate::cells::{put_cells, put_gaps, put_waivers};
use crate::lanes::{put_labels, put_times, put_waits};
use crate::layouts::{ACROSS, Layout};
use crate::legends::{put_curves, put_head, put_legend, put_styles};
use crate::levels::{put_levels, series_in};
use crate::rows::Row;
use crate::rulers::{put_busy_interval, put_failure, put_rulers};
use crate::windows::{Whose, Window};
use flashplan_slot_times::Units;
use slot_types::Refusal;
use std::alloc::Global;
use std::io;
use std::io::Write;

/// The job or collection with the greatest lateness, and the busy interval of its certificate.
#[derive(Clone, Copy, Drop)]
pub struct Worst {
    pub whose: Whose,
    /// The first slot of the busy interval, which ends with the completion.
    pub start: u32,
    pub due: u32,
    pub completion: u32,
    pub lateness: i64,
}

/// What all slots of a run came to.
#[derive(Clone, Copy, Drop)]
pub struct Counts {
    /// How many blocks were erased.
    pub erased: u32,
    /// How many pages jobs wrote.
    pub written: u32,
    /// How many pages collections programmed.
    pub copied: u32,
}

/// What a picture shows.
#[derive(Clone, Copy)]
pub struct Scene<'a> {
    pub die: u32,
    /// How many dies the store has.
    pub dies: u32,
    /// How many slots the die carried out.
    pub slots: u32,
    pub counts: Counts,
    pub window: &'a Window,
    /// Those that have something in the window, by number.
    pub rows: &'a [Row],
    pub worst: Option<Worst>,
    /// The slot in which the die failed, if it did: it was not carried out, nor was a later one.
    pub failed: Option<u32>,
    /// In which units slots and pages are said.
    pub units: Units,
}

/// Draws what is behind the cells.
fn put_back(
    alloc: Global,
    text: &mut Vec<u8>,
    scene: &Scene<'_>,
    layout: &Layout,
) -> io::Result<()> {
    put_styles(text)?;
    put_head(text, scene)?;
    put_legend(text)?;
    put_curves(text, series_in(&scene.window.levels))?;
    put_busy_interval(text, scene, layout)?;
    put_rulers(text, scene.units, layout)?;
    put_levels(alloc, text, scene, layout)?;
    put_waits(text, layout)
}

/// Draws the cells, and what is before them.
fn put_front(
    alloc: Global,
    text: &mut Vec<u8>,
    scene: &Scene<'_>,
    layout: &Layout,
) -> io::Result<()> {
    put_gaps(alloc, text, scene, layout)?;
    put_cells(text, scene, layout)?;
    put_waivers(text, scene, layout)?;
    // After the waivers, so that the deadline of one that is late isn't hidden by its mark.
    put_times(text, scene, layout)?;
    put_labels(text, scene, layout)?;
    put_failure(text, scene, layout)
}

/// Draws all of it.
fn put_picture(
    alloc: Global,
    text: &mut Vec<u8>,
    scene: &Scene<'_>,
    layout: &Layout,
) -> io::Result<()> {
    let height = layout.height;
    writeln!(
        text,
        "<svg xmlns=\"http://www.w3.org/2000/svg\" width=\"{ACROSS}\" height=\"{height}\" viewBox=\"0 0 {ACROSS} {height}\">"
    )?;
    put_back(alloc, text, scene, layout)?;
    put_front(alloc, text, scene, layout)?;
    writeln!(text, "</svg>")
}

/// The text of a picture. The only refusal is NoMemory.
fn picture_in(alloc: Global, scene: &Scene<'_>, layout: &Layout) -> Result<Vec<u8>, Refusal>
    ensures { FailsForMemory result }
{
    let mut text = Vec::new(alloc);
    match put_picture(alloc, &mut text, scene, layout) {
        Ok(()) => Ok(text),
        Err(_) => Err(Refusal::NoMemory),
    }
}

/// Draws what the slots of a window carried, as the text of an SVG picture. The only refusal is NoMemory.
pub fn picture(alloc: Global, scene: &Scene<'_>) -> Result<Vec<u8>, Refusal>
    ensures { FailsForMemory result }
{
    let layout = Layout::new(alloc, scene.window, scene.rows, scene.slots)?;
    picture_in(alloc, scene, &layout)
}
