//! Where things stand in a picture: slots go from left to right, in bands that stand one below the other; and in each
//! band those that have something there, a lane each.

ghost use Rattle.std.specs.Prelude.{◌<◌};
ghost use Rattle.slot_types.specs.Refusal.{FailsForMemory};

use crate::rows::Row;
use crate::spans::{Span, Waiting, key_of, spans_of};
use crate::windows::{Whose, Window};
use slot_types::Refusal;
use std::alloc::Global;

/// How wide a picture is.
pub const ACROSS: u64 = 1180;
/// How wide the slots of a band are together.
pub const SPAN: u32 = 1000;
/// Where the first slot of a band begins, from the left.
pub const LEFT: u64 = 150;
/// Where the first band begins, from the top.
const TOP: u64 = 124;
/// The height of a band's ruler.
pub const RULER: u64 = 18;
/// The height of a lane.
pub const LANE: u64 = 18;
/// What lies between two bands.
const GAP: u64 = 16;
/// The height of a band's curves, with a margin.
pub const CURVES: u64 = 56;
/// The most lanes of a band where each job has its own.
const MOST_LANES: usize = 40;

/// Slots in a row, with the lanes of those that have something there.
#[derive(Drop)]
pub struct Band {
    /// Its first slot.
    pub first: u32,
    /// The slot before which it ends.
    pub end: u32,
    /// Where it begins, from the top.
    pub top: u64,
    /// By lane, rising: the number of its job, or twice the number of its task, and one more for collections.
    pub keys: Vec<u32>,
}

/// A place: the left upper corner of a slot in a lane.
#[derive(Clone, Copy, Drop)]
pub struct Spot {
    pub x: u64,
    pub y: u64,
}

/// Where things stand.
#[derive(Drop)]
pub struct Layout {
    /// The width of a slot.
    pub cell: u32,
    /// How many slots a band has; the last one may have fewer.
    across: u32,
    /// Whether each task has a lane for its jobs, and one for its collections.
    pub by_task: bool,
    from: u32,
    pub bands: Vec<Band>,
    /// The slots in which jobs wait, by lane.
    pub waits: Vec<Span>,
    /// The height of the picture.
    pub height: u64,
}

/// How wide a slot is, in a picture of `slots` slots.
fn cell_of(slots: u32) -> u32 {
    if slots <= 25 {
        40
    } else if slots <= 50 {
        20
    } else {
        10
    }
}

impl Band {
    /// Where a slot begins, from the left.
    pub fn x_of(&self, slot: u32, cell: u32) -> u64 {
        let column = u64::from(slot.saturating_sub(self.first));
        LEFT.saturating_add(column.saturating_mul(u64::from(cell)))
    }

    /// Where a lane begins, from the top.
    pub fn y_of(&self, lane: usize) -> u64 {
        let lanes = (lane as u64).saturating_mul(LANE);
        self.top.saturating_add(RULER).saturating_add(lanes)
    }

    /// Where it ends, from the top.
    pub fn bottom(&self) -> u64 {
        self.y_of(self.keys.len())
    }

    /// The lane of a key.
    pub fn lane_of(&self, key: u32) -> Option<usize> {
        self.keys.iter().position(|k| *k == key)
    }

    /// Gives a key a lane, and says whether there are too many of them.
    fn add(&mut self, key: u32) -> Result<bool, Refusal>
        ensures { FailsForMemory result }
    {
        if self.lane_of(key).is_some() {
            return Ok(false);
        }
        self.keys.push(key)?;
        Ok(self.keys.len() > MOST_LANES)
    }
}

/// Adds bands for a window, each of `across` slots, without lanes. The only refusal is NoMemory.
fn put_bands(
    alloc: Global,
    bands: &mut Vec<Band>,
    window: &Window,
    across: u32,
) -> Result<(), Refusal>
    requires { 0 < across }
    ensures { FailsForMemory result }
{
    let slots = window.to.saturating_sub(window.from);
    for band in 0..slots.div_ceil(across) {
        let first = window.from.saturating_add(band.saturating_mul(across));
        bands.push(Band {
            first,
            end: first.saturating_add(across).min(window.to),
            top: 0,
            keys: Vec::new(alloc),
        })?;
    }
    Ok(())
}

impl Layout {
    /// Bands for a window, without lanes, with slots that are so wide.
    fn empty(alloc: Global, window: &Window, cell: u32, by_task: bool) -> Result<Layout, Refusal>
        ensures { FailsForMemory result }
    {
        let across = (SPAN / cell.max(1)).max(1);
        let mut bands = Vec::new(alloc);
        put_bands(alloc, &mut bands, window, across)?;
        Ok(Layout {
            cell,
            across,
            by_task,
            from: window.from,
            bands,
            waits: Vec::new(alloc),
            height: 0,
        })
    }

    /// The number of a slot's band.
    pub fn band_of(&self, slot: u32) -> usize {
        (slot.saturating_sub(self.from) / self.across.max(1)) as usize
    }

    /// Gives a key a lane in a band, and says whether that has too many.
    fn add_to(&mut self, band: usize, key: u32) -> Result<bool, Refusal>
        ensures { FailsForMemory result }
    {
        match self.bands.get_mut(band) {
            Some(band) => band.add(key),
            None => Ok(false),
        }
    }

    /// Gives a job a lane in the band of a slot, and says whether that has too many.
    fn add_at(&mut self, slot: u32, whose: Whose) -> Result<bool, Refusal>
        ensures { FailsForMemory result }
    {
        self.add_to(self.band_of(slot), key_of(whose, self.by_task))
    }

    /// The bands of slots of the window, from one to before another: from one band to before another.
    fn bands_between(&self, first: u32, end: u32) -> (usize, usize) {
        if first < end {
            (self.band_of(first), self.band_of(end - 1).saturating_add(1))
        } else {
            (0, 0)
        }
    }

    /// The bands in which a row waits, from one to before another, in a run of `slots` slots.
    pub fn bands_of(&self, row: &Row, window: &Window, slots: u32) -> (usize, usize) {
        let first = row.release.max(window.from);
        self.bands_between(first, row.until(slots).min(window.to))
    }

    /// The bands of a span, from one to before another.
    pub fn bands_in(&self, span: &Span) -> (usize, usize) {
        self.bands_between(span.first, span.end)
    }

    /// Gives the lane of a span its place in each band of it, and says whether one has too many.
    fn add_span(&mut self, span: &Span) -> Result<bool, Refusal>
        ensures { FailsForMemory result }
    {
        let mut full = false;
        let (first, end) = self.bands_in(span);
        for band in first..end {
            full |= self.add_to(band, span.key)?;
        }
        Ok(full)
    }

    /// Gives a row a lane where its deadline is, and where it was waived, and says whether a band has too many.
    fn add_row(&mut self, row: &Row, window: &Window) -> Result<bool, Refusal>
        ensures { FailsForMemory result }
    {
        let mut full = false;
        if row.is_waived() && window.has(row.release) {
            full |= self.add_at(row.release, row.whose)?;
        }
        let due = row.last_in_time();
        if window.has(due) {
            full |= self.add_at(due, row.whose)?;
        }
        Ok(full)
    }

    /// Gives a lane to each that waits, and says whether a band has too many.
    fn add_spans(&mut self, spans: &[Span]) -> Result<bool, Refusal>
        ensures { FailsForMemory result }
    {
        for span in spans {
            if self.add_span(span)? && !self.by_task {
                return Ok(true);
            }
        }
        Ok(false)
    }

    /// Gives all others their lanes, and says whether a band has too many.
    fn add_all(&mut self, window: &Window, rows: &[Row]) -> Result<bool, Refusal>
        ensures { FailsForMemory result }
    {
        for row in rows {
            if self.add_row(row, window)? && !self.by_task {
                return Ok(true);
            }
        }
        for waiver in &window.waived {
            if self.add_at(waiver.slot, waiver.whose)? && !self.by_task {
                return Ok(true);
            }
        }
        Ok(false)
    }

    /// Puts the lanes in their order, and the bands one below the other.
    fn place(&mut self) {
        let mut top = TOP;
        for band in &mut self.bands {
            band.keys.sort_unstable();
            band.top = top;
            top = band.bottom().saturating_add(CURVES).saturating_add(GAP);
        }
        self.height = top;
    }

    /// Where the window's jobs stand, in a run of `slots` slots: a lane a job, or a lane a task where a band would have
    /// too many. The only refusal is NoMemory.
    pub fn new(alloc: Global, window: &Window, rows: &[Row], slots: u32) -> Result<Layout, Refusal>
        ensures { FailsForMemory result }
    {
        let cell = cell_of(window.to.saturating_sub(window.from));
        Layout::of(alloc, window, rows, slots, cell)
    }

    /// A lane a job, or a lane a task, with slots that are so wide; and whether a band has too many. The only refusal is
    /// NoMemory.
    fn with_lanes(
        alloc: Global,
        window: &Window,
        rows: &[Row],
        slots: u32,
        cell: u32,
        by_task: bool,
    ) -> Result<(Layout, bool), Refusal>
        ensures { FailsForMemory result }
    {
        let waits = spans_of(alloc, window, rows, slots, by_task, Waiting::Any)?;
        let mut layout = Layout::empty(alloc, window, cell, by_task)?;
        let full = layout.add_spans(&waits)? || layout.add_all(window, rows)?;
        layout.place();
        layout.waits = waits;
        Ok((layout, full))
    }

    /// The same as [`new`](Layout::new), with slots that are so wide.
    pub fn of(
        alloc: Global,
        window: &Window,
        rows: &[Row],
        slots: u32,
        cell: u32,
    ) -> Result<Layout, Refusal>
        ensures { FailsForMemory result }
    {
        let (by_job, full) = Layout::with_lanes(alloc, window, rows, slots, cell, false)?;
        if !full {
            return Ok(by_job);
        }
        let (by_task, _) = Layout::with_lanes(alloc, window, rows, slots, cell, true)?;
        Ok(by_task)
    }

    /// The band of a slot, if it is in the window.
    pub fn band_at(&self, slot: u32) -> Option<&Band> {
        if slot < self.from {
            return None;
        }
        self.bands.get(self.band_of(slot))
    }

    /// The band of a slot, and the lane of a job in it.
    pub fn place_of(&self, slot: u32, whose: Whose) -> Option<(usize, usize)> {
        let lane = self.band_at(slot)?.lane_of(key_of(whose, self.by_task))?;
        Some((self.band_of(slot), lane))
    }

    /// Where a slot of a job stands.
    pub fn spot(&self, slot: u32, whose: Whose) -> Option<Spot> {
        let band = self.band_at(slot)?;
        let lane = band.lane_of(key_of(whose, self.by_task))?;
        Some(Spot {
            x: band.x_of(slot, self.cell),
            y: band.y_of(lane),
        })
    }
}
