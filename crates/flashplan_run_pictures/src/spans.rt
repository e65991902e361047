//! How long the jobs of a lane wait, as slots that don't overlap: so they are as many as the jobs at most, however many of
//! them wait at once.

ghost use Rattle.slot_types.specs.Refusal.{FailsForMemory};

use crate::rows::Row;
use crate::windows::{Whose, Window};
use slot_types::Refusal;
use std::alloc::Global;

/// Slots in which a job of a lane waits, or several do.
#[derive(Clone, Copy, PartialEq, Eq, PartialOrd, Ord, Drop)]
pub struct Span {
    /// The key of the lane.
    pub key: u32,
    /// The first of the slots.
    pub first: u32,
    /// The slot before which they end.
    pub end: u32,
}

/// Which waiting is meant.
#[derive(Clone, Copy, PartialEq, Eq, Drop)]
pub enum Waiting {
    /// All of it.
    Any,
    /// What lies past the deadline.
    Late,
}

/// The key of a job's lane: its number; or where each task has two lanes, twice the task's number, and one more for a
/// collection.
pub fn key_of(whose: Whose, by_task: bool) -> u32 {
    if by_task {
        whose
            .task
            .saturating_mul(2)
            .saturating_add(u32::from(whose.collects))
    } else {
        whose.job
    }
}

impl Span {
    /// Whether another one, which begins no sooner, goes on where this one ends, or before.
    fn meets(&self, next: &Span) -> bool {
        self.key == next.key && next.first <= self.end
    }

    /// This one and one that it meets.
    fn with(self, next: &Span) -> Span {
        Span {
            end: self.end.max(next.end),
            ..self
        }
    }
}

/// The slots of a window in which a row waits, in a run of `slots` slots; none of a collection that was waived.
fn span_of(
    row: &Row,
    window: &Window,
    slots: u32,
    by_task: bool,
    waiting: Waiting,
) -> Option<Span> {
    if row.is_waived() {
        return None;
    }
    let first = match waiting {
        Waiting::Any => row.release,
        Waiting::Late => row.release.max(row.due),
    };
    let span = Span {
        key: key_of(row.whose, by_task),
        first: first.max(window.from),
        end: row.until(slots).min(window.to),
    };
    if span.first < span.end {
        Some(span)
    } else {
        None
    }
}

/// Spans, of which those that meet are one. These are rising. The only refusal is NoMemory.
fn joined(alloc: Global, rising: &[Span]) -> Result<Vec<Span>, Refusal>
    ensures { FailsForMemory result }
{
    let mut joined = Vec::new(alloc);
    let mut open: Option<Span> = None;
    for span in rising {
        open = match open {
            Some(last) if last.meets(span) => Some(last.with(span)),
            Some(last) => {
                joined.push(last)?;
                Some(*span)
            }
            None => Some(*span),
        };
    }
    if let Some(last) = open {
        joined.push(last)?;
    }
    Ok(joined)
}

/// The slots of a window in which jobs wait, by lane, and rising in each, in a run of `slots` slots. The only refusal
/// is NoMemory.
pub fn spans_of(
    alloc: Global,
    window: &Window,
    rows: &[Row],
    slots: u32,
    by_task: bool,
    waiting: Waiting,
) -> Result<Vec<Span>, Refusal>
    ensures { FailsForMemory result }
{
    let mut spans = Vec::new(alloc);
    for row in rows {
        if let Some(span) = span_of(row, window, slots, by_task, waiting) {
            spans.push(span)?;
        }
    }
    spans.as_mut_slice().sort(alloc)?;
    joined(alloc, spans.as_slice())
}
