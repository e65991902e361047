//! The jobs and collections that a picture shows.

use crate::windows::{Whose, Window};

/// What became of a job or a collection by the end of the run.
#[derive(Clone, Copy, PartialEq, Eq, Drop)]
pub enum End {
    Waiting,
    Done { completion: u32 },
    /// A collection was waived in this slot, if that lies in the window; else its release stands for it.
    Waived { slot: u32 },
}

/// A job or a collection, as it was accepted, and what became of it.
#[derive(Clone, Copy, Drop)]
pub struct Row {
    pub whose: Whose,
    pub release: u32,
    pub due: u32,
    pub end: End,
}

impl Row {
    /// The slot before which it waited no more, of a run of `slots` slots.
    pub fn until(&self, slots: u32) -> u32 {
        match self.end {
            End::Waiting => slots,
            End::Done { completion } => completion,
            End::Waived { slot } => slot.saturating_add(1),
        }
    }

    /// Whether it is a collection that was waived.
    pub fn is_waived(&self) -> bool {
        match self.end {
            End::Waived { .. } => true,
            _ => false,
        }
    }

    /// The last slot in which it can be done in time.
    pub fn last_in_time(&self) -> u32 {
        self.due.saturating_sub(1)
    }

    /// Whether it waited in a slot of the window, or its deadline lies there, in a run of `slots` slots.
    pub fn is_seen(&self, window: &Window, slots: u32) -> bool {
        let first = self.release.max(window.from);
        let waited = first < self.until(slots).min(window.to);
        waited || window.has(self.last_in_time())
    }
}
