//! What was done in a window of slots.

ghost use Rattle.slot_types.specs.Refusal.{FailsForMemory};

use crate::briefs::{ActBrief, brief_of};
use slot_types::{Refusal, SlotReply};
use std::alloc::Global;

/// A job or a collection: its number, and whose it is.
#[derive(Clone, Copy, PartialEq, Eq, Drop)]
pub struct Whose {
    pub job: u32,
    pub collects: bool,
    pub task: u32,
}

impl Whose {
    /// What it is.
    pub fn kind(&self) -> &'static str {
        if self.collects { "collection" } else { "job" }
    }
}

/// What a slot carried.
#[derive(Clone, Copy, Drop)]
pub struct Carried {
    pub slot: u32,
    pub whose: Whose,
    pub brief: ActBrief,
    /// Whether it was done with it.
    pub last: bool,
}

/// A collection that was waived in a slot.
#[derive(Clone, Copy, Drop)]
pub struct Waiver {
    pub slot: u32,
    pub whose: Whose,
    pub given: u32,
}

/// Pages that are spare after a slot, or that a task may still ask to write: its tokens.
#[derive(Clone, Copy, Drop)]
pub struct Level {
    pub slot: u32,
    /// 0 for the spare pages, and for the tokens of a task one more than its number.
    pub series: usize,
    pub pages: u32,
}

/// The slots from `from` to before `to`, and what was done in them. Its memory grows with them, and with nothing else.
#[derive(Drop)]
pub struct Window {
    pub from: u32,
    pub to: u32,
    /// In the order of the slots.
    pub carried: Vec<Carried>,
    /// In the order of the slots.
    pub waived: Vec<Waiver>,
    /// In the order of the slots, each where it changes, and all in the first one.
    pub levels: Vec<Level>,
    /// By series its level so far.
    latest: Vec<u32>,
}

impl Window {
    /// A window in which nothing was done yet. It takes no memory.
    pub fn new(alloc: Global, from: u32, to: u32) -> Window {
        Window {
            from,
            to,
            carried: Vec::new(alloc),
            waived: Vec::new(alloc),
            levels: Vec::new(alloc),
            latest: Vec::new(alloc),
        }
    }

    /// Whether a slot is in the window.
    pub fn has(&self, slot: u32) -> bool {
        self.from <= slot && slot < self.to
    }

    /// Notes what a slot carried, and whose it was. The only refusal is NoMemory.
    pub fn note_carried(&mut self, reply: &SlotReply, whose: Whose) -> Result<(), Refusal>
        ensures { FailsForMemory result }
    {
        let Some((_, act)) = reply.ran else {
            return Ok(());
        };
        if !self.has(reply.slot) {
            return Ok(());
        }
        let carried = Carried {
            slot: reply.slot,
            whose,
            brief: brief_of(act),
            last: reply.finished.is_some(),
        };
        self.carried.push(carried)?;
        Ok(())
    }

    /// Notes a collection that was waived in a slot. The only refusal is NoMemory.
    pub fn note_waived(&mut self, waiver: Waiver) -> Result<(), Refusal>
        ensures { FailsForMemory result }
    {
        if !self.has(waiver.slot) {
            return Ok(());
        }
        self.waived.push(waiver)?;
        Ok(())
    }

    /// Notes a level of a series after a slot of the window, where it has changed. The only refusal is NoMemory.
    pub fn note_level(&mut self, level: Level) -> Result<(), Refusal>
        ensures { FailsForMemory result }
    {
        for _ in self.latest.len()..level.series.saturating_add(1) {
            self.latest.push(u32::MAX)?;
        }
        if let Some(latest) = self.latest.get_mut(level.series) {
            if *latest == level.pages {
                return Ok(());
            }
            *latest = level.pages;
        }
        self.levels.push(level)?;
        Ok(())
    }
}
