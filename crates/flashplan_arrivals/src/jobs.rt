//! The jobs of a task, as the most that its plan lets it ask for.

ghost use Rattle.std.specs.Prelude.{◌≡◌, false, get_or};

use crate::chances::Chance;
use crate::ops::{put_other, put_write};
use crate::pages::Share;
use slot_types::TaskTimes;
use std::io;
use std::io::Write;

/// A task, the times that it has, and its pages.
#[derive(Clone, Copy, Drop)]
pub struct Asker<'a> {
    pub die: u32,
    pub task: u32,
    pub times: TaskTimes,
    pub share: Share,
    /// By page of the die whether it lies in a cell already; a page beyond these doesn't.
    pub held: &'a [bool],
    /// How many of its pages it still writes in order: those that don't.
    pub to_fill: u32,
    /// The place among its pages from which on it looks for the next of these.
    pub place: u32,
    /// Whether it trims pages.
    pub trims: bool,
    /// The slot of its next job.
    pub next: u32,
}

/// Whether a page lies in a cell already; one beyond those that are known doesn't.
fn is_held(held: &[bool], page: u32) -> bool
    ensures { result ≡ get_or held.now page false }
{
    held.get(page as usize).copied().unwrap_or(false)
}

/// How many pages of a share don't lie in a cell yet.
pub fn missing_in(share: Share, held: &[bool]) -> u32 {
    let mut count: u32 = 0;
    for place in 0..share.count() {
        if !is_held(held, share.page_at(place)) {
            count = count.saturating_add(1);
        }
    }
    count
}

impl Asker<'_> {
    /// The page of a write: the next one that is written in order, or one that is drawn.
    fn written_page(&mut self, drawn: u32) -> u32 {
        if self.to_fill == 0 {
            return drawn;
        }
        for place in self.place..self.share.count() {
            let page = self.share.page_at(place);
            if !is_held(self.held, page) {
                self.place = place.saturating_add(1);
                self.to_fill = self.to_fill.saturating_sub(1);
                return page;
            }
        }
        drawn
    }

    /// Adds the operations of a job that is released in a slot: as many as the plan has, and of these as many writes, at
    /// places that are drawn.
    fn put_ops(&mut self, text: &mut Vec<u8>, chance: &mut Chance, slot: u32) -> io::Result<()> {
        let mut writes = self.times.writes;
        for place in 0..self.times.work {
            if place > 0 {
                text.push(b' ')?;
            }
            let left = self.times.work.saturating_sub(place);
            let drawn = self.share.draw(chance);
            if chance.below(left) < writes {
                let page = self.written_page(drawn);
                put_write(text, self.task, page, slot, place)?;
                writes = writes.saturating_sub(1);
            } else {
                put_other(text, chance, drawn, self.trims)?;
            }
        }
        Ok(())
    }

    /// Adds the record of the task's job in a slot.
    pub fn put_job(
        &mut self,
        text: &mut Vec<u8>,
        chance: &mut Chance,
        slot: u32,
    ) -> io::Result<()> {
        let (die, task) = (self.die, self.task);
        let due = slot.saturating_add(self.times.period);
        write!(text, "{slot},{die},{task},job,{slot},{due},")?;
        self.put_ops(text, chance, slot)?;
        text.push(b'\n')?;
        Ok(())
    }

    /// Adds the record of the task's collection in a slot.
    pub fn put_collection(&self, text: &mut Vec<u8>, slot: u32) -> io::Result<()> {
        let (die, task) = (self.die, self.task);
        let due = slot.saturating_add(self.times.collect_period);
        write!(text, "{slot},{die},{task},collect,{slot},{due},")?;
        text.push(b'\n')?;
        Ok(())
    }
}
