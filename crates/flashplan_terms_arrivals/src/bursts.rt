//! The bursts of a task, as the most that its terms let it ask for.

use demand_rules::TaskTerms;
use flashplan_arrivals::{Chance, Share, put_other, put_write};
use slot_types::MAX_OPS;
use std::io;
use std::io::Write;

/// A task, its terms, and its pages.
#[derive(Clone, Copy, Drop)]
pub(crate) struct Asker {
    pub(crate) die: u32,
    pub(crate) task: u32,
    pub(crate) terms: TaskTerms,
    pub(crate) share: Share,
}

impl Asker {
    /// Begins the record of a job that is released in the slot in which it comes, and due as soon as may be.
    fn begin_job(&self, text: &mut Vec<u8>, slot: u32) -> io::Result<()> {
        let (die, task) = (self.die, self.task);
        let due = slot.saturating_add(self.terms.deadline);
        write!(text, "{slot},{die},{task},job,{slot},{due},")
    }

    /// Adds what comes before an operation: the record of its job, where it is the first of one, which ends the one before.
    fn put_front(&self, text: &mut Vec<u8>, slot: u32, place: u32) -> io::Result<()> {
        if place % MAX_OPS != 0 {
            text.push(b' ')?;
            return Ok(());
        }
        if place > 0 {
            text.push(b'\n')?;
        }
        self.begin_job(text, slot)
    }

    /// Adds the records of a burst: jobs of at most 64 operations, which come in a slot and have all operations together
    /// that the task may ask for in a period, and of these as many writes, at places that are drawn.
    pub(crate) fn put_burst(
        &self,
        text: &mut Vec<u8>,
        chance: &mut Chance,
        slot: u32,
    ) -> io::Result<()> {
        let trims = self.terms.writes > 0;
        let mut writes = self.terms.writes;
        for place in 0..self.terms.work {
            self.put_front(text, slot, place)?;
            let left = self.terms.work.saturating_sub(place);
            let page = self.share.draw(chance);
            if chance.below(left) < writes {
                put_write(text, self.task, page, slot, place)?;
                writes = writes.saturating_sub(1);
            } else {
                put_other(text, chance, page, trims)?;
            }
        }
        text.push(b'\n')?;
        Ok(())
    }

    /// Adds the record of the task's collection in a slot.
    pub(crate) fn put_collection(&self, text: &mut Vec<u8>, slot: u32) -> io::Result<()> {
        let (die, task) = (self.die, self.task);
        let due = slot.saturating_add(self.terms.collect_deadline);
        writeln!(text, "{slot},{die},{task},collect,{slot},{due},")
    }
}
