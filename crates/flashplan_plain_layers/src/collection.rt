//! A collection that runs.

use crate::cells::Cells;

/// What a slot of a collection did.
#[derive(Clone, Copy, PartialEq, Eq, Debug, Drop)]
pub(crate) enum Step {
    /// It read a page, or carried out a part of the erase that isn't the last.
    On,
    /// It programmed a page.
    Copied,
    /// It carried out the last part of the erase.
    Erased,
}

/// A collection: it reads and programs each page that lies in its victim, and then erases it.
#[derive(Clone, Copy, Debug, Drop)]
pub(crate) struct Collection {
    victim: usize,
    /// The place in the victim from which on pages are looked for.
    next: usize,
    /// A page that was read, where it lay, and the write that it holds.
    buffer: Option<(u32, usize, u32)>,
    /// How many parts of the erase were carried out.
    erased: u32,
    /// Few blocks were wholly free while it ran.
    pub(crate) urgent: bool,
}

impl Collection {
    /// A collection of this block, of which nothing was done yet.
    pub(crate) fn new(victim: usize) -> Collection {
        Collection {
            victim,
            next: 0,
            buffer: None,
            erased: 0,
            urgent: false,
        }
    }

    /// Whether its next slot is a copy's, by these cells.
    pub(crate) fn copies(&self, cells: &Cells) -> bool {
        self.erased == 0 && (self.buffer.is_some() || cells.valid(self.victim) > 0)
    }

    /// How many free pages it may still need.
    pub(crate) fn needs(&self, cells: &Cells) -> usize {
        if self.erased > 0 {
            return 0;
        }
        cells.valid(self.victim)
    }

    // Programs the page in the buffer, unless it has left the place where it was read. Tells whether it did.
    fn program(&mut self, cells: &mut Cells) -> bool {
        let Some((page, cell, write)) = self.buffer.take() else {
            return false;
        };
        cells.place(page) == Some(cell) && cells.program(page, write)
    }

    // Reads the victim's next page, if there is one. Tells whether there was.
    fn read(&mut self, cells: &Cells, pages: usize) -> bool {
        for place in self.next..pages {
            self.next = place.saturating_add(1);
            let Some(page) = cells.owner(self.victim, place) else {
                continue;
            };
            if let Some(cell) = cells.place(page) {
                self.buffer = Some((page, cell, cells.write_of(page)));
                return true;
            }
        }
        false
    }

    /// Carries out a slot of it, on a die whose blocks have `pages` pages and whose erase takes `erase_slots` slots.
    pub(crate) fn step(&mut self, cells: &mut Cells, pages: usize, erase_slots: u32) -> Step {
        if self.program(cells) {
            return Step::Copied;
        }
        if self.read(cells, pages) {
            return Step::On;
        }
        self.erased = self.erased.saturating_add(1);
        if self.erased < erase_slots {
            return Step::On;
        }
        cells.erase(self.victim);
        Step::Erased
    }
}
