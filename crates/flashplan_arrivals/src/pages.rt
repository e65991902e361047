//! Which pages a task asks for.

use crate::chances::Chance;

/// The pages of a task: `first`, and then each `step` after the one before, as far as the die has pages. Where the
/// first one lies beyond them, it is one page.
#[derive(Clone, Copy, PartialEq, Eq, Debug, Drop)]
pub struct Share {
    pub first: u32,
    pub step: u32,
    /// How many pages the die has.
    pub logical: u32,
}

impl Share {
    /// How many pages there are.
    pub fn count(&self) -> u32 {
        let beyond = self.logical.saturating_sub(1).saturating_sub(self.first);
        (beyond / self.step.max(1)).saturating_add(1)
    }

    /// The page at a place, from 0.
    pub fn page_at(&self, place: u32) -> u32 {
        let page = self.first.saturating_add(self.step.saturating_mul(place));
        page % self.logical.max(1)
    }

    /// One of the pages.
    pub fn draw(&self, chance: &mut Chance) -> u32 {
        self.page_at(chance.below(self.count()))
    }
}
