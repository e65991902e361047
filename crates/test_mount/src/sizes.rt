//! Plans by chance, as tight as they may be, and what a mount may take by hand.

use rand_core::utils::NextWord;
use rand_pcg::Pcg32;
use slot_types::{Caps, DiePlan, Refusal, Shape};
use std::alloc::Global;

/// A plan by its numbers. Each task has the same cap.
#[derive(Clone, Copy, PartialEq, Eq, Debug, Drop)]
pub struct Sizes {
    /// Of the die. The part has one more.
    pub blocks: u32,
    pub pages: u32,
    pub slots: u32,
    pub logical: u32,
    pub alpha: u32,
    pub tasks: u32,
    pub cap: u32,
}

/// A number from one on, up to another one.
fn within(words: &mut Pcg32, most: u32) -> u32 {
    (words.next_word() % most.max(1)).saturating_add(1)
}

impl Sizes {
    /// A small plan. Where the fewest blocks are closed, they are `closed`; and one page more would be too many.
    pub fn by_chance(words: &mut Pcg32) -> Sizes {
        let pages = within(words, 5).saturating_add(1);
        let alpha = within(words, pages);
        let mut sizes = Sizes {
            blocks: 0,
            pages,
            slots: within(words, 3),
            logical: 0,
            alpha,
            tasks: within(words, 2),
            cap: within(words, pages),
        };
        let most_free = alpha.saturating_sub(1).saturating_add(sizes.accounts());
        let closed = within(words, 4).saturating_add(1);
        sizes.blocks = (most_free / pages.max(1))
            .saturating_add(sizes.tasks)
            .saturating_add(closed);
        let kept = pages.saturating_sub(alpha).saturating_add(1);
        sizes.logical = closed.saturating_mul(kept).saturating_sub(1);
        sizes
    }

    /// As many free pages as full accounts have: all caps, and by task the rest of a block without alpha.
    pub fn accounts(self) -> u32 {
        let own = self
            .cap
            .saturating_add(self.pages.saturating_sub(self.alpha));
        self.tasks.saturating_mul(own)
    }

    /// How many calls a mount has at most: the slots of its first erase; and for each alpha of the pages of full
    /// accounts the slots of an erase, and a read and a program of each page of a block but alpha.
    pub fn most_calls(self) -> u64 {
        let rounds = self.accounts().div_ceil(self.alpha.max(1)) as u64;
        let copies = self.pages.saturating_sub(self.alpha) as u64;
        let round = copies.saturating_mul(2).saturating_add(self.slots as u64);
        rounds
            .saturating_mul(round)
            .saturating_add(self.slots as u64)
    }

    /// How many blocks the part has.
    pub fn part_blocks(self) -> u32 {
        self.blocks.saturating_add(1)
    }

    pub fn plan(self, alloc: Global) -> Result<DiePlan, Refusal> {
        Ok(DiePlan {
            shape: Shape {
                blocks: self.blocks,
                pages: self.pages,
                erase_slots: self.slots,
            },
            logical: self.logical,
            alpha: self.alpha,
            caps: Caps::from_vec(vec![in alloc; self.cap; self.tasks as usize]?),
            times: None,
        })
    }
}
