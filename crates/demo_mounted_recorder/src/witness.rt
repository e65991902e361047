//! What is known of the pages without the die.

use crate::plan::PAGES;
use crate::stops::Stop;

/// The number of a page's last finished write, and of the one that was asked for last.
#[derive(Clone, Copy, PartialEq, Eq, Drop)]
pub(crate) struct Known {
    pub(crate) done: u64,
    pub(crate) asked: u64,
}

/// What is known of each page.
#[derive(Clone, Copy, Drop)]
pub(crate) struct Witness {
    pub(crate) pages: [Known; PAGES],
}

impl Witness {
    /// The pages have the writes of these numbers, and no more was asked for.
    pub(crate) fn of(numbers: &[u64; PAGES]) -> Witness {
        let mut pages = [Known { done: 0, asked: 0 }; PAGES];
        for (known, number) in pages.iter_mut().zip(numbers) {
            *known = Known {
                done: *number,
                asked: *number,
            };
        }
        Witness { pages }
    }

    fn known(&self, page: u32) -> Known {
        match self.pages.get(page as usize) {
            Some(known) => *known,
            None => Known { done: 0, asked: 0 },
        }
    }

    fn set(&mut self, page: u32, known: Known) {
        if let Some(old) = self.pages.get_mut(page as usize) {
            *old = known;
        }
    }

    /// A write of this number is asked for.
    pub(crate) fn ask(&mut self, page: u32, number: u64) {
        let done = self.known(page).done;
        self.set(
            page,
            Known {
                done,
                asked: number,
            },
        );
    }

    /// The write that was asked for is done.
    pub(crate) fn finish(&mut self, page: u32) {
        let asked = self.known(page).asked;
        self.set(page, Known { done: asked, asked });
    }

    /// Whether a write of the page was asked for and isn't done.
    pub(crate) fn is_open(&self, page: u32) -> bool {
        let known = self.known(page);
        known.done != known.asked
    }

    /// The page is found with the write of this number. That has to be its last finished one, or the one that was asked
    /// for after it, which may have been in progress when the power went.
    pub(crate) fn find(&mut self, page: u32, number: u64) -> Result<(), Stop> {
        let Known { done, asked } = self.known(page);
        if number != done && number != asked {
            return Err(Stop::Lost { page, number, done });
        }
        self.set(
            page,
            Known {
                done: number,
                asked: number,
            },
        );
        Ok(())
    }
}
