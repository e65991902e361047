//! What the pages of a die may read as.

use crate::wrongs::Wrong;
use slot_types::{Act, PageData};
use std::alloc::Global;

/// The write that a die was asked for last.
#[derive(Clone, Copy, PartialEq, Eq, Debug, Drop)]
pub(crate) struct Asked {
    pub(crate) page: u32,
    pub(crate) bytes: PageData,
}

/// By page the bytes of its last finished write; blank where there is none. And the write that was asked for and isn't
/// finished: once the power has gone, its page may have it.
#[derive(Drop)]
pub(crate) struct Pages {
    last: Vec<PageData>,
    asked: Option<Asked>,
}

impl Pages {
    pub(crate) fn new(alloc: Global, logical: u32) -> Result<Pages, Wrong> {
        Ok(Pages {
            last: vec![in alloc; PageData::BLANK; logical as usize]?,
            asked: None,
        })
    }

    pub(crate) fn ask(&mut self, asked: Asked) {
        self.asked = Some(asked);
    }

    fn set(&mut self, page: u32, bytes: PageData) {
        if let Some(last) = self.last.get_mut(page as usize) {
            *last = bytes;
        }
    }

    fn is_last(&self, page: u32, bytes: PageData) -> bool {
        match self.last.get(page as usize) {
            Some(last) => *last == bytes,
            None => false,
        }
    }

    /// An act was carried out: a read has to give the last finished write.
    pub(crate) fn take(&mut self, act: Act) -> Result<(), Wrong> {
        match act {
            Act::Write { page, bytes } => {
                self.set(page, bytes);
                self.asked = None;
                Ok(())
            }
            Act::Read { page, bytes } if !self.is_last(page, bytes) => Err(Wrong::Read { page }),
            _ => Ok(()),
        }
    }

    /// The first read of a page after the power went: it gives the last finished write, or the one that was in progress.
    /// From then on it is what the page has.
    pub(crate) fn find(&mut self, act: Act) -> Result<(), Wrong> {
        let Act::Read { page, bytes } = act else {
            return Ok(());
        };
        if self.is_last(page, bytes) {
            return Ok(());
        }
        if self.asked == Some(Asked { page, bytes }) {
            self.set(page, bytes);
            return Ok(());
        }
        Err(Wrong::Read { page })
    }

    /// Each page was found: nothing is in progress any more.
    pub(crate) fn all_found(&mut self) {
        self.asked = None;
    }
}
