//! What the pages of a die are to read as, and how many calls of the part its acts took.

use crate::parts::ERASE_SLOTS;
use crate::wrongs::Wrong;
use slot_types::{Act, PageData};
use std::alloc::Global;

/// By page the bytes of its last finished write; blank where there is none. And how many programs and slots of erases
/// there were.
#[derive(Drop)]
pub(crate) struct Pages {
    last: Vec<PageData>,
    programs: u64,
    slots: u64,
}

impl Pages {
    pub(crate) fn new(alloc: Global, logical: u32) -> Result<Pages, Wrong> {
        Ok(Pages {
            last: vec![in alloc; PageData::BLANK; logical as usize]?,
            programs: 0,
            slots: 0,
        })
    }

    /// What the page is to read as.
    pub(crate) fn of(&self, page: u32) -> PageData {
        match self.last.get(page as usize) {
            Some(bytes) => *bytes,
            None => PageData::BLANK,
        }
    }

    /// An act was carried out: a read has to give the last finished write.
    pub(crate) fn take(&mut self, act: Act) -> Result<(), Wrong> {
        match act {
            Act::Write { page, bytes } => {
                if let Some(last) = self.last.get_mut(page as usize) {
                    *last = bytes;
                }
                self.programs = self.programs.saturating_add(1);
            }
            Act::CopyProgram { .. } => self.programs = self.programs.saturating_add(1),
            Act::Erase { .. } => self.slots = self.slots.saturating_add(1),
            Act::Read { page, bytes } => {
                if bytes != self.of(page) {
                    return Err(Wrong::Read { page });
                }
            }
            _ => {}
        }
        Ok(())
    }

    /// How many of these calls may fail on a part: the programs, and the last slots of erases. One erase at a time runs.
    pub(crate) fn failing_calls(&self) -> u64 {
        self.programs
            .saturating_add(self.slots / u64::from(ERASE_SLOTS))
    }
}
