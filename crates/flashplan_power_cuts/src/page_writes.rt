//! Writes of pages.

use slot_types::PageData;

/// That these bytes were written on a logical page.
#[derive(Clone, Copy, PartialEq, Eq, Drop)]
pub struct PageWrite {
    pub page: u32,
    pub bytes: PageData,
}
