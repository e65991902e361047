//! What a cell shows to a mount.

use die_mount::Label;
use slot_types::PageData;

/// What a cell of a device shows.
#[derive(Clone, Copy, PartialEq, Eq, Debug, Drop)]
pub enum Look {
    /// A whole program: its label, and the bytes of the page.
    Good { label: Label, bytes: PageData },
    /// A program that was cut, or a cell that can't be read.
    Torn,
    /// It looks blank, or it isn't known what it is.
    Blank,
}
