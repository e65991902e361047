//! What the cells of a part show.

use die_mount::Label;
use slot_types::PageData;

/// What a cell shows, and whether it may be programmed.
#[derive(Clone, Copy, PartialEq, Eq, Drop)]
pub enum Cell {
    /// It was erased since the power came, and may be programmed.
    Erased,
    /// It looks as if it were erased. Whether it may be programmed nobody knows.
    Blank,
    /// It shows no label.
    Torn,
    /// It shows a label, how often its block was erased, and the bytes of a page.
    Good {
        label: Label,
        erases: u32,
        bytes: PageData,
    },
}
