//! What a slot may do.

use crate::pages::PageData;

/// What a job or a collection did in a slot. Pages are logical pages.
#[derive(Clone, Copy, PartialEq, Eq, Debug, Drop)]
pub enum Act {
    /// A job read the page, and got these bytes.
    Read { page: u32, bytes: PageData },
    /// A job wrote the page.
    Write { page: u32, bytes: PageData },
    /// A job trimmed the page.
    Trim { page: u32 },
    /// A collection read the page out of its block into its buffer.
    CopyRead { page: u32 },
    /// A collection programmed the page from its buffer.
    CopyProgram { page: u32 },
    /// A collection did one slot of the erase of its block.
    Erase { block: u32 },
}
