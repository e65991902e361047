//! What a die's next slot will carry.

use flash_die::NandCall;
use slot_types::JobNo;

/// What the next slot will do, as far as it is known before it: an act without the bytes. Pages are logical pages.
#[derive(Clone, Copy, PartialEq, Eq, Debug, Drop)]
pub enum NextAct {
    /// A job reads the page.
    Read { page: u32 },
    /// A job writes the page.
    Write { page: u32 },
    /// A job trims the page.
    Trim { page: u32 },
    /// A collection reads the page out of its block into its buffer.
    CopyRead { page: u32 },
    /// A collection programs the page from its buffer.
    CopyProgram { page: u32 },
    /// A collection does one slot of the erase of its block.
    Erase { block: u32 },
}

/// The next slot of a die.
#[derive(Clone, Copy, PartialEq, Eq, Debug, Drop)]
pub struct NextSlot {
    /// The job or collection that has the slot, and what it will do; none where the slot is idle.
    pub ran: Option<(JobNo, NextAct)>,
    /// The one call of the device that the slot makes; none of an idle slot, of a trim, and of a read of a page that
    /// was never written or was trimmed since.
    pub call: Option<NandCall>,
}
