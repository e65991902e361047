//! Blocks of a part that are in erase.

ghost use Rattle.slot_types.specs.Refusal.{FailsForMemory};

use flashplan_labelled_parts::{Part, PartCall};
use slot_types::Refusal;
use std::alloc::Global;

/// A block in erase, and how many slots of the erase were done.
#[derive(Clone, Copy, PartialEq, Eq, Drop)]
pub struct InErase {
    pub block: u32,
    pub slots: u32,
}

/// The blocks of a part that are in erase, in the part's order. The only refusal is NoMemory.
pub(crate) fn erasing_of(alloc: Global, part: &Part) -> Result<Vec<InErase>, Refusal>
    ensures { FailsForMemory result }
{
    let mut found = Vec::new(alloc);
    for block in 0..part.blocks() {
        let slots = part.erasing(block);
        if slots > 0 {
            found.push(InErase { block, slots })?;
        }
    }
    Ok(found)
}

/// Which slot of an erase a call does, the first being 1; 0 of a call that does none.
pub(crate) fn erase_slot(part: &Part, call: PartCall) -> u32 {
    match call {
        PartCall::EraseSlot { block } => part.erasing(block).saturating_add(1),
        _ => 0,
    }
}
