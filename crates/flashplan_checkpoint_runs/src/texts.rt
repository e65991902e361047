//! The text of what is saved.

ghost use Rattle.std.specs.Prelude.{◌≡◌, ◌≤◌, IfOk, length, map};
ghost use Rattle.slot_types.specs.Refusal.{FailsForMemory};
ghost use Rattle.checkpoint_texts.specs.CheckpointText.{checkpoint_text};
ghost use Rattle.flashplan_checkpoint_runs.specs.SavedDies.{saved_end};

use crate::dies::StoreDies;
use crate::faults::Unsaved;
use crate::saving::save_dies;
use checkpoint_texts::{SavedStore, write_checkpoint};
use slot_types::Refusal;
use std::alloc::Global;

/// The text of what is saved of at most eight dies. The only refusal is NoMemory.
fn text_of(alloc: Global, saved: &SavedStore) -> Result<Vec<u8>, Refusal>
    requires few { length saved.now ≤ 8 }
    ensures text { IfOk result (λ text. text.items ≡ checkpoint_text saved.now) }
    ensures refused { FailsForMemory result }
{
    let mut text = Vec::new(alloc);
    match write_checkpoint(alloc, &mut text, saved) {
        Ok(()) => Ok(text),
        Err(_) => Err(Refusal::NoMemory),
    }
}

/// The text of a checkpoint of dies, which are given up: of each what would stand if it were renewed, and the bytes of its placed
/// pages. Dies that are made of it start where these, renewed, would.
///
/// Refused with the first die of which no checkpoint may be taken, and why; or with NoMemory.
pub fn save(alloc: Global, dies: StoreDies) -> Result<Vec<u8>, Unsaved>
    requires few { length dies.items ≤ 8 }
    ensures text { IfOk result (λ text. text.items ≡ checkpoint_text (map saved_end dies.items)) }
{
    let saved = save_dies(alloc, dies)?;
    let text = text_of(alloc, &saved)?;
    Ok(text)
}
