//! The checkpoint of a die that was mounted.

ghost use Rattle.slot_types.specs.Refusal.{FailsForMemory};

use checkpoint_texts::{SavedDie, SavedPage, SavedStore, write_checkpoint};
use slot_types::{Items, PageData, Place, Refusal};
use std::alloc::Global;
use stepped_die::{NamedCheckpoint, SteppedDie};

/// A page as it is saved.
fn saved_page(place: Option<Place>, names: &Items<PageData>, page: usize) -> SavedPage {
    SavedPage {
        place,
        bytes: match place {
            Some(_) => names.get(page).copied(),
            None => None,
        },
    }
}

/// What is saved of a die.
fn saved_of(alloc: Global, taken: NamedCheckpoint) -> Result<SavedDie, Refusal>
    ensures { FailsForMemory result }
{
    let NamedCheckpoint {
        checkpoint,
        names,
        ..
    } = taken;
    let mut pages = Items::new(alloc);
    let mut page: usize = 0;
    for place in checkpoint.places.as_slice() {
        pages.push(saved_page(*place, &names, page))?;
        page = page.saturating_add(1);
    }
    Ok(SavedDie {
        pages,
        blocks: checkpoint.blocks,
        balances: checkpoint.balances,
        spare: checkpoint.spare,
    })
}

/// The text of the checkpoint of a die that was mounted, from which `flashplan run --from` goes on: as a store of
/// this die alone. A die that was just mounted is quiet, so the only refusal is NoMemory.
pub fn save_mounted(alloc: Global, die: &mut SteppedDie) -> Result<Vec<u8>, Refusal>
    ensures { FailsForMemory result }
{
    let Ok(taken) = die.checkpoint(alloc) else {
        return Err(Refusal::NoMemory);
    };
    let mut store = SavedStore::new(alloc);
    store.push(saved_of(alloc, taken)?)?;
    let mut text = Vec::new(alloc);
    match write_checkpoint(alloc, &mut text, &store) {
        Ok(()) => Ok(text),
        Err(_) => Err(Refusal::NoMemory),
    }
}
