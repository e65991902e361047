//! What stands on the dies of a store, with the bytes of pages where they are kept.

ghost use Rattle.std.specs.Prelude.{◌≡◌, IfOk};
ghost use Rattle.slot_types.specs.Refusal.{FailsForMemory};
ghost use Rattle.checkpoint_texts.specs.SavedDies.{places_of};

use die_checkpoint::{BlockCounts, Checkpoint};
use slot_types::{Items, PageData, Place, Refusal};
use std::alloc::Global;

/// A logical page: the cell in which it lies, if it lies in one, and the bytes there, if they are kept.
#[derive(Clone, Copy, PartialEq, Eq, Debug, Drop)]
pub struct SavedPage {
    pub place: Option<Place>,
    /// None of a page that lies nowhere.
    pub bytes: Option<PageData>,
}

/// What stands on a die at a quiet moment.
#[derive(Clone, PartialEq, Eq, Debug, Drop)]
pub struct SavedDie {
    /// The logical pages, by number.
    pub pages: Items<SavedPage>,
    /// The blocks, by number.
    pub blocks: Items<BlockCounts>,
    /// By task how many pages its next jobs may write.
    pub balances: Items<u32>,
    /// How many free pages nobody has a claim on.
    pub spare: u32,
}

/// The dies of a store, by number.
pub type SavedStore = Items<SavedDie>;

impl SavedDie {
    ghost use Rattle.checkpoint_texts.specs.SavedDies.{checkpoint_of};

    /// What stands on the die, without the bytes of its pages. Refused out of memory alone.
    pub fn checkpoint(&self, alloc: Global) -> Result<Checkpoint, Refusal>
        ensures refused { FailsForMemory result }
        ensures ok { IfOk result (λ made. made ≡ checkpoint_of self.now) }
    {
        Ok(Checkpoint {
            places: places_in(alloc, self.pages.as_slice())?,
            blocks: copied_blocks(alloc, &self.blocks)?,
            spare: self.spare,
            balances: copied_balances(alloc, &self.balances)?,
        })
    }
}

fn places_in(alloc: Global, pages: &[SavedPage]) -> Result<Items<Option<Place>>, Refusal>
    ensures refused { FailsForMemory result }
    ensures ok { IfOk result (λ made. made ≡ places_of pages.now) }
{
    let mut places = Items::new(alloc);
    for page in pages {
        places.push(page.place)?;
    }
    Ok(places)
}

fn copied_blocks(alloc: Global, blocks: &Items<BlockCounts>) -> Result<Items<BlockCounts>, Refusal>
    ensures refused { FailsForMemory result }
    ensures ok { IfOk result (λ made. made ≡ blocks.now) }
{
    Ok(Items::from_vec(Vec::from_slice(alloc, blocks.as_slice())?))
}

fn copied_balances(alloc: Global, balances: &Items<u32>) -> Result<Items<u32>, Refusal>
    ensures refused { FailsForMemory result }
    ensures ok { IfOk result (λ made. made ≡ balances.now) }
{
    Ok(Items::from_vec(Vec::from_slice(alloc, balances.as_slice())?))
}
