//! Which pages of dies lie in cells.

ghost use Rattle.std.specs.Prelude.{◌≡◌, ◌++◌, ◌∷◌, [], ◌↔◌, true, All, IfOk, IsTrue, OnOk, map, option_copied};
ghost use Rattle.slot_types.specs.Refusal.{FailsForMemory};
ghost use Rattle.flashplan_full_dies.specs.FullDies.{IsFull, held_before, held_of, items_of, lies};

use checkpoint_texts::{SavedDie, SavedPage, SavedStore};
use slot_types::Refusal;
use std::alloc::Global;

/// By die and page whether the page lies in a cell.
pub type HeldPages = Vec<Vec<bool>>;

/// Whether each page of a die lies in a cell.
fn is_full(die: &SavedDie) -> bool
    ensures { IsTrue result ↔ IsFull die.now }
{
    die.pages.as_slice().iter().all(|page| page.place.is_some())
}

/// Whether each die of a store is full: each of its logical pages lies in a cell.
pub fn are_full(saved: &SavedStore) -> bool
    ensures { IsTrue result ↔ All IsFull saved.now }
{
    saved.as_slice().iter().all(|die| is_full(die))
}

/// Which of these pages lie in cells. The only refusal is NoMemory.
fn pages_held(alloc: Global, pages: &[SavedPage]) -> Result<Vec<bool>, Refusal>
    ensures ok { IfOk result (λ held. held.items ≡ map lies pages.now) }
    ensures refused { FailsForMemory result }
{
    let mut held = Vec::with_capacity(alloc, pages.len())?;
    for page in pages {
        held.push(page.place.is_some())?;
    }
    Ok(held)
}

/// Adds the pages of a die. The only refusal is NoMemory.
fn push_held(held: &mut HeldPages, pages: Vec<bool>) -> Result<(), Refusal>
    ensures ok { OnOk result (held.new.items ≡ held.old.items ++ pages ∷ []) }
    ensures refused { FailsForMemory result }
{
    held.push(pages)?;
    Ok(())
}

/// Which pages of these dies lie in cells, by die. The only refusal is NoMemory.
fn dies_held(alloc: Global, dies: &[SavedDie]) -> Result<HeldPages, Refusal>
    ensures ok { IfOk result (λ held. items_of held ≡ held_of dies.now) }
    ensures refused { FailsForMemory result }
{
    let mut held = Vec::new(alloc);
    for die in dies {
        push_held(&mut held, pages_held(alloc, die.pages.as_slice())?)?;
    }
    Ok(held)
}

/// Which pages lie in cells of dies that were saved, by die; of none where nothing was. The only refusal is NoMemory.
pub fn held_pages(alloc: Global, saved: Option<&SavedStore>) -> Result<HeldPages, Refusal>
    ensures ok { IfOk result (λ held. items_of held ≡ held_before (option_copied saved.entry)) }
    ensures refused { FailsForMemory result }
{
    match saved {
        Some(saved) => dies_held(alloc, saved.as_slice()),
        None => Ok(Vec::new(alloc)),
    }
}
