//! Where each page lies, with a cell of each block before which none does.

ghost use Rattle.std.specs.Prelude.{◌≡◌, ◌<◌, ◌*◌, ◌^◌, ◌↔◌, ℕ, Some, None, length, count_by, IfOk, IfSome, IfNone, OnOk};
ghost use Rattle.slot_types.specs.Refusal.{FailsForMemory};
ghost use Rattle.slot_types.specs.Places.{is_in, place_of, owner_of};
ghost use Rattle.page_map.specs.Placing.{HaveOwnCells, IsCell, blank_map, placing_with, placing_without};
ghost use Rattle.page_map.specs.PlacesFaults.{AreCells};
ghost use Rattle.flash_volume.specs.Acts.{IsFirstInBlock};

use page_map::PageMap;
use slot_types::{Place, Refusal, Shape};
use std::alloc::Global;
use std::marker::Model;

/// Where each page lies, and of each block a cell before which no page lies. Contracts see the map alone.
///
/// A look for a block's first page begins at that cell, and `pass` moves it on: so a collection doesn't come back to
/// cells of its victim that it has passed. Each other call takes the time of the map's.
#[derive(Drop)]
pub(crate) struct PlacedPages {
    map: PageMap,
    /// By block the cell.
    firsts: Vec<u32>,
}

impl Model for PlacedPages {
    ghost use Rattle.page_map.specs.Placing.{Placing};
    ghost use Rattle.flash_volume.specs.FirstCells.{LieAfter};

    ghost Value = { Placing };

    ghost view = { λ p. p.map };

    ghost invariant = { λ p. LieAfter p.map.shape.blocks p.map.places p.firsts.items };
}

impl PlacedPages {
    /// Of a die of fewer than 2^32 cells, with `logical` pages that lie nowhere. Refused with `NoMemory` alone.
    pub(crate) fn new(alloc: Global, shape: Shape, logical: u32) -> Result<Self, Refusal>
        requires { shape.blocks * shape.pages < 2 ^ 32 }
        ensures ok { IfOk result (λ placed. placed ≡ blank_map shape logical) }
        ensures err { FailsForMemory result }
    {
        Ok(PlacedPages {
            map: PageMap::new(alloc, shape, logical)?,
            firsts: vec![in alloc; 0; shape.blocks as usize]?,
        })
    }

    /// Lets each page lie where `places` has it, and no two in one cell, where none lies anywhere yet. It takes no
    /// memory.
    pub(crate) fn bind_all(&mut self, places: &[Option<Place>])
        requires blank { self.old ≡ blank_map self.old.shape (length places.now) }
        requires cells { AreCells self.old.shape places.now }
        requires apart { HaveOwnCells places.now }
        ensures { self.new ≡ record { shape = self.old.shape; places = places.now } }
    {
        for page in 0..self.map.pages() {
            if let Some(place) = places[page as usize] {
                self.bind(page, place);
            }
        }
    }

    /// The map.
    pub(crate) fn map(&self) -> &PageMap
        ensures { result.now ≡ self.now }
    {
        &self.map
    }

    /// Lets a page lie in a cell, in which none lies. It leaves the cell in which it lay.
    pub(crate) fn bind(&mut self, page: u32, place: Place)
        requires page { page < length self.old.places }
        requires place { IsCell self.old.shape place }
        requires free { owner_of self.old.places place ≡ None }
        ensures { self.new ≡ placing_with self.old page place }
    {
        self.map.bind(page, place);
        let first = self.firsts[place.block as usize];
        self.firsts[place.block as usize] = first.min(place.page);
    }

    /// Lets a page lie nowhere. It leaves the cell in which it lay.
    pub(crate) fn unbind(&mut self, page: u32)
        requires { page < length self.old.places }
        ensures { self.new ≡ placing_without self.old page }
    {
        self.map.unbind(page);
    }

    /// Of the pages that lie in a block the one that lies first, with its cell.
    pub(crate) fn first_page(&self, block: u32) -> Option<(u32, Place)>
        requires { block < self.now.shape.blocks }
        ensures some { IfSome result (λ first.
            IsFirstInBlock self.now.places block first.0 first.1) }
        ensures none { IfNone result ((page : ℕ) → page < self.now.shape.pages
            → owner_of self.now.places (record { block = block; page = page }) ≡ None) }
    {
        match self.map.next_valid(block, self.firsts[block as usize]) {
            None => None,
            Some(page) => {
                let source = Place { block, page };
                match self.map.owner(source) {
                    Some(owner) => Some((owner, source)),
                    None => None,
                }
            }
        }
    }

    /// Later looks for the first page of this cell's block go on from the cell, before which no page lies in it.
    pub(crate) fn pass(&mut self, cell: Place)
        requires block { cell.block < self.old.shape.blocks }
        requires none { (page : ℕ) → page < cell.page
            → owner_of self.old.places (record { block = cell.block; page = page }) ≡ None }
        ensures { self.new ≡ self.old }
    {
        self.firsts[cell.block as usize] = cell.page;
    }
}
