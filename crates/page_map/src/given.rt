//! A map of places that are given as a whole.

ghost use Rattle.std.specs.Prelude.{◌≡◌, ◌<◌, ◌*◌, ◌^◌, length, IfOk, IfErr, OnOk};
ghost use Rattle.slot_types.specs.Refusal.{FailsForMemory};
ghost use Rattle.page_map.specs.Placing.{HaveOwnCells};
ghost use Rattle.page_map.specs.PlacesFaults.{AreCells, HasPlacesFault};

use crate::map::PageMap;
use slot_types::{Place, Refusal, Shape};
use std::alloc::Global;

/// Why there is no map of given places.
#[derive(Clone, Copy, PartialEq, Eq, Debug, Drop)]
pub enum PlacesFault {
    /// Memory was asked for and not had.
    NoMemory,
    /// A page lies in the cell of a page before it: the first such page.
    SharedCell { page: u32 },
}

impl PageMap {
    /// The map, of fewer than 2^32 cells, in which each page lies where `places` has it. It takes time for each page
    /// once, and the memory of a map.
    ///
    /// `NoMemory` where there is no memory for a map, of which nothing else is known then; else `SharedCell` exactly
    /// where two pages lie in one cell.
    pub fn of_places(
        alloc: Global,
        shape: Shape,
        places: &[Option<Place>],
    ) -> Result<Self, PlacesFault>
        requires cells { AreCells shape places.now }
        requires few_cells { shape.blocks * shape.pages < 2 ^ 32 }
        requires few { length places.now < 2 ^ 32 }
        ensures ok { IfOk result (λ map. map ≡ record { shape = shape; places = places.now }) }
        ensures apart { OnOk result (HaveOwnCells places.now) }
        ensures fault { IfErr result (HasPlacesFault places.now) }
    {
        let mut map = match PageMap::new(alloc, shape, places.len() as u32) {
            Ok(map) => map,
            Err(_) => return Err(PlacesFault::NoMemory),
        };
        for page in 0..places.len() {
            if let Some(place) = places[page] {
                if map.owner(place).is_some() {
                    return Err(PlacesFault::SharedCell { page: page as u32 });
                }
                map.bind(page as u32, place);
            }
        }
        Ok(map)
    }

    /// By page the cell in which it lies. Refused with `NoMemory` alone.
    pub fn to_places(&self, alloc: Global) -> Result<Vec<Option<Place>>, Refusal>
        ensures ok { IfOk result (λ places. places.items ≡ self.now.places) }
        ensures err { FailsForMemory result }
    {
        let mut places = vec![in alloc; None; self.logical as usize]?;
        for page in 0..self.logical {
            places[page as usize] = self.place(page);
        }
        Ok(places)
    }
}
