//! The places of a checkpoint.

ghost use Rattle.std.specs.Prelude.{◌≡◌, ◌<◌, ◌^◌, ℕ, Some, length, position, IfSome, IfNone};
ghost use Rattle.slot_types.specs.Places.{place_of};
ghost use Rattle.slot_types.specs.declared.pages.Place.{Place};
ghost use Rattle.die_checkpoint.specs.Counts.{counts_at, is_astray};

use crate::checkpoint::BlockCounts;
use slot_types::Place;

/// The first page that lies in a cell that isn't programmed.
pub(crate) fn first_astray(places: &[Option<Place>], blocks: &[BlockCounts]) -> Option<u32>
    requires few { length places.now < 2 ^ 32 }
    ensures found { result ≡ position (is_astray blocks.now) places.now }
    ensures none { IfNone result ((page : ℕ) (place : Place) → place_of places.now page ≡ Some place
        → place.page < (counts_at blocks.now place.block).filled) }
{
    match astray_at(places, blocks) {
        Some(page) => Some(page as u32),
        None => None,
    }
}

fn astray_at(places: &[Option<Place>], blocks: &[BlockCounts]) -> Option<usize>
    ensures found { result ≡ position (is_astray blocks.now) places.now }
    ensures in_range { IfSome result (λ page. page < length places.now) }
{
    places.iter().position(|at| is_astray(*at, blocks))
}

fn is_astray(at: Option<Place>, blocks: &[BlockCounts]) -> bool
    ensures { result ≡ is_astray blocks.now at }
{
    match at {
        None => false,
        Some(place) => match blocks.get(place.block as usize) {
            Some(block) => place.page >= block.filled,
            None => true,
        },
    }
}
