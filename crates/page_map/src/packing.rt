//! A cell in one word.

ghost use Rattle.std.specs.Prelude.{◌≡◌, ◌<◌, ◌*◌, ◌^◌, Some, IfSome};
ghost use Rattle.page_map.specs.Placing.{IsCell, cell_index};
ghost use Rattle.page_map.specs.Packing.{place_in};

use crate::words::Word;
use slot_types::{Place, Shape};

/// The number of a cell, those of one block after the other.
pub(crate) fn cell(shape: Shape, place: Place) -> u32
    requires cell { IsCell shape place }
    requires few { shape.blocks * shape.pages < 2 ^ 32 }
    ensures { result ≡ cell_index shape place }
{
    place.block * shape.pages + place.page
}

/// The word of a cell.
pub(crate) fn pack(shape: Shape, place: Place) -> Word
    requires cell { IsCell shape place }
    requires few { shape.blocks * shape.pages < 2 ^ 32 }
    ensures cell { result ≡ Some (cell_index shape place) }
    ensures back { place_in shape result ≡ Some place }
{
    Word::some(cell(shape, place))
}

/// The cell of a word, if it has one.
pub(crate) fn unpack(shape: Shape, word: Word) -> Option<Place>
    requires { IfSome word (λ _. 0 < shape.pages) }
    ensures { result ≡ place_in shape word }
{
    match word.number() {
        None => None,
        Some(cell) => Some(Place {
            block: cell / shape.pages,
            page: cell % shape.pages,
        }),
    }
}
