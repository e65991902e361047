//! How the candidates change with the pages that are written.

ghost use Rattle.std.specs.Prelude.{◌≡◌, ◌<◌, ◌≤◌, ℕ, Some, None, length};
ghost use Rattle.victim_pick.specs.Candidates.{count_of};
ghost use Rattle.slot_types.specs.declared.pages.Place.{Place};
ghost use Rattle.flash_volume.specs.Array.{counts_after_leaving, closed_when_filled};

use slot_types::Place;
use victim_pick::Victims;

/// A page that lay here has left its block. If that is a candidate, a page less lies in it.
pub(crate) fn leave(victims: &mut Victims, before: Option<Place>)
    requires { (place : Place) (n : ℕ) → before ≡ Some place
        → count_of victims.old.counts place.block ≡ Some n → 0 < n }
    ensures { victims.new
        ≡ record victims.old { counts = counts_after_leaving before victims.old.counts } }
{
    if let Some(place) = before {
        if victims.count(place.block).is_some() {
            victims.lower(place.block);
        }
    }
}

/// A block whose last cell is programmed is closed: it becomes a candidate, with `valid` pages that lie in it and
/// `erases` erases.
pub(crate) fn close_when_filled(
    victims: &mut Victims,
    block: u32,
    filled: u32,
    pages: u32,
    valid: u32,
    erases: u32,
)
    requires in_range { block < length victims.old.counts }
    requires open { count_of victims.old.counts block ≡ None }
    requires fits { valid ≤ victims.old.pages }
    ensures { victims.new ≡ record victims.old {
      counts = closed_when_filled pages block filled valid victims.old.counts;
      erases =
          closed_when_filled pages block filled erases victims.old.erases;
    } }
{
    if filled >= pages {
        victims.close(block, valid, erases);
    }
}
