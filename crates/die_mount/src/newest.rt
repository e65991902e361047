//! By page the newest label, and the greatest serial of a block.

ghost use Rattle.std.specs.Prelude.{◌≡◌, ◌+◌, ◌<◌, ◌≤◌, ◌^◌, ℕ, [], None, length, map, replicate, slice_index_or};
ghost use Rattle.slot_types.specs.Places.{owner_of, place_of};
ghost use Rattle.slot_types.specs.declared.pages.Place.{Place};
ghost use Rattle.page_map.specs.Placing.{IsCell};
ghost use Rattle.power_loss.specs.Mounted.{all_count, found_at, found_in_block};
ghost use Rattle.die_mount.specs.Scanned.{found_of, newer_of, LieBefore};
ghost use Rattle.die_mount.specs.Told.{shown_label, shown_cells, larger_of, HaveFitLabels, IsGreatestIn};

use crate::label::Label;
use page_map::PageMap;
use slot_types::Place;

/// Where the greatest serial stands.
#[derive(Clone, Copy, PartialEq, Eq, Debug, Drop)]
pub struct Newest {
    pub block: u32,
    pub serial: u64,
}

/// Takes in a label: its page lies in this cell, unless a label that was taken in before is as new.
fn take_label(map: &mut PageMap, serials: &mut [u64], cell: Place, label: Label)
    requires page { label.page < length map.old.places }
    requires serials { length serials.old ≡ length map.old.places }
    requires cell { IsCell map.old.shape cell }
    requires before { LieBefore cell.block cell.page map.old.places }
    ensures shape { map.new.shape ≡ map.old.shape }
    ensures pages { length map.new.places ≡ length map.old.places }
    ensures found { (page : ℕ) → page < length map.old.places
        → found_of map.new.places serials.new page
        ≡ found_at (all_count page) page cell (shown_label label) (found_of map.old.places serials.old page) }
    ensures before { LieBefore cell.block (cell.page + 1) map.new.places }
{
    if map.place(label.page).is_some() && serials[label.page as usize] >= label.serial {
        return;
    }
    map.bind(label.page, cell);
    serials[label.page as usize] = label.serial;
}

/// Takes in the labels of a block, which is the next one.
pub(crate) fn take_block(
    map: &mut PageMap,
    serials: &mut [u64],
    block: u32,
    cells: &[Option<Label>],
)
    requires labels { HaveFitLabels (length map.old.places) cells.now }
    requires serials { length serials.old ≡ length map.old.places }
    requires block { block < map.old.shape.blocks }
    requires cells { length cells.now ≤ map.old.shape.pages }
    requires few { length cells.now < 2 ^ 32 }
    requires before { LieBefore block 0 map.old.places }
    ensures shape { map.new.shape ≡ map.old.shape }
    ensures pages { length map.new.places ≡ length map.old.places }
    ensures found { (page : ℕ) → page < length map.old.places
        → found_of map.new.places serials.new page
        ≡ found_in_block (all_count page) page block 0 (shown_cells cells.now)
        (found_of map.old.places serials.old page) }
    ensures before { LieBefore (block + 1) 0 map.new.places }
{
    for k in 0..cells.len() {
        if let Some(label) = cells[k] {
            take_label(
                map,
                serials,
                Place {
                    block,
                    page: k as u32,
                },
                label,
            );
        }
    }
}

/// The greatest serial of a block's labels, if it has any.
pub(crate) fn greatest_in(cells: &[Option<Label>]) -> Option<u64>
    ensures { IsGreatestIn cells.now result }
{
    let mut greatest: Option<u64> = None;
    for k in 0..cells.len() {
        if let Some(label) = cells[k] {
            greatest = Some(larger(greatest, label.serial));
        }
    }
    greatest
}

/// Where the greatest serial stands, where it stood there before a block with this greatest serial was reported.
pub(crate) fn newer(before: Option<Newest>, block: u32, greatest: Option<u64>) -> Option<Newest>
    ensures { result ≡ newer_of before block greatest }
{
    match (before, greatest) {
        (None, Some(serial)) => Some(Newest { block, serial }),
        (Some(newest), Some(serial)) if newest.serial < serial => Some(Newest { block, serial }),
        (before, _) => before,
    }
}

/// The larger of two numbers, where there is a first one.
fn larger(most: Option<u64>, serial: u64) -> u64
    ensures { result ≡ larger_of most serial }
{
    match most {
        Some(most) if serial <= most => most,
        _ => serial,
    }
}
