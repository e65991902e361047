//! An array of pages on a flash device.

ghost use Rattle.std.specs.Prelude.{◌≡◌, ◌==◌, ◌+◌, ◌<◌, ◌↔◌, ℕ, true, false, Some, None, length};
ghost use Rattle.std.specs.Prelude.{slice_set, is_err, is_ok, is_some, IsSome, IsNone, IfOk, IfSome, IfNone, OnOk, OnErr, position};
ghost use Rattle.slot_types.specs.Refusal.{FailsForMemory};
ghost use Rattle.slot_types.specs.declared.pages.Place.{Place};
ghost use Rattle.slot_types.specs.Places.{place_of, owner_of};
ghost use Rattle.slot_types.specs.Shapes.{IsShape};
ghost use Rattle.victim_pick.specs.Candidates.{count_of, HasNone, IsLeast};
ghost use Rattle.page_map.specs.Placing.{blank_map, placing_without};
ghost use Rattle.flash_die.specs.Flash.{IsFresh, blank, block_at, blocks_after_program, blocks_after_erase_slot};
ghost use Rattle.flash_volume.specs.Cells.{filled_of, first_worn, is_worn_beyond, open_in, left_open, next_cell, content_at, contents, free_cells};
ghost use Rattle.flash_volume.specs.Array.{IsSoundArray, IsSoundState, without_candidate};
ghost use Rattle.flash_volume.specs.ArrayCalls.{HasPlaced, HasErased, EndsWithDevice};
ghost use Rattle.flash_volume.specs.Acts.{IsFirstInBlock};

use crate::candidates::{close_when_filled, leave};
use crate::fills::Fills;
use crate::placed_pages::PlacedPages;
use crate::tables::Tables;
use flash_die::{Nand, NandCall};
use slot_types::{PageData, Place, Refusal};
use std::alloc::Global;
use std::marker::Model;
use victim_pick::Victims;

/// An array of pages on a flash device. A page that is written goes to the next free cell of the
/// open block, and no longer lies in the cell before.
///
/// Contracts see whether the device has failed, the device, where each page lies and the candidates
/// for a collection. After the device has failed nothing is known of it.
#[derive(Drop)]
pub(crate) struct PageArray<N: Nand> {
    pub(crate) device: N,
    pub(crate) placed: PlacedPages,
    /// By block how many of its cells are programmed.
    pub(crate) fills: Fills,
    /// The open block. There is one at most.
    pub(crate) writing: Option<u32>,
    /// By block its finished erases.
    pub(crate) erases: Vec<u32>,
    /// The closed blocks that may be collected.
    pub(crate) victims: Victims,
    pub(crate) failed: bool,
}

impl<N: Nand> Model for PageArray<N> {
    ghost use Rattle.std.specs.Prelude.{◌≡◌, false};
    ghost use Rattle.flash_volume.specs.Array.{ArrayState, IsSoundState};

    ghost Value = { ArrayState N };

    ghost view = { λ a. record {
      failed = a.failed;
      device = a.device;
      placing = a.placed;
      candidates = a.victims;
    } };

    ghost invariant = { λ a. a.failed ≡ false
        → IsSoundState (N.shape_of a.device) (N.failures a.device) (N.blocks a.device) a.placed
        a.fills a.erases.items a.writing a.victims };
}

impl<N: Nand> PageArray<N> {
    /// An array over a device to which these tables belong.
    pub(crate) fn over(device: N, tables: Tables) -> Self
        requires { IsSoundState (N.shape_of device) (N.failures device) (N.blocks device)
            tables.placed tables.fills tables.erases.items
            tables.writing tables.victims }
        ensures { result
            ≡ record {
              failed = false;
              device = device;
              placing = tables.placed;
              candidates = tables.victims;
            } }
    {
        let Tables {
            placed,
            fills,
            writing,
            erases,
            victims,
        } = tables;
        PageArray {
            device,
            placed,
            fills,
            writing,
            erases,
            victims,
            failed: false,
        }
    }

    /// Whether the device has failed.
    pub(crate) fn failed(&self) -> bool
        ensures { result ≡ self.now.failed }
    {
        self.failed
    }

    /// How many pages there are.
    pub(crate) fn pages(&self) -> u32
        ensures { result ≡ length self.now.placing.places }
    {
        self.placed.map().pages()
    }

    /// The device.
    pub(crate) fn device(&self) -> &N
        ensures { result.now ≡ self.now.device }
    {
        &self.device
    }

    /// The first block that was erased more than `most` times, if there is one.
    pub(crate) fn first_worn(&self, most: u32) -> Option<u32>
        requires alive { self.now.failed ≡ false }
        ensures { result ≡ first_worn most (N.blocks self.now.device) }
    {
        match first_beyond(&self.erases, most) {
            Some(block) => Some(block as u32),
            None => None,
        }
    }

    /// What a page holds. A page that was never written is blank, and calls no device.
    pub(crate) fn read(&mut self, page: u32) -> Result<PageData, Refusal>
        requires alive { self.old.failed ≡ false }
        requires page { page < length self.old.placing.places }
        ensures page { IfOk result (λ bytes.
            bytes ≡ content_at (N.blocks self.old.device) (place_of self.old.placing.places page)) }
        ensures unwritten { place_of self.old.placing.places page ≡ None
            → (result ≡ Ok blank) × (self.new ≡ self.old) }
        ensures once { (place : Place) → place_of self.old.placing.places page ≡ Some place
            → N.ends self.old.device (NandCall.Read place) (is_ok result) self.new.device }
        ensures cells { OnOk result (N.blocks self.new.device ≡ N.blocks self.old.device) }
        ensures placing { self.new.placing ≡ self.old.placing }
        ensures candidates { self.new.candidates ≡ self.old.candidates }
        ensures ends { EndsWithDevice N.shape_of N.failures N.never_fails result self.old self.new }
    {
        match self.placed.map().place(page) {
            None => Ok(PageData::BLANK),
            Some(place) => {
                let bytes = self.device.read(place);
                self.failed = bytes.is_err();
                bytes
            }
        }
    }

    /// Writes a page to the next free cell of the open block, while a cell is free.
    pub(crate) fn write(&mut self, page: u32, bytes: PageData) -> Result<(), Refusal>
        requires alive { self.old.failed ≡ false }
        requires page { page < length self.old.placing.places }
        requires free { 0
            < free_cells (N.shape_of self.old.device).pages (N.blocks self.old.device) }
        ensures once { N.ends self.old.device
            (NandCall.Program
            (next_cell (N.shape_of self.old.device).pages (N.blocks self.old.device))
            (Some page)
            bytes)
            (is_ok result)
            self.new.device }
        ensures finds { IsSome
            (open_in (N.shape_of self.old.device).pages (N.blocks self.old.device)) }
        ensures placed { OnOk result (HasPlaced N.shape_of N.blocks page bytes self.old self.new) }
        ensures sound { IsSoundArray N.shape_of N.failures N.blocks self.new }
        ensures stays { OnErr result (self.new.placing ≡ self.old.placing) }
        ensures ends { EndsWithDevice N.shape_of N.failures N.never_fails result self.old self.new }
    {
        let place = self.next_cell();
        let before = self.placed.map().place(page);
        match self.device.program_page(place, page, bytes) {
            Err(refusal) => {
                self.failed = true;
                Err(refusal)
            }
            Ok(()) => {
                let filled = place.page + 1;
                self.fills.set(place.block, filled);
                let pages = self.device.shape().pages;
                let still_open = left_open(place.block, filled, pages);
                self.writing = still_open;
                self.placed.bind(page, place);
                leave(&mut self.victims, before);
                let valid = self.placed.map().valid(place.block);
                let erases = self.erases[place.block as usize];
                close_when_filled(&mut self.victims, place.block, filled, pages, valid, erases);
                Ok(())
            }
        }
    }

    /// Lets a page lie nowhere, so that it is blank. Calls no device.
    pub(crate) fn trim(&mut self, page: u32)
        requires alive { self.old.failed ≡ false }
        requires page { page < length self.old.placing.places }
        ensures device { self.new.device ≡ self.old.device }
        ensures placing { self.new.placing ≡ placing_without self.old.placing page }
        ensures candidates { (block : ℕ) → is_some (count_of self.new.candidates.counts block)
            ≡ is_some (count_of self.old.candidates.counts block) }
        ensures contents { contents (N.blocks self.new.device) self.new.placing.places
            ≡ slice_set (contents (N.blocks self.old.device) self.old.placing.places) page blank }
        ensures sound { IsSoundArray N.shape_of N.failures N.blocks self.new }
        ensures failed { self.new.failed ≡ false }
    {
        let before = self.placed.map().place(page);
        self.placed.unbind(page);
        leave(&mut self.victims, before);
    }

    /// Does one slot of the erase of a block that is closed and in which no page lies, and answers
    /// whether it was the last.
    pub(crate) fn erase_slot(&mut self, block: u32) -> Result<bool, Refusal>
        requires alive { self.old.failed ≡ false }
        requires block { block < length (N.blocks self.old.device) }
        requires closed { filled_of (block_at (N.blocks self.old.device) block)
            ≡ (N.shape_of self.old.device).pages }
        requires unplaced { (page : ℕ) → page < (N.shape_of self.old.device).pages
            → owner_of self.old.placing.places (record { block = block; page = page }) ≡ None }
        requires taken { count_of self.old.candidates.counts block ≡ None }
        requires few_erases { (block_at (N.blocks self.old.device) block).erases < 4294967295 }
        ensures once { N.ends self.old.device (NandCall.EraseSlot block) (is_ok result)
            self.new.device }
        ensures erased { IfOk result (λ last.
            HasErased N.shape_of N.blocks block last self.old self.new) }
        ensures placing { self.new.placing ≡ self.old.placing }
        ensures candidates { self.new.candidates ≡ self.old.candidates }
        ensures sound { IsSoundArray N.shape_of N.failures N.blocks self.new }
        ensures ends { EndsWithDevice N.shape_of N.failures N.never_fails result self.old self.new }
    {
        match self.device.erase_slot(block) {
            Err(refusal) => {
                self.failed = true;
                Err(refusal)
            }
            Ok(false) => Ok(false),
            Ok(true) => {
                self.fills.set(block, 0);
                self.erases[block as usize] += 1;
                Ok(true)
            }
        }
    }

    /// Takes away the candidate in which the fewest pages lie, of equal ones that with the fewest erases, of these the
    /// first.
    #[inline(never)]
    pub(crate) fn take_victim(&mut self) -> u32
        requires alive { self.old.failed ≡ false }
        requires some { HasNone self.old.candidates.counts → ⊥ }
        ensures least { IsLeast self.old.candidates.counts self.old.candidates.erases result }
        ensures taken { self.new
            ≡ record self.old { candidates = without_candidate result self.old.candidates } }
        ensures sound { IsSoundArray N.shape_of N.failures N.blocks self.new }
    {
        self.victims.take_least().unwrap()
    }

    /// The candidate that `take_victim` would take away, if there is one.
    pub(crate) fn victim(&self) -> Option<u32>
        ensures none { IsNone result ↔ HasNone self.now.candidates.counts }
        ensures least { IfSome result
            (IsLeast self.now.candidates.counts self.now.candidates.erases) }
    {
        self.victims.least()
    }

    /// The cell in which a page lies.
    pub(crate) fn place(&self, page: u32) -> Option<Place>
        requires { page < length self.now.placing.places }
        ensures { result ≡ place_of self.now.placing.places page }
    {
        self.placed.map().place(page)
    }

    /// Whether a page lies in this cell.
    pub(crate) fn lies(&self, page: u32, place: Place) -> bool
        ensures { result ≡ true ↔ place_of self.now.placing.places page ≡ Some place }
    {
        self.placed.map().lies(page, place)
    }

    /// Of the pages that lie in a block the one that lies first, with its cell.
    pub(crate) fn first_page(&self, block: u32) -> Option<(u32, Place)>
        requires { block < self.now.placing.shape.blocks }
        ensures some { IfSome result (λ first.
            IsFirstInBlock self.now.placing.places block first.0 first.1) }
        ensures none { IfNone result ((page : ℕ) → page < self.now.placing.shape.pages
            → owner_of self.now.placing.places (record { block = block; page = page }) ≡ None) }
    {
        self.placed.first_page(block)
    }

    /// Later looks for the first page of this cell's block go on from the cell, before which no page lies in it.
    pub(crate) fn pass(&mut self, cell: Place)
        requires block { cell.block < self.old.placing.shape.blocks }
        requires none { (page : ℕ) → page < cell.page
            → owner_of self.old.placing.places (record { block = cell.block; page = page }) ≡ None }
        ensures { self.new ≡ self.old }
    {
        self.placed.pass(cell);
    }

    /// The cell that is written next, while a cell is free.
    pub(crate) fn next_cell(&self) -> Place
        requires alive { self.now.failed ≡ false }
        requires free { 0
            < free_cells (N.shape_of self.now.device).pages (N.blocks self.now.device) }
        ensures { result ≡ next_cell (N.shape_of self.now.device).pages (N.blocks self.now.device) }
    {
        let block = match self.writing {
            Some(block) => block,
            None => self.fills.first_wholly_free().unwrap_or(0),
        };
        Place {
            block,
            page: self.fills.get(block),
        }
    }
}

/// The block, unless it is closed.
fn left_open(block: u32, filled: u32, pages: u32) -> Option<u32>
    ensures { result ≡ left_open pages block filled }
{
    if filled < pages { Some(block) } else { None }
}

/// The place of the first count above `most`.
fn first_beyond(erases: &[u32], most: u32) -> Option<usize>
    ensures found { result ≡ position (is_worn_beyond most) erases.now }
    ensures in_range { IfSome result (λ block. block < length erases.now) }
{
    erases.iter().position(|count| *count > most)
}
