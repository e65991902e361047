//! The cells of a part, as a mount goes on.

ghost use Rattle.std.specs.Prelude.{◌≡◌, ◌⊎◌, ◌==◌, ◌<◌, ◌≤◌, ◌+◌, ◌^◌, ℕ, None, length, map, option_map, IfOk, IfSome, IfNone, position};
ghost use Rattle.std.specs.Prelude.{[], slice_index_or, vec_capacity};
ghost use Rattle.slot_types.specs.Refusal.{FailsForMemory};
ghost use Rattle.slot_types.specs.Places.{owner_of, place_of};
ghost use Rattle.slot_types.specs.declared.plans.DiePlan.{DiePlan};
ghost use Rattle.page_map.specs.PlacesFaults.{AreCells};
ghost use Rattle.page_map.specs.Placing.{HaveOwnCells, IsCell};
ghost use Rattle.die_log.specs.Model.Flash.{block_at, free_block, valid};
ghost use Rattle.power_loss.specs.Aside.{on_die, renumbered, renumbered_places, without_aside};
ghost use Rattle.die_mount.specs.Ending.{counts_of};
ghost use Rattle.die_mount.specs.Erases.{counted};
ghost use Rattle.die_mount.specs.SoundPart.{block_of, is_unfilled};
ghost use Rattle.die_mount.specs.PartState.{closed_but, is_open_at, next_cell_of, with_erase_slot, with_program, IsFewest, IsFirstPage};

use die_checkpoint::BlockCounts;
use page_map::PageMap;
use slot_types::{Items, Place, Refusal, Shape};
use std::alloc::Global;
use std::marker::Model;

/// What a mount has of a block: how many of its cells are programmed, how many slots its running erase has had, and how
/// many erases the mount has finished.
#[derive(Clone, Copy, PartialEq, Eq, Debug, Drop)]
pub(crate) struct PartBlock {
    filled: u32,
    erasing: u32,
    erases: u32,
}

impl PartBlock {
    /// Whether some of its cells are programmed, and some aren't.
    fn is_open(self, pages: u32) -> bool
        ensures { result ≡ is_open_at pages (block_of self) }
    {
        0 < self.filled && self.filled < pages
    }
}

/// Where the pages of a part lie, and what its blocks are. Contracts see them as cells.
#[derive(Drop)]
pub(crate) struct Part {
    shape: Shape,
    map: PageMap,
    blocks: Vec<PartBlock>,
    /// The block of the last program. No other one is open.
    last: u32,
    /// How many pages are free, without those of blocks in erase.
    free: u32,
}

impl Model for Part {
    ghost use Rattle.die_mount.specs.PartState.{PartState};

    ghost Value = { PartState };

    ghost use Rattle.die_mount.specs.SoundPart.{part_state_of, IsSoundPart};

    ghost view = { part_state_of };

    ghost invariant = { IsSoundPart };
}

impl Part {
    /// The part whose pages lie so: one block is wholly free, and each other one counts as closed. Refused with
    /// `NoMemory` alone.
    pub(crate) fn new(
        alloc: Global,
        shape: Shape,
        map: PageMap,
        first: u32,
    ) -> Result<Part, Refusal>
        requires map { map.shape ≡ shape }
        requires first { first < shape.blocks }
        requires few { shape.blocks ≤ 1024 }
        ensures ok { IfOk result (λ part. part ≡ closed_but shape map.places first) }
        ensures cells { AreCells shape map.places }
        ensures apart { HaveOwnCells map.places }
        ensures err { FailsForMemory result }
    {
        let closed = PartBlock {
            filled: shape.pages,
            erasing: 0,
            erases: 0,
        };
        let mut blocks = vec![in alloc; closed; shape.blocks as usize]?;
        blocks[first as usize] = PartBlock {
            filled: 0,
            erasing: 0,
            erases: 0,
        };
        Ok(Part {
            shape,
            map,
            blocks,
            last: first,
            free: shape.pages,
        })
    }

    /// How many pages are free.
    pub(crate) fn free(&self) -> u32
        ensures { result ≡ self.now.free }
    {
        self.free
    }

    /// How many pages there are.
    pub(crate) fn pages(&self) -> u32
        ensures { result ≡ length self.now.cells.places }
    {
        self.map.pages()
    }

    /// The cell in which a page lies.
    pub(crate) fn place(&self, page: u32) -> Option<Place>
        requires { page < length self.now.cells.places }
        ensures { result ≡ place_of self.now.cells.places page }
    {
        self.map.place(page)
    }

    /// How many pages lie in a block.
    pub(crate) fn valid(&self, block: u32) -> u32
        requires { block < self.now.shape.blocks }
        ensures { result ≡ valid self.now.cells block }
    {
        self.map.valid(block)
    }

    /// Of the pages of a block the one in the first cell from a cell on, and that cell.
    pub(crate) fn first_page(&self, block: u32, from: u32) -> Option<(u32, Place)>
        requires { block < self.now.shape.blocks }
        ensures some { IfSome result (λ found.
            IsFirstPage self.now.cells block from found.0 found.1) }
        ensures none { IfNone result ((page : ℕ) → from ≤ page → page < self.now.shape.pages
            → owner_of self.now.cells.places (record { block = block; page = page }) ≡ None) }
    {
        let page = self.map.next_valid(block, from)?;
        let place = Place { block, page };
        match self.map.owner(place) {
            Some(owner) => Some((owner, place)),
            None => unreachable!(),
        }
    }

    /// The closed block with the fewest pages, if one is closed. It looks at each block once.
    pub(crate) fn fewest(&self) -> Option<u32>
        ensures some { IfSome result (IsFewest self.now.shape.pages self.now.cells) }
        ensures in_range { IfSome result (λ b. b < self.now.shape.blocks) }
        ensures none { IfNone result ((b : ℕ) → b < self.now.shape.blocks
            → (block_at self.now.cells b).filled ≡ self.now.shape.pages → ⊥) }
    {
        let mut fewest: Option<u32> = None;
        for block in 0..self.shape.blocks {
            if self.blocks[block as usize].filled == self.shape.pages {
                fewest = Some(self.fewer(fewest, block));
            }
        }
        fewest
    }

    /// Of a block, if there is one, and another one the one with fewer pages.
    fn fewer(&self, one: Option<u32>, other: u32) -> u32
        requires one { IfSome one (λ b. b < self.now.shape.blocks) }
        requires other { other < self.now.shape.blocks }
        ensures from { IfNone one (result ≡ other) }
        ensures either { IfSome one (λ b. (result ≡ b) ⊎ (result ≡ other)) }
        ensures before_one { IfSome one (λ b.
            valid self.now.cells result ≤ valid self.now.cells b) }
        ensures before_other { valid self.now.cells result ≤ valid self.now.cells other }
    {
        match one {
            Some(block) if self.map.valid(block) <= self.map.valid(other) => block,
            _ => other,
        }
    }

    /// The cell of the next program, if a page is free.
    pub(crate) fn next_cell(&self) -> Option<Place>
        ensures { result ≡ next_cell_of self.now }
    {
        let last = self.blocks[self.last as usize];
        if last.is_open(self.shape.pages) {
            return Some(Place {
                block: self.last,
                page: last.filled,
            });
        }
        match first_unfilled(&self.blocks) {
            Some(block) => Some(Place {
                block: block as u32,
                page: 0,
            }),
            None => None,
        }
    }

    /// How often a block was erased, with the erases that it has had before; 0 where there is no such block.
    pub(crate) fn erases(&self, block: u32, before: &[u32]) -> u32
        requires few { slice_index_or before.now block 0
            + (block_at self.now.cells block).erases < 2 ^ 32 }
        ensures { result ≡ slice_index_or before.now block 0
            + (block_at self.now.cells block).erases }
    {
        let own = match self.blocks.get(block as usize) {
            Some(own) => own.erases,
            None => 0,
        };
        erases_before(before, block) + own
    }

    /// The first block of which no cell is programmed.
    pub(crate) fn free_block(&self) -> Option<u32>
        ensures { result ≡ position (λ t. t.filled == 0) self.now.cells.blocks }
    {
        match first_unfilled(&self.blocks) {
            Some(block) => Some(block as u32),
            None => None,
        }
    }

    /// By page its cell, as a die on the blocks beside one numbers it. It takes no memory.
    pub(crate) fn places_beside(
        &self,
        room: Vec<Option<Place>>,
        last: u32,
        aside: u32,
    ) -> Items<Option<Place>>
        requires empty { room.items ≡ [] }
        requires room { length self.now.cells.places ≤ vec_capacity room }
        ensures { result ≡ renumbered_places (on_die last aside) self.now.cells.places }
    {
        let mut places = room;
        for page in 0..self.map.pages() {
            places.push_reserved(renumbered(self.map.place(page), last, aside));
        }
        Items::from_vec(places)
    }

    /// By block what a checkpoint says of it, with the erases that it has had before, without the last block and with
    /// that one in place of the one aside. It takes no memory.
    pub(crate) fn blocks_beside(
        &self,
        room: Vec<BlockCounts>,
        last: u32,
        aside: u32,
        before: &[u32],
    ) -> Items<BlockCounts>
        requires empty { room.items ≡ [] }
        requires room { last ≤ vec_capacity room }
        requires last { last + 1 ≡ self.now.shape.blocks }
        requires aside { aside ≤ last }
        requires few { (block : ℕ) → slice_index_or before.now block 0
            + (block_at self.now.cells block).erases < 2 ^ 32 }
        ensures { result ≡ map counts_of (without_aside last aside free_block
            (counted before.now self.now.cells).blocks) }
    {
        let mut blocks = room;
        for block in 0..last {
            let from = if block == aside { last } else { block };
            blocks.push_reserved(counts_of(
                self.blocks[from as usize],
                erases_before(before, from),
            ));
        }
        Items::from_vec(blocks)
    }

    /// The page lies in the next cell of a block, which was programmed.
    pub(crate) fn program(&mut self, page: u32, to: Place)
        requires page { page < length self.old.cells.places }
        requires cell { IsCell self.old.shape to }
        requires next { to.page ≡ (block_at self.old.cells to.block).filled }
        requires free { owner_of self.old.cells.places to ≡ None }
        requires some { 0 < self.old.free }
        ensures { self.new ≡ with_program page to self.old }
    {
        let state = self.blocks[to.block as usize];
        self.map.bind(page, to);
        self.blocks[to.block as usize] = PartBlock {
            filled: state.filled + 1,
            erasing: state.erasing,
            erases: state.erases,
        };
        self.last = to.block;
        self.free -= 1;
    }

    /// A block has had one slot more of its erase: the last one frees it.
    pub(crate) fn erase_slot(&mut self, block: u32)
        requires block { block < self.old.shape.blocks }
        requires slots { (block_at self.old.cells block).erasing < self.old.shape.erase_slots }
        requires erases { (block_at self.old.cells block).erases + 1 < 2 ^ 32 }
        requires free { self.old.free + self.old.shape.pages < 2 ^ 32 }
        ensures { (plan : DiePlan) → plan.shape ≡ self.old.shape
            → self.new ≡ with_erase_slot plan block self.old }
    {
        let state = self.blocks[block as usize];
        if state.erasing + 1 == self.shape.erase_slots {
            self.blocks[block as usize] = PartBlock {
                filled: 0,
                erasing: 0,
                erases: state.erases + 1,
            };
            self.free += self.shape.pages;
        } else {
            self.blocks[block as usize] = PartBlock {
                filled: state.filled,
                erasing: state.erasing + 1,
                erases: state.erases,
            };
        }
    }
}

/// The first block of which no cell is programmed.
fn first_unfilled(blocks: &[PartBlock]) -> Option<usize>
    ensures found { result ≡ position is_unfilled blocks.now }
    ensures in_range { IfSome result (λ block. block < length blocks.now) }
{
    blocks.iter().position(|block| block.filled == 0)
}

/// What a checkpoint says of a block that has had so many erases before.
fn counts_of(block: PartBlock, before: u32) -> BlockCounts
    requires few { before + block.erases < 2 ^ 32 }
    ensures { result ≡ record { filled = block.filled; erases = before + block.erases } }
{
    BlockCounts {
        filled: block.filled,
        erases: before + block.erases,
    }
}

/// How often a block was erased before; 0 where there is no such block.
fn erases_before(before: &[u32], block: u32) -> u32
    ensures { result ≡ slice_index_or before.now block 0 }
{
    match before.get(block as usize) {
        Some(erases) => *erases,
        None => 0,
    }
}

/// The same cell, as a die numbers it whose block with the number of the one aside is the part's last one.
fn renumbered(at: Option<Place>, last: u32, aside: u32) -> Option<Place>
    ensures { result ≡ option_map (renumbered (on_die last aside)) at }
{
    match at {
        None => None,
        Some(place) => Some(Place {
            block: if place.block == last {
                aside
            } else {
                place.block
            },
            page: place.page,
        }),
    }
}
