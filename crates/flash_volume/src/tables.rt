//! What an array of pages keeps beside its device: blank, and then as a checkpoint has it.

ghost use Rattle.std.specs.Prelude.{◌≡◌, ◌<◌, ◌≤◌, ◌^◌, ℕ, length, map, position, count_by, IfOk, IfSome};
ghost use Rattle.slot_types.specs.Refusal.{FailsForMemory};
ghost use Rattle.slot_types.specs.Places.{is_in};
ghost use Rattle.slot_types.specs.Shapes.{IsShape};
ghost use Rattle.die_checkpoint.specs.Counts.{counts_at};
ghost use Rattle.die_checkpoint.specs.Fits.{Fits};
ghost use Rattle.die_checkpoint.specs.declared.checkpoint.BlockCounts.{BlockCounts};
ghost use Rattle.flash_volume.specs.Array.{no_candidates};
ghost use Rattle.flash_volume.specs.Cells.{is_open_with};
ghost use Rattle.flash_volume.specs.Checkpoints.{AreClosedBelow, AreTablesOf};
ghost use Rattle.flash_volume.specs.Memory.{AreBlank};

use crate::fills::Fills;
use crate::placed_pages::PlacedPages;
use die_checkpoint::{BlockCounts, Checkpoint};
use page_map::PageMap;
use slot_types::{DiePlan, Refusal, Shape};
use std::alloc::Global;
use victim_pick::Victims;

/// What an array of pages keeps beside its device.
#[derive(Drop)]
pub(crate) struct Tables {
    pub(crate) placed: PlacedPages,
    /// By block how many of its cells are programmed.
    pub(crate) fills: Fills,
    /// The open block. There is one at most.
    pub(crate) writing: Option<u32>,
    /// By block its finished erases.
    pub(crate) erases: Vec<u32>,
    /// The closed blocks.
    pub(crate) victims: Victims,
}

impl Tables {
    /// Tables of a device on which nothing was written. Refused with `NoMemory` alone.
    pub(crate) fn blank(alloc: Global, shape: Shape, logical: u32) -> Result<Self, Refusal>
        requires limits { IsShape shape }
        ensures ok { IfOk result (AreBlank shape logical) }
        ensures err { FailsForMemory result }
    {
        let placed = PlacedPages::new(alloc, shape, logical)?;
        let fills = Fills::of(alloc, vec![in alloc; 0; shape.blocks as usize]?)?;
        let erases = vec![in alloc; 0; shape.blocks as usize]?;
        let victims = Victims::new(alloc, shape.blocks, shape.pages)?;
        Ok(Tables {
            placed,
            fills,
            writing: None,
            erases,
            victims,
        })
    }

    /// Blank tables become those of a checkpoint. It takes no memory.
    pub(crate) fn resume(self, plan: &DiePlan, checkpoint: &Checkpoint) -> Tables
        requires fits { Fits plan.now checkpoint.now }
        requires blank { AreBlank plan.now.shape plan.now.logical self }
        ensures { AreTablesOf plan.now.shape checkpoint.now result }
    {
        let Tables {
            mut placed,
            mut fills,
            writing: _,
            mut erases,
            mut victims,
        } = self;
        let blocks = checkpoint.blocks.as_slice();
        placed.bind_all(checkpoint.places.as_slice());
        put_fills(&mut fills, blocks);
        put_erases(&mut erases, blocks);
        close_all(&mut victims, plan.shape, blocks, placed.map());
        let writing = match open_at(fills.as_slice(), plan.shape.pages) {
            Some(block) => Some(block as u32),
            None => None,
        };
        Tables {
            placed,
            fills,
            writing,
            erases,
            victims,
        }
    }
}

/// By block how many of its cells are programmed, as a checkpoint has it.
fn put_fills(fills: &mut Fills, blocks: &[BlockCounts])
    requires len { length fills.old ≡ length blocks.now }
    requires few { length blocks.now < 2 ^ 32 }
    ensures { fills.new ≡ map (λ (b : BlockCounts). b.filled) blocks.now }
{
    for block in 0..blocks.len() {
        fills.set(block as u32, blocks[block].filled);
    }
}

/// By block its finished erases, as a checkpoint has them.
fn put_erases(erases: &mut [u32], blocks: &[BlockCounts])
    requires { length erases.old ≡ length blocks.now }
    ensures { erases.new ≡ map (λ (b : BlockCounts). b.erases) blocks.now }
{
    for block in 0..blocks.len() {
        erases[block] = blocks[block].erases;
    }
}

/// The open block.
fn open_at(fills: &[u32], pages: u32) -> Option<usize>
    ensures found { result ≡ position (is_open_with pages) fills.now }
    ensures in_range { IfSome result (λ block. block < length fills.now) }
{
    fills
        .iter()
        .position(|filled| 0 < *filled && *filled < pages)
}

/// The closed blocks become candidates for a collection, where none is one yet.
fn close_all(victims: &mut Victims, shape: Shape, blocks: &[BlockCounts], map: &PageMap)
    requires none { victims.old ≡ no_candidates shape }
    requires blocks { length blocks.now ≡ shape.blocks }
    requires shape { map.now.shape ≡ shape }
    requires few { (block : ℕ) → count_by (is_in block) map.now.places
        ≤ (counts_at blocks.now block).filled }
    ensures { AreClosedBelow shape.pages blocks.now map.now.places victims.new shape.blocks }
{
    for block in 0..shape.blocks {
        let counts = blocks[block as usize];
        if counts.filled == shape.pages {
            victims.close(block, map.valid(block), counts.erases);
        }
    }
}
