//! What a part shows once its power has come, and the table by that.

ghost use Rattle.std.specs.Prelude.{◌≡◌, ◌<◌, ◌≤◌, ◌∷◌, [], length, List, Err, IfOk, IfErr, IsTrue, OnOk, OnErr, ◌↔◌, ◌+◌};
ghost use Rattle.slot_types.specs.Shapes.{IsShape};
ghost use Rattle.spare_blocks.specs.Parts.{PartBlock, part_block};
ghost use Rattle.spare_blocks.specs.Powering.{IsSeen};
ghost use Rattle.stepped_spares.specs.Beginning.{IsBeginRefusal};
ghost use Rattle.stepped_spares.specs.Telling.{HasTellFault, IsPoweredUp, IsScanOf, Tells};

use crate::numbered::number_blocks;
use crate::table::{SpareTable, next_erase};
use slot_types::{Refusal, Shape};
use spare_blocks::{Labelled, Mark, needed, with_cell};
use std::alloc::Global;
use std::marker::Model;

/// Why labels can't be those of the next block.
#[derive(Clone, Copy, PartialEq, Eq, Debug, Drop)]
pub enum TellFault {
    /// All blocks of the part were reported already.
    NoMoreBlocks,
    /// More cells than a block has pages.
    TooManyCells,
}

/// What was reported of the blocks of a part whose power has come, one by one.
#[derive(Drop)]
pub struct LabelScan {
    /// The plan's, with the block that stands aside.
    shape: Shape,
    /// That the part has.
    blocks: u32,
    bad: Vec<u32>,
    all: Vec<Option<Labelled>>,
}

impl Model for LabelScan {
    ghost use Rattle.stepped_spares.specs.Telling.{Told, told_of, IsSoundScan};

    ghost Value = { Told };

    ghost view = { told_of };

    ghost invariant = { IsSoundScan };
}

impl LabelScan {
    /// A scan to which nothing was reported yet, of a part of so many blocks, of which some are listed as bad. It takes
    /// all its memory here.
    ///
    /// Refused with `BadShape` where the shape is out of its limits, and with `NoMemory`.
    pub fn new(alloc: Global, shape: Shape, blocks: u32, bad: &[u32]) -> Result<Self, Refusal>
        ensures begun { IfOk result (λ scan. scan
            ≡ record { shape = shape; blocks = blocks; bad = bad.now; all = [] }) }
        ensures limits { IfOk result (λ scan. IsShape shape) }
        ensures bad_shape { ¬ IsShape shape → result ≡ Err Refusal.BadShape }
        ensures refused { IfErr result IsBeginRefusal }
    {
        if !shape.is_within_limits() {
            return Err(Refusal::BadShape);
        }
        let bad = Vec::from_slice(alloc, bad)?;
        let mut all = Vec::new(alloc);
        all.reserve(blocks as usize)?;
        Ok(LabelScan {
            shape,
            blocks,
            bad,
            all,
        })
    }

    /// How many blocks were reported: the number of the next one.
    pub fn told(&self) -> u32
        ensures { result ≡ length self.now.all }
    {
        self.all.len() as u32
    }

    /// Whether all blocks were reported.
    pub fn is_whole(&self) -> bool
        ensures { IsTrue result ↔ (length self.now.all ≡ self.now.blocks) }
    {
        self.all.len() == self.blocks as usize
    }

    /// Reports the labels in the cells of the next block, from the first cell on; those that aren't given have none.
    /// Those of a block that is listed as bad aren't looked at. Refused with the first fault that stands, and the scan
    /// is as it was then.
    pub fn tell(&mut self, labels: &[Option<Mark>]) -> Result<(), TellFault>
        ensures told { OnOk result ((blocks : List PartBlock) → IsScanOf blocks self.old
            → Tells labels.now (part_block blocks (length self.old.all)) → IsScanOf blocks self.new) }
        ensures one { OnOk result (length self.new.all ≡ length self.old.all + 1) }
        ensures rest { self.new ≡ record self.old { all = self.new.all } }
        ensures fault { IfErr result (HasTellFault self.old (length labels.now)) }
        ensures same { OnErr result (self.new ≡ self.old) }
    {
        if self.all.len() == self.blocks as usize {
            return Err(TellFault::NoMoreBlocks);
        }
        if labels.len() > self.shape.pages as usize {
            return Err(TellFault::TooManyCells);
        }
        let block = self.all.len() as u32;
        let seen = if self.bad.contains(&block) {
            None
        } else {
            seen_in(labels)
        };
        self.all.push_reserved(seen);
        Ok(())
    }

    /// The table by what was reported of all blocks: a block with a label that no other one has gets a number, and of
    /// those with the same first label that in which labels go farthest; blank ones get the numbers that are left. Each
    /// other block that isn't listed as bad is spare, and has to be erased first: [`next`](SpareTable::next) names them
    /// one by one. The table takes all its memory here.
    ///
    /// Refused with `BadShape` where the part has too few blocks for the shape, or more with labels; and with
    /// `NoMemory`.
    pub fn finish(&self, alloc: Global) -> Result<SpareTable, Refusal>
        requires { length self.now.all ≡ self.now.blocks }
        ensures powered { IfOk result (IsPoweredUp self.now) }
        ensures refused { IfErr result IsBeginRefusal }
    {
        let all = self.all.as_slice();
        if needed(all) > self.shape.blocks {
            return Err(Refusal::BadShape);
        }
        let table = number_blocks(
            alloc,
            self.shape.blocks,
            self.blocks,
            self.bad.as_slice(),
            all,
        )?;
        if table.count() != self.shape.blocks as usize {
            return Err(Refusal::BadShape);
        }
        let stage = next_erase(&table, false, 0);
        Ok(SpareTable {
            table,
            pages: self.shape.pages,
            stage,
        })
    }
}

/// What is seen of a block with these labels.
fn seen_in(labels: &[Option<Mark>]) -> Option<Labelled>
    requires few { length labels.now ≤ 4294967295 }
    ensures { (b : PartBlock) → Tells labels.now b → IsSeen b (length labels.now) result }
{
    let mut seen = None;
    for page in 0..labels.len() {
        seen = with_cell(seen, page as u32, labels[page]);
    }
    seen
}
