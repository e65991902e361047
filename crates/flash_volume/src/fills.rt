//! By block how many of its cells are programmed.

ghost use Rattle.std.specs.Prelude.{◌≡◌, ◌<◌, ◌≤◌, length, slice_index, slice_set, position, IfOk, IfSome};
ghost use Rattle.slot_types.specs.Refusal.{FailsForMemory};
ghost use Rattle.flash_volume.specs.Cells.{is_wholly_free};

use crate::free_blocks::FreeBlocks;
use slot_types::Refusal;
use std::alloc::Global;
use std::marker::Model;

/// By block how many of its cells are programmed. Contracts see these counts.
///
/// Each call but `of` takes constant time, since the blocks that are wholly free are kept as a set.
#[derive(Drop)]
pub(crate) struct Fills {
    counts: Vec<u32>,
    /// The blocks that are wholly free.
    free: FreeBlocks,
}

impl Model for Fills {
    ghost use Rattle.std.specs.Prelude.{ℕ, List, length};
    ghost use Rattle.flash_volume.specs.FreeBlocks.{MarksFree};

    ghost Value = { List ℕ };

    ghost view = { λ f. f.counts.items };

    ghost invariant = { λ f. MarksFree f.counts.items f.free (length f.counts.items) };
}

impl Fills {
    /// These counts, of at most 4,096 blocks. Refused with `NoMemory` alone.
    pub(crate) fn of(alloc: Global, counts: Vec<u32>) -> Result<Self, Refusal>
        requires few { length counts.items ≤ 4096 }
        ensures ok { IfOk result (λ fills. fills ≡ counts.items) }
        ensures err { FailsForMemory result }
    {
        let mut free = FreeBlocks::new(alloc, counts.len())?;
        for block in 0..counts.len() {
            if counts[block] == 0 {
                free.insert(block as u32);
            }
        }
        Ok(Fills { counts, free })
    }

    /// The counts.
    pub(crate) fn as_slice(&self) -> &[u32]
        ensures { result.now ≡ self.now }
    {
        &self.counts
    }

    /// How many cells of a block are programmed.
    pub(crate) fn get(&self, block: u32) -> u32
        requires { block < length self.now }
        ensures { result ≡ slice_index self.now block }
    {
        self.counts[block as usize]
    }

    /// `filled` cells of a block are programmed now.
    pub(crate) fn set(&mut self, block: u32, filled: u32)
        requires { block < length self.old }
        ensures { self.new ≡ slice_set self.old block filled }
    {
        self.counts[block as usize] = filled;
        if filled == 0 {
            self.free.insert(block);
        } else {
            self.free.remove(block);
        }
    }

    /// The first block that is wholly free.
    pub(crate) fn first_wholly_free(&self) -> Option<u32>
        ensures found { result ≡ position is_wholly_free self.now }
        ensures in_range { IfSome result (λ block. block < length self.now) }
    {
        self.free.least()
    }
}
