//! What stands in a volume, from which another one goes on.

ghost use Rattle.std.specs.Prelude.{◌≡◌, ◌<◌, ℕ, slice_index, false, length, map, IfOk};
ghost use Rattle.slot_types.specs.Refusal.{FailsForMemory};
ghost use Rattle.die_checkpoint.specs.Counts.{counts_at};
ghost use Rattle.flash_volume.specs.Cells.{contents};
ghost use Rattle.flash_volume.specs.Checkpoints.{IsIdle, IsAsLeft, checkpoint_of, counts_of};

use crate::array::PageArray;
use crate::volume::Volume;
use die_checkpoint::{BlockCounts, Checkpoint};
use flash_die::Nand;
use slot_types::{Items, Refusal};
use std::alloc::Global;

impl<N: Nand> Volume<N> {
    /// What stands: where each page lies, of each block its programmed pages and its erases, the spare pages and the
    /// balances. It doesn't have what jobs hold, nor what collections do. Where no block is in erase, the device is as
    /// it says. Refused with `NoMemory` alone.
    pub fn checkpoint(&self, alloc: Global) -> Result<Checkpoint, Refusal>
        requires alive { self.now.failed ≡ false }
        ensures ok { IfOk result (λ checkpoint. checkpoint ≡ checkpoint_of N.blocks self.now) }
        ensures left { IfOk result (λ checkpoint. IsIdle (N.blocks self.now.device) →
            IsAsLeft checkpoint (N.blocks self.now.device) (N.failures self.now.device)) }
        ensures pages { self.now.pages ≡ contents (N.blocks self.now.device) self.now.places }
        ensures err { FailsForMemory result }
    {
        let places = self.array.placed.map().to_places(alloc)?;
        let blocks = self.array.counts(alloc)?;
        let balances = Vec::from_slice(alloc, self.ledger.balances())?;
        Ok(Checkpoint {
            places: Items::from_vec(places),
            blocks: Items::from_vec(blocks),
            spare: self.ledger.spare(),
            balances: Items::from_vec(balances),
        })
    }

    /// The device, given up with all that the volume has of it.
    pub fn into_device(self) -> N
        ensures { result ≡ self.device }
    {
        self.array.into_device()
    }
}

impl<N: Nand> PageArray<N> {
    /// What a checkpoint says of the blocks.
    fn counts(&self, alloc: Global) -> Result<Vec<BlockCounts>, Refusal>
        requires alive { self.now.failed ≡ false }
        ensures ok { IfOk result (λ counts.
            counts.items ≡ map counts_of (N.blocks self.now.device)) }
        ensures err { FailsForMemory result }
    {
        counts_in(alloc, self.fills.as_slice(), &self.erases)
    }

    fn into_device(self) -> N
        ensures { result ≡ self.device }
    {
        self.device
    }
}

/// What a checkpoint says of blocks, by their counts.
fn counts_in(alloc: Global, fills: &[u32], erases: &[u32]) -> Result<Vec<BlockCounts>, Refusal>
    requires { length erases.now ≡ length fills.now }
    ensures len { IfOk result (λ counts. length counts.items ≡ length fills.now) }
    ensures each { IfOk result (λ counts.
        (block : ℕ) → block < length fills.now → counts_at counts.items block
        ≡ record { filled = slice_index fills.now block; erases = slice_index erases.now block }) }
    ensures err { FailsForMemory result }
{
    let none = BlockCounts {
        filled: 0,
        erases: 0,
    };
    let mut counts = vec![in alloc; none; fills.len()]?;
    for block in 0..fills.len() {
        counts[block] = BlockCounts {
            filled: fills[block],
            erases: erases[block],
        };
    }
    Ok(counts)
}
