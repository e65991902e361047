//! The blocks of a checkpoint.

ghost use Rattle.std.specs.Prelude.{◌≡◌, ◌≤◌, ◌<◌, length, position, IfSome, IfNone};
ghost use Rattle.die_checkpoint.specs.Counts.{is_overfull, is_open, is_worn, open_from};
ghost use Rattle.die_checkpoint.specs.Fits.{AreWithin, HasOneOpen, AreUnworn};
ghost use Rattle.die_checkpoint.specs.Faults.{IsSecondOpen};

use crate::checkpoint::BlockCounts;

/// With more erases a block's count might reach the greatest that a device counts to before the last slot of a life.
const MOST_ERASES: u32 = 4_293_918_718;

/// The first block in which more pages are programmed than it has.
pub(crate) fn first_overfull(blocks: &[BlockCounts], pages: u32) -> Option<u32>
    requires few { length blocks.now ≤ 1024 }
    ensures found { result ≡ position (is_overfull pages) blocks.now }
    ensures none { IfNone result (AreWithin pages blocks.now) }
{
    match overfull_at(blocks, pages) {
        Some(block) => Some(block as u32),
        None => None,
    }
}

fn overfull_at(blocks: &[BlockCounts], pages: u32) -> Option<usize>
    ensures found { result ≡ position (is_overfull pages) blocks.now }
    ensures in_range { IfSome result (λ block. block < length blocks.now) }
{
    blocks.iter().position(|block| block.filled > pages)
}

/// The second open block.
pub(crate) fn second_open(blocks: &[BlockCounts], pages: u32) -> Option<u32>
    requires few { length blocks.now ≤ 1024 }
    ensures found { IfSome result (IsSecondOpen pages blocks.now) }
    ensures none { IfNone result (HasOneOpen pages blocks.now) }
{
    match open_at(blocks, pages) {
        None => None,
        Some(first) => match open_at(&blocks[first + 1..], pages) {
            Some(beyond) => Some((first + 1 + beyond) as u32),
            None => None,
        },
    }
}

fn open_at(blocks: &[BlockCounts], pages: u32) -> Option<usize>
    ensures found { result ≡ position (is_open pages) blocks.now }
    ensures in_range { IfSome result (λ block. block < length blocks.now) }
{
    blocks
        .iter()
        .position(|block| 0 < block.filled && block.filled < pages)
}

/// The first block that is worn out.
pub(crate) fn first_worn(blocks: &[BlockCounts]) -> Option<u32>
    requires few { length blocks.now ≤ 1024 }
    ensures found { result ≡ position is_worn blocks.now }
    ensures none { IfNone result (AreUnworn blocks.now) }
{
    match worn_at(blocks) {
        Some(block) => Some(block as u32),
        None => None,
    }
}

fn worn_at(blocks: &[BlockCounts]) -> Option<usize>
    ensures found { result ≡ position is_worn blocks.now }
    ensures in_range { IfSome result (λ block. block < length blocks.now) }
{
    blocks.iter().position(|block| block.erases > MOST_ERASES)
}
