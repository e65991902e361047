//! The accounts of a checkpoint.

ghost use Rattle.std.specs.Prelude.{◌≡◌, ◌≤◌, ◌<◌, ◌*◌, ◌^◌, ℕ, length, sum, sum_by, slice_index, IfSome, IfNone};
ghost use Rattle.die_checkpoint.specs.Counts.{free_in};
ghost use Rattle.die_checkpoint.specs.Faults.{IsFirstAbove};

use crate::checkpoint::BlockCounts;

/// The first task whose balance is above its cap.
pub(crate) fn first_above(caps: &[u32], balances: &[u32]) -> Option<u32>
    requires few { length balances.now ≤ 16 }
    requires tasks { length balances.now ≡ length caps.now }
    ensures found { IfSome result (IsFirstAbove caps.now balances.now) }
    ensures none { IfNone result ((task : ℕ)
        → slice_index balances.now task ≤ slice_index caps.now task) }
{
    for task in 0..balances.len() {
        if balances[task] > caps[task] {
            return Some(task as u32);
        }
    }
    None
}

/// All balances together.
pub(crate) fn sum_of(balances: &[u32]) -> u64
    requires { length balances.now ≤ 16 }
    ensures within { result < 2 ^ 37 }
    ensures value { result ≡ sum balances.now }
{
    let mut total: u64 = 0;
    for balance in balances {
        total += *balance as u64;
    }
    total
}

/// The free pages of all blocks, none of which has more programmed than it has.
pub(crate) fn free_of(blocks: &[BlockCounts], pages: u32) -> u64
    requires { length blocks.now ≤ 1024 }
    ensures { result ≡ sum_by (free_in pages) blocks.now }
{
    let mut total: u64 = 0;
    for block in blocks {
        total += pages.saturating_sub(block.filled) as u64;
    }
    total
}
