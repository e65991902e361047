//! How often the blocks of a part were erased, by what its labels tell.

ghost use Rattle.std.specs.Prelude.{◌≡◌, ◌+◌, ◌<◌, ◌≤◌, ◌^◌, map, IfOk, IfSome, IfNone};
ghost use Rattle.std.specs.List.{range_with_len};
ghost use Rattle.slot_types.specs.Refusal.{FailsForMemory};
ghost use Rattle.plan_rules.specs.Bound.{MeetsBound};
ghost use Rattle.die_mount.specs.Erases.{AreUnworn, IsFirstWorn, above_told, counts_with, erases_of, one_more};

use plan_rules::figures;
use slot_types::{DiePlan, Refusal};
use std::alloc::Global;

/// With more erases a block's count might reach the greatest that a device counts to before the last slot of a life.
const MOST_ERASES: u64 = 4_293_918_718;

/// One more than a count that was reported; 0 where none was.
fn one_more(erases: Option<u32>) -> u64
    ensures value { result ≡ one_more erases }
    ensures range { result ≤ 2 ^ 32 }
{
    match erases {
        Some(erases) => erases as u64 + 1,
        None => 0,
    }
}

/// One more than the greatest count that was reported; 0 where none was.
fn above_told(told: &[Option<u32>]) -> u64
    ensures value { result ≡ above_told told.now }
    ensures range { result ≤ 2 ^ 32 }
{
    let mut above: u64 = 0;
    for block in 0..told.len() {
        above = above.max(one_more(told[block]));
    }
    above
}

/// How often a block was erased, where that is one more than the greatest count that was reported.
fn erases_of(told: &[Option<u32>], above: u64, block: u32) -> u64
    requires above { above ≡ above_told told.now }
    requires range { above ≤ 2 ^ 32 }
    ensures value { result ≡ erases_of told.now block }
    ensures range { result ≤ 2 ^ 32 }
{
    match told.get(block as usize) {
        Some(Some(erases)) => *erases as u64,
        _ => above,
    }
}

/// The same, with the erase of the block that is erased first.
fn count_with(told: &[Option<u32>], above: u64, block: u32, erased: u32) -> u32
    requires above { above ≡ above_told told.now }
    requires range { above ≤ 2 ^ 32 }
    requires few { erases_of told.now block < 4294967295 }
    ensures { result ≡ counts_with told.now erased block }
{
    let erases = erases_of(told, above, block) as u32;
    if block == erased { erases + 1 } else { erases }
}

/// The first block that might have had too many erases after a mount.
pub(crate) fn first_worn(plan: &DiePlan, told: &[Option<u32>]) -> Option<u32>
    requires bound { MeetsBound plan.now }
    requires few { plan.now.shape.blocks < 1024 }
    ensures worn { IfSome result (IsFirstWorn plan.now told.now) }
    ensures none { IfNone result (AreUnworn plan.now told.now) }
{
    let most = (figures(plan).fmax / plan.alpha) as u64 + 1;
    let above = above_told(told);
    for block in 0..plan.shape.blocks + 1 {
        if MOST_ERASES < erases_of(told, above, block) + most {
            return Some(block);
        }
    }
    None
}

/// By block how often it was erased, with the erase of the block that is erased first.
pub(crate) fn counts_of(
    alloc: Global,
    plan: &DiePlan,
    told: &[Option<u32>],
    erased: u32,
) -> Result<Vec<u32>, Refusal>
    requires unworn { AreUnworn plan.now told.now }
    requires few { plan.now.shape.blocks < 1024 }
    ensures counts { IfOk result (λ counts.
        counts.items ≡ map (counts_with told.now erased) (range_with_len 0 (plan.now.shape.blocks + 1))) }
    ensures refused { FailsForMemory result }
{
    let above = above_told(told);
    let mut counts = Vec::new(alloc);
    for block in 0..plan.shape.blocks + 1 {
        counts.push(count_with(told, above, block, erased))?;
    }
    Ok(counts)
}
