//! Why a mount can't go on after its scan, and that the part is mounted all the same once that is mended.

use crate::chips::Chip;
use crate::mounts::{mounts, plan_of, scan};
use crate::mounts_by_hand::{CUT, CUT_PART, part_of};
use crate::parts::Held;
use crate::sizes::Sizes;
use crate::wrongs::Wrong;
use die_mount::{BeginFault, Mount};
use std::alloc::Global;

/// The part by hand, in which no block is idle.
fn cut_part(alloc: Global) -> Result<Chip, Wrong> {
    let [a, b, c, d, e, f, g] = &CUT_PART;
    part_of(alloc, CUT, &[a, b, c, d, e, f, g])
}

/// The same part where block 3 was undone already.
fn idle_part(alloc: Global) -> Result<Chip, Wrong> {
    let [a, b, c, _, e, f, g] = &CUT_PART;
    part_of(alloc, CUT, &[a, b, c, &[], e, f, g])
}

/// How a mount that erases an idle block of this part is refused under a plan, if it is.
fn fault_of_new(alloc: Global, chip: &Chip, sizes: Sizes) -> Result<Option<BeginFault>, Wrong> {
    let scan = scan(alloc, CUT, chip, None)?;
    if !scan.is_whole() {
        return Err(Wrong::NotWhole);
    }
    Ok(Mount::new(alloc, plan_of(alloc, sizes)?, scan).err())
}

/// How a mount that undoes this block is refused under a plan, if it is. The second scan has no label of the block
/// `without`.
fn fault_of_undo(
    alloc: Global,
    chip: &Chip,
    sizes: Sizes,
    without: Option<u32>,
    block: u32,
) -> Result<Option<BeginFault>, Wrong> {
    let before = scan(alloc, CUT, chip, None)?;
    let again = scan(alloc, CUT, chip, without)?;
    if !before.is_whole() {
        return Err(Wrong::NotWhole);
    }
    if !again.is_whole() {
        return Err(Wrong::NotWhole);
    }
    Ok(Mount::undo(alloc, plan_of(alloc, sizes)?, &before, again, block).err())
}

/// Other plans than that of the scan: first four of which each may be used, then one with a page too many.
const OTHERS: [Sizes; 5] = [
    Sizes { blocks: 7, ..CUT },
    Sizes { pages: 5, ..CUT },
    Sizes { slots: 2, ..CUT },
    Sizes { logical: 10, ..CUT },
    Sizes { logical: 12, ..CUT },
];

/// Whether each other plan is refused first of all, whether or not a block is idle.
fn refuses_others(alloc: Global, chip: &Chip) -> Result<bool, Wrong> {
    for sizes in &OTHERS {
        let new = fault_of_new(alloc, chip, *sizes)?;
        let undo = fault_of_undo(alloc, chip, *sizes, Some(3), 3)?;
        let neither = fault_of_undo(alloc, chip, *sizes, None, 9)?;
        if [new, undo, neither] != [Some(BeginFault::BadPlan); 3] {
            return Ok(false);
        }
    }
    Ok(true)
}

fn refuses_on_both(alloc: Global) -> Result<[bool; 2], Wrong> {
    let cut = refuses_others(alloc, &cut_part(alloc)?)?;
    let idle = refuses_others(alloc, &idle_part(alloc)?)?;
    Ok([cut, idle])
}

#[test]
fn another_plan_than_that_of_the_scan_is_refused(rt: HostRuntime) {
    assert_eq!(rt; refuses_on_both(rt.alloc()), Ok([true; 2]));
}

/// Whether a mount is refused just where no block is idle, and an undo just where its block isn't.
fn refuses_pages(alloc: Global) -> Result<bool, Wrong> {
    let (cut, idle) = (cut_part(alloc)?, idle_part(alloc)?);
    let none = Some(BeginFault::NoIdleBlock);
    let new = [
        fault_of_new(alloc, &cut, CUT)?,
        fault_of_new(alloc, &idle, CUT)?,
    ];
    let undo = [
        fault_of_undo(alloc, &cut, CUT, Some(3), 3)?,
        // a page is found in it, still or anyway
        fault_of_undo(alloc, &cut, CUT, None, 3)?,
        fault_of_undo(alloc, &cut, CUT, Some(3), 2)?,
        // the part has seven blocks
        fault_of_undo(alloc, &cut, CUT, Some(3), 7)?,
        fault_of_undo(alloc, &idle, CUT, None, 3)?,
    ];
    Ok(new == [none, None] && undo == [None, none, none, none, None])
}

#[test]
fn a_block_with_a_page_is_not_erased(rt: HostRuntime) {
    assert_eq!(rt; refuses_pages(rt.alloc()), Ok(true));
}

/// Refuses mounts of the part that was cut, and mounts it then: how many calls that takes, and whether it undoes a block.
fn mounts_after_refusals(alloc: Global) -> Result<(u32, bool), Wrong> {
    let mut chip = cut_part(alloc)?;
    let held = Held::numbers(alloc, CUT.logical)?;
    let _ = refuses_others(alloc, &chip)?;
    let _ = fault_of_new(alloc, &chip, CUT)?;
    let _ = fault_of_undo(alloc, &chip, CUT, None, 3)?;
    if !chip.looks_like(&cut_part(alloc)?) {
        return Err(Wrong::Refusal);
    }
    mounts(alloc, CUT, &mut chip, &held)
}

#[test]
fn after_a_refusal_the_part_is_mounted(rt: HostRuntime) {
    assert_eq!(rt; mounts_after_refusals(rt.alloc()), Ok((8, true)));
}
