//! How often the blocks of a part were erased: what is reported to a scan, and what the die has that begins after the mount,
//! worked out from the rules.

use crate::mounts::plan_of;
use crate::mounts_by_hand::{CUT, CUT_PART, FEW};
use crate::samples::{Cell, Fault, tell_erases};
use crate::sizes::Sizes;
use crate::wrongs::Wrong;
use die_mount::{BeginFault, Mount, Scan};
use std::alloc::Global;

/// What a block shows, and what its labels say of its erases.
type Told<'a> = (&'a [Cell], Option<u32>);

/// The most erases that a block may have as a life begins.
const MOST: u32 = 4_293_918_718;

fn told(alloc: Global, sizes: Sizes, blocks: &[Told<'_>]) -> Result<Scan, Wrong> {
    let plan = plan_of(alloc, sizes)?;
    let mut scan = match Scan::new(alloc, &plan) {
        Ok(scan) => scan,
        Err(fault) => return Err(Wrong::Plan(fault)),
    };
    for (cells, erases) in blocks {
        match tell_erases(alloc, &mut scan, cells, *erases) {
            Ok(()) => {}
            Err(Fault::Scan(fault)) => return Err(Wrong::Scan(fault)),
            Err(_) => return Err(Wrong::Memory),
        }
    }
    Ok(scan)
}

fn begun(alloc: Global, sizes: Sizes, scan: Scan) -> Result<Result<Mount, BeginFault>, Wrong> {
    if !scan.is_whole() {
        return Err(Wrong::NotWhole);
    }
    Ok(Mount::new(alloc, plan_of(alloc, sizes)?, scan))
}

/// The labels of a part of five blocks. Block 0 is erased first, then block 4 and block 1 are emptied.
const CELLS: [[Cell; 4]; 4] = [
    [Some((0, 0)), None, Some((3, 1)), None],
    [None, Some((5, 2)), Some((0, 8)), Some((6, 3))],
    [Some((1, 9)), Some((2, 10)), None, None],
    [Some((3, 11)), Some((4, 12)), Some((5, 20)), Some((6, 14))],
];

/// Such a part with these counts; block 4 has no label.
fn few(alloc: Global, erases: [Option<u32>; 5]) -> Result<Scan, Wrong> {
    let [a, b, c, d] = &CELLS;
    let [p, q, r, s, t] = erases;
    told(alloc, FEW, &[(a, p), (b, q), (c, r), (d, s), (&[], t)])
}

/// Takes all calls of a mount as done.
fn carry_all(mount: &mut Mount) {
    for _ in 0..mount.calls_left() {
        if mount.next().is_none() {
            return;
        }
        mount.done();
    }
}

/// By block of the part its erases once such a part was mounted.
fn after(alloc: Global, erases: [Option<u32>; 5]) -> Result<[u32; 5], Wrong> {
    let mut mount = match begun(alloc, FEW, few(alloc, erases)?)? {
        Ok(mount) => mount,
        Err(fault) => return Err(Wrong::Begin(fault)),
    };
    carry_all(&mut mount);
    Ok([
        mount.erases(0),
        mount.erases(1),
        mount.erases(2),
        mount.erases(3),
        mount.erases(4),
    ])
}

/// Blocks 0, 4 and 1 are erased once each. Of block 4 nothing is reported: it counts as erased once more than block 1, the
/// most erased.
#[test]
fn a_mount_counts_on(rt: HostRuntime) {
    let got = after(rt.alloc(), [Some(5), Some(9), Some(7), Some(2), None]);
    assert_eq!(rt; got, Ok([6, 10, 7, 2, 11]));
}

/// Where nothing is reported of any block, each was erased as often as the mount erased it.
#[test]
fn with_no_counts_a_mount_counts_its_own_erases(rt: HostRuntime) {
    let got = after(rt.alloc(), [None; 5]);
    assert_eq!(rt; got, Ok([1, 1, 0, 0, 1]));
}

/// Whether the checkpoint of a mounted part has, by block of the die, the same count as the mount.
fn has_counts(alloc: Global, erases: [Option<u32>; 5]) -> Result<bool, Wrong> {
    let mut mount = match begun(alloc, FEW, few(alloc, erases)?)? {
        Ok(mount) => mount,
        Err(fault) => return Err(Wrong::Begin(fault)),
    };
    carry_all(&mut mount);
    if mount.next().is_some() {
        return Err(Wrong::Calls);
    }
    let Ok(end) = mount.finish(alloc) else {
        return Err(Wrong::Memory);
    };
    let mut block = 0u32;
    for counts in end.checkpoint.blocks.as_slice() {
        let number = if block == end.aside { 4 } else { block };
        if counts.erases != mount.erases(number) {
            return Ok(false);
        }
        block = block.saturating_add(1);
    }
    Ok(block == 4)
}

#[test]
fn the_checkpoint_has_the_counts(rt: HostRuntime) {
    let got = has_counts(rt.alloc(), [Some(5), Some(9), Some(7), Some(2), None]);
    assert_eq!(rt; got, Ok(true));
}

/// How a mount of such a part is refused, if it is.
fn refused(alloc: Global, erases: [Option<u32>; 5]) -> Result<Option<BeginFault>, Wrong> {
    Ok(begun(alloc, FEW, few(alloc, erases)?)?.err())
}

/// A mount erases a block first, and then empties at most six (`FEW`): it erases none more than seven times.
#[test]
fn a_worn_out_block_is_told_before_anything_is_erased(rt: HostRuntime) {
    let fits = MOST - 7;
    let most = [Some(fits), Some(fits), Some(fits), Some(fits), Some(fits)];
    assert_eq!(rt; refused(rt.alloc(), most), Ok(None));
    let one = [Some(0), Some(0), Some(0), Some(MOST - 6), Some(0)];
    let worn = Ok(Some(BeginFault::WornOut { block: 3 }));
    assert_eq!(rt; refused(rt.alloc(), one), worn);
    // the one of which nothing is reported
    let none = [Some(0), None, Some(fits), Some(0), Some(0)];
    let untold = Ok(Some(BeginFault::WornOut { block: 1 }));
    assert_eq!(rt; refused(rt.alloc(), none), untold);
    // the first of two
    let two = [Some(0), Some(u32::MAX), None, Some(u32::MAX), Some(0)];
    assert_eq!(rt; refused(rt.alloc(), two), untold);
}

/// Where no block is idle, that is said first.
#[test]
fn a_part_without_an_idle_block_is_not_worn_out(rt: HostRuntime) {
    let [a, b, c, d, e, f, g] = &CUT_PART;
    let worn = Some(u32::MAX);
    let blocks: [Told<'_>; 7] = [
        (a, worn),
        (b, worn),
        (c, worn),
        (d, worn),
        (e, worn),
        (f, worn),
        (g, worn),
    ];
    let got = match told(rt.alloc(), CUT, &blocks) {
        Ok(scan) => match begun(rt.alloc(), CUT, scan) {
            Ok(result) => Ok(result.err()),
            Err(wrong) => Err(wrong),
        },
        Err(wrong) => Err(wrong),
    };
    assert_eq!(rt; got, Ok(Some(BeginFault::NoIdleBlock)));
}
