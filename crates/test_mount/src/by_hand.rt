//! Parts by hand.

use crate::samples::{Cell, plan, scan_of};
use die_mount::FirstErase;
use slot_types::Place;
use std::alloc::Global;
use std::test::Fail;

/// Where each of the five pages is found, the next serial, and the block that is erased first.
type Mounted = ([Option<(u32, u32)>; 5], u64, FirstErase);

fn pair(place: Option<Place>) -> Option<(u32, u32)> {
    match place {
        Some(place) => Some((place.block, place.page)),
        None => None,
    }
}

fn mounted(alloc: Global, blocks: &[&[Cell]]) -> Result<Mounted, Fail> {
    let plan = plan(alloc)?;
    let Ok(scan) = scan_of(alloc, &plan, blocks) else {
        return Err("the part is refused".into());
    };
    if !scan.is_whole() {
        return Err("the part isn't whole".into());
    }
    let places = [
        pair(scan.place(0)),
        pair(scan.place(1)),
        pair(scan.place(2)),
        pair(scan.place(3)),
        pair(scan.place(4)),
    ];
    Ok((places, scan.next_serial(), scan.first_erase()))
}

#[test]
fn a_fresh_part_shows_nothing(rt: HostRuntime) -> Result<(), Fail> {
    let found = mounted(rt.alloc(), &[&[], &[], &[], &[], &[]])?;
    assert!(rt; found == ([None; 5], 0, FirstErase::Idle { block: 0 }));
    // Nor does one whose cells are all blank or torn.
    let blank: [Cell; 4] = [None; 4];
    let found = mounted(rt.alloc(), &[&blank, &blank, &blank, &blank, &blank])?;
    assert!(rt; found == ([None; 5], 0, FirstErase::Idle { block: 0 }));
    Ok(())
}

#[test]
fn the_label_with_the_greater_serial_counts(rt: HostRuntime) -> Result<(), Fail> {
    let early: [Cell; 2] = [Some((0, 0)), Some((1, 1))];
    let late: [Cell; 1] = [Some((0, 2))];
    let found = mounted(rt.alloc(), &[&early, &late, &[], &[], &[]])?;
    let at = [Some((1, 0)), Some((0, 1)), None, None, None];
    assert!(rt; found == (at, 3, FirstErase::Idle { block: 2 }));
    Ok(())
}

#[test]
fn so_it_does_in_a_block_before_the_other_label(rt: HostRuntime) -> Result<(), Fail> {
    let early: [Cell; 2] = [Some((0, 0)), Some((1, 1))];
    let late: [Cell; 1] = [Some((0, 2))];
    let found = mounted(rt.alloc(), &[&late, &early, &[], &[], &[]])?;
    let at = [Some((0, 0)), Some((1, 1)), None, None, None];
    assert!(rt; found == (at, 3, FirstErase::Idle { block: 2 }));
    Ok(())
}

#[test]
fn of_three_labels_in_a_block_the_last_counts(rt: HostRuntime) -> Result<(), Fail> {
    let thrice: [Cell; 3] = [Some((4, 6)), Some((4, 7)), Some((4, 8))];
    let found = mounted(rt.alloc(), &[&thrice, &[], &[], &[], &[]])?;
    let at = [None, None, None, None, Some((0, 2))];
    assert!(rt; found == (at, 9, FirstErase::Idle { block: 1 }));
    Ok(())
}

/// Block 1 was in erase: two of its labels are left, both older than their pages' newest. No page is found in it, so it
/// is erased first, anew: the blocks that look blank come after it.
#[test]
fn a_block_in_erase_shows_older_labels(rt: HostRuntime) -> Result<(), Fail> {
    let newer: [Cell; 4] = [Some((0, 10)), Some((2, 11)), Some((1, 12)), Some((3, 13))];
    let half: [Cell; 4] = [None, Some((0, 1)), None, Some((2, 3))];
    let found = mounted(rt.alloc(), &[&newer, &half, &[], &[], &[]])?;
    let at = [Some((0, 0)), Some((0, 2)), Some((0, 1)), Some((0, 3)), None];
    assert!(rt; found == (at, 14, FirstErase::Idle { block: 1 }));
    Ok(())
}

/// The second program of block 1 was cut: its cell is torn, so page 1 is where it was.
#[test]
fn a_program_that_was_cut_leaves_the_page_where_it_was(rt: HostRuntime) -> Result<(), Fail> {
    let closed: [Cell; 4] = [Some((0, 0)), Some((1, 1)), Some((2, 2)), Some((3, 3))];
    let open: [Cell; 2] = [Some((0, 4)), None];
    let found = mounted(rt.alloc(), &[&closed, &open, &[], &[], &[]])?;
    let at = [Some((1, 0)), Some((0, 1)), Some((0, 2)), Some((0, 3)), None];
    assert!(rt; found == (at, 5, FirstErase::Idle { block: 2 }));
    Ok(())
}

/// A page lies in each block, and block 3 shows the greatest serial: a mount was cut as it copied page 4 there from
/// block 0.
#[test]
fn where_no_block_is_idle_the_newest_is_undone(rt: HostRuntime) -> Result<(), Fail> {
    let first: [Cell; 2] = [Some((0, 0)), Some((4, 4))];
    let second: [Cell; 1] = [Some((1, 1))];
    let third: [Cell; 1] = [Some((2, 2))];
    let copies: [Cell; 1] = [Some((4, 9))];
    let last: [Cell; 1] = [Some((3, 3))];
    let found = mounted(rt.alloc(), &[&first, &second, &third, &copies, &last])?;
    let at = [
        Some((0, 0)),
        Some((1, 0)),
        Some((2, 0)),
        Some((4, 0)),
        Some((3, 0)),
    ];
    assert!(rt; found == (at, 10, FirstErase::Undo { block: 3 }));
    Ok(())
}

/// The same part without block 3: page 4 is found in block 0 again, and block 3 is idle.
#[test]
fn without_the_newest_block_its_pages_are_where_they_were(rt: HostRuntime) -> Result<(), Fail> {
    let first: [Cell; 2] = [Some((0, 0)), Some((4, 4))];
    let second: [Cell; 1] = [Some((1, 1))];
    let third: [Cell; 1] = [Some((2, 2))];
    let last: [Cell; 1] = [Some((3, 3))];
    let found = mounted(rt.alloc(), &[&first, &second, &third, &[], &last])?;
    let at = [
        Some((0, 0)),
        Some((1, 0)),
        Some((2, 0)),
        Some((4, 0)),
        Some((0, 1)),
    ];
    assert!(rt; found == (at, 5, FirstErase::Idle { block: 3 }));
    Ok(())
}

/// All twenty cells have labels, and only the last five programs count: in blocks 3 and 4.
#[test]
fn a_full_part_has_idle_blocks(rt: HostRuntime) -> Result<(), Fail> {
    let a: [Cell; 4] = [Some((0, 0)), Some((1, 1)), Some((2, 2)), Some((3, 3))];
    let b: [Cell; 4] = [Some((4, 4)), Some((0, 5)), Some((1, 6)), Some((2, 7))];
    let c: [Cell; 4] = [Some((3, 8)), Some((4, 9)), Some((0, 10)), Some((1, 11))];
    let d: [Cell; 4] = [Some((2, 12)), Some((3, 13)), Some((4, 14)), Some((0, 15))];
    let e: [Cell; 4] = [Some((1, 16)), Some((2, 17)), Some((3, 18)), Some((4, 19))];
    let found = mounted(rt.alloc(), &[&a, &b, &c, &d, &e])?;
    let at = [
        Some((3, 3)),
        Some((4, 0)),
        Some((4, 1)),
        Some((4, 2)),
        Some((4, 3)),
    ];
    assert!(rt; found == (at, 20, FirstErase::Idle { block: 0 }));
    Ok(())
}

/// As above, but page 4 was in block 3 alone: without that block it would be lost.
#[test]
fn a_page_in_the_newest_block_alone_is_told(rt: HostRuntime) -> Result<(), Fail> {
    let alloc = rt.alloc();
    let plan = plan(alloc)?;
    let older: [Cell; 2] = [Some((0, 0)), Some((4, 4))];
    let none: [Cell; 2] = [Some((0, 0)), None];
    let second: [Cell; 1] = [Some((1, 1))];
    let third: [Cell; 1] = [Some((2, 2))];
    let newest: [Cell; 1] = [Some((4, 9))];
    let last: [Cell; 1] = [Some((3, 3))];
    let Ok(before) = scan_of(alloc, &plan, &[&older, &second, &third, &newest, &last]) else {
        return Err("the part is refused".into());
    };
    let Ok(undone) = scan_of(alloc, &plan, &[&older, &second, &third, &[], &last]) else {
        return Err("the part is refused".into());
    };
    let Ok(lost) = scan_of(alloc, &plan, &[&none, &second, &third, &[], &last]) else {
        return Err("the part is refused".into());
    };
    assert!(rt; undone.first_lost(&before) == None);
    assert!(rt; lost.first_lost(&before) == Some(4));
    Ok(())
}
