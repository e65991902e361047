//! What a mount refuses.

use crate::samples::{Cell, Fault, plan, scan_of, tell};
use die_mount::{MountFault, Scan, ScanFault};
use slot_types::Place;
use std::alloc::Global;
use std::test::Fail;

/// How a part with these blocks is refused, if it is.
fn refusal_of(alloc: Global, blocks: &[&[Cell]]) -> Result<Option<Fault>, Fail> {
    let plan = plan(alloc)?;
    Ok(scan_of(alloc, &plan, blocks).err())
}

#[test]
fn a_block_more_than_the_part_has_is_refused(rt: HostRuntime) -> Result<(), Fail> {
    let six = refusal_of(rt.alloc(), &[&[], &[], &[], &[], &[], &[]])?;
    assert!(rt; six == Some(Fault::Scan(ScanFault::NoMoreBlocks)));
    Ok(())
}

#[test]
fn a_cell_more_than_a_block_has_is_refused(rt: HostRuntime) -> Result<(), Fail> {
    let long: [Cell; 5] = [None; 5];
    let five = refusal_of(rt.alloc(), &[&[], &long])?;
    assert!(rt; five == Some(Fault::Scan(ScanFault::TooManyCells)));
    Ok(())
}

#[test]
fn the_first_page_out_of_range_is_refused(rt: HostRuntime) -> Result<(), Fail> {
    let page: [Cell; 3] = [Some((4, 0)), Some((5, 1)), Some((6, 2))];
    let refused = refusal_of(rt.alloc(), &[&page])?;
    assert!(rt; refused == Some(Fault::Scan(ScanFault::BadLabel { cell: 1 })));
    Ok(())
}

/// Serials are below 2^63.
#[test]
fn the_first_serial_out_of_range_is_refused(rt: HostRuntime) -> Result<(), Fail> {
    let serial: [Cell; 3] = [
        None,
        Some((1, 9_223_372_036_854_775_807)),
        Some((2, 9_223_372_036_854_775_808)),
    ];
    let refused = refusal_of(rt.alloc(), &[&serial])?;
    assert!(rt; refused == Some(Fault::Scan(ScanFault::BadLabel { cell: 2 })));
    Ok(())
}

#[test]
fn after_a_refusal_the_scan_is_as_it_was(rt: HostRuntime) -> Result<(), Fail> {
    let alloc = rt.alloc();
    let plan = plan(alloc)?;
    let good: [Cell; 1] = [Some((3, 7))];
    let bad: [Cell; 2] = [Some((3, 8)), Some((9, 9))];
    let Ok(mut scan) = scan_of(alloc, &plan, &[&good]) else {
        return Err("refused".into());
    };
    assert!(rt; tell(alloc, &mut scan, &bad) == Err(Fault::Scan(ScanFault::BadLabel { cell: 1 })));
    assert!(rt; scan.place(3) == Some(Place { block: 0, page: 0 }));
    assert!(rt; scan.next_serial() == 8);
    Ok(())
}

#[test]
fn a_plan_that_may_not_be_used_has_no_mount(rt: HostRuntime) -> Result<(), Fail> {
    let mut plan = plan(rt.alloc())?;
    plan.logical = 6;
    assert!(rt; Scan::new(rt.alloc(), &plan).err() == Some(MountFault::BadPlan));
    Ok(())
}

/// A part has at most 1,024 blocks, and one of them is aside.
#[test]
fn a_plan_leaves_a_block_aside(rt: HostRuntime) -> Result<(), Fail> {
    let mut plan = plan(rt.alloc())?;
    plan.shape.blocks = 1_023;
    assert!(rt; Scan::new(rt.alloc(), &plan).is_ok());
    plan.shape.blocks = 1_024;
    assert!(rt; Scan::new(rt.alloc(), &plan).err() == Some(MountFault::BadPlan));
    Ok(())
}
