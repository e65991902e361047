//! A part of 1,024 blocks of 256 pages.

use crate::samples::{Cell, plan, tell};
use die_mount::{FirstErase, Scan};
use slot_types::Place;
use std::test::Fail;

const CELLS: u32 = 262_144;

const LOGICAL: u32 = 190_000;

/// The page that the i-th program wrote. Seven and the number of pages have no common divisor: so the programs from i
/// on write each page once before the first one comes again.
fn page_of(i: u32) -> u32 {
    (i as u64 * 7 % LOGICAL as u64) as u32
}

/// 1,023 blocks of the die, with 1,021 closed ones of at most 192 pages that may stay: 1,021 * 193 is more than 190,000.
/// Each cell is programmed, in order, so the last 190,000 programs count: those from the 72,144th on. That is cell 208
/// of block 281, so in blocks 0 to 280 no page is found.
#[test]
fn each_page_of_a_large_part_is_found_at_its_last_program(rt: HostRuntime) -> Result<(), Fail> {
    let alloc = rt.alloc();
    let mut plan = plan(alloc)?;
    plan.shape.blocks = 1_023;
    plan.shape.pages = 256;
    plan.alpha = 64;
    plan.logical = LOGICAL;
    let Ok(mut scan) = Scan::new(alloc, &plan) else {
        return Err("refused".into());
    };
    for block in 0..1_024u32 {
        let mut cells: Vec<Cell> = Vec::new(alloc);
        for cell in 0..256u32 {
            let i = block * 256 + cell;
            cells.push(Some((page_of(i), i as u64)))?;
        }
        assert!(rt; tell(alloc, &mut scan, cells.as_slice()).is_ok());
    }
    for i in CELLS - LOGICAL..CELLS {
        let at = Place {
            block: i / 256,
            page: i % 256,
        };
        assert!(rt; scan.place(page_of(i)) == Some(at));
    }
    assert!(rt; scan.next_serial() == 262_144);
    if scan.is_whole() {
        assert!(rt; scan.first_erase() == FirstErase::Idle { block: 0 });
    } else {
        assert!(rt; false);
    }
    Ok(())
}
