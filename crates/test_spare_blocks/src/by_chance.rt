//! Blocks fail by a seed, until no spare one is left.

use crate::failing_calls::{Which, ends};
use crate::wrongs::Wrong;
use slot_types::Refusal;
use spare_blocks::{Failures, Health};
use std::alloc::Global;

/// How many spare blocks a part has.
const SPARES: u32 = 5;

/// How many asks a die has: those that keep their plans write once in 20 slots.
const ASKS: u32 = 700;

/// One call in this number fails.
const ONE_IN: u64 = 10;

/// Each slot is watched, and each page is read at the end (`play`): the die has to go on until its part is worn out. A
/// part may have too few blocks left after they were erased.
fn wears_out(alloc: Global, which: Which, seed: u64) -> Result<(), Wrong> {
    let failures = Failures::seeded(alloc, seed, ONE_IN);
    match ends(alloc, which, SPARES, failures, ASKS) {
        Ok(end) if end.health == Health::WornOut => Ok(()),
        Ok(_) => Err(Wrong::Rare),
        Err(Wrong::Refused(Refusal::BadShape)) => Ok(()),
        Err(wrong) => Err(wrong),
    }
}

fn all_wear_out(alloc: Global, which: Which) -> Result<(), Wrong> {
    for seed in 1..80 {
        wears_out(alloc, which, seed)?;
    }
    Ok(())
}

#[test]
fn a_die_works_until_its_part_is_worn_out(rt: HostRuntime) {
    assert_eq!(rt; all_wear_out(rt.alloc(), Which::Core), Ok(()));
}

#[test]
fn so_does_one_that_keeps_its_plan(rt: HostRuntime) {
    assert_eq!(rt; all_wear_out(rt.alloc(), Which::Planned), Ok(()));
}

#[test]
fn so_does_one_that_goes_on_by_itself(rt: HostRuntime) {
    assert_eq!(rt; all_wear_out(rt.alloc(), Which::Ongoing), Ok(()));
}
