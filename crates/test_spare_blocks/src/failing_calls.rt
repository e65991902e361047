//! Calls of a part fail: each in turn, two that are near each other, and the part itself at each in turn.

use crate::kinds::{BLOCKS, LOGICAL, core_on, ongoing_on, planned_on};
use crate::parts::{PAGES, device};
use crate::played::{Ended, play};
use crate::wrongs::Wrong;
use slot_types::Refusal;
use spare_blocks::{Failures, Health};
use std::alloc::Global;

/// How many asks a die has.
const ASKS: u32 = 40;

/// The kinds of dies.
#[derive(Clone, Copy, PartialEq, Eq, Debug, Drop)]
pub(crate) enum Which {
    Core,
    Planned,
    Ongoing,
}

/// How a die ends after some asks, on a part with `spares` spare blocks whose calls fail so.
pub(crate) fn ends(
    alloc: Global,
    which: Which,
    spares: u32,
    failures: Failures,
    asks: u32,
) -> Result<Ended, Wrong> {
    let device = device(alloc, BLOCKS, spares, failures)?;
    match which {
        Which::Core => play(alloc, core_on(alloc, device)?, LOGICAL, asks),
        Which::Planned => play(alloc, planned_on(alloc, device)?, LOGICAL, asks),
        Which::Ongoing => play(alloc, ongoing_on(alloc, device)?, LOGICAL, asks),
    }
}

/// The same, where these calls fail, and this one finds the part at fault.
fn ends_by(
    alloc: Global,
    which: Which,
    spares: u32,
    fails_at: &[u64],
    faults_at: Option<u64>,
) -> Result<Ended, Wrong> {
    let failures = Failures::script(Vec::from_slice(alloc, fails_at)?, faults_at);
    ends(alloc, which, spares, failures, ASKS)
}

/// How many calls may fail before a die works: each block of the part is erased.
fn erases(spares: u32) -> u64 {
    u64::from(BLOCKS.saturating_add(spares))
}

/// How many may fail in all where none does: the erases, and those that the acts of the die take.
fn calls(alloc: Global, which: Which, spares: u32) -> Result<u64, Wrong> {
    let whole = ends_by(alloc, which, spares, &[], None)?;
    Ok(erases(spares).saturating_add(whole.calls))
}

/// One spare block is there, and this call fails: the die does all that it is asked, and the spare block is used up just
/// if the call was made.
fn one_fails_at(alloc: Global, which: Which, failing: u64, is_made: bool) -> Result<Ended, Wrong> {
    let end = ends_by(alloc, which, 1, &[failing], None)?;
    if end.health != Health::Working {
        return Err(Wrong::End { failing });
    }
    let left = if is_made { 0 } else { 1 };
    if end.spares != left {
        return Err(Wrong::Spares {
            failing,
            left: end.spares,
        });
    }
    Ok(end)
}

/// So with each call in turn. The answer is the most that a slot has cost.
fn one_fails(alloc: Global, which: Which) -> Result<u64, Wrong> {
    let calls = calls(alloc, which, 1)?;
    let mut most = 0;
    for failing in 0..calls {
        most = one_fails_at(alloc, which, failing, true)?.most.max(most);
    }
    one_fails_at(alloc, which, calls, false)?;
    Ok(most)
}

/// What the slot of a block's last cell costs, where its program fails: that call, a read and a program for each cell
/// before it, and the program once more.
const DEAREST: u64 = 2 * PAGES as u64;

#[test]
fn a_die_sees_nothing_of_a_block_that_fails(rt: HostRuntime) {
    assert_eq!(rt; one_fails(rt.alloc(), Which::Core), Ok(DEAREST));
}

#[test]
fn one_that_keeps_its_plan_sees_nothing_of_it(rt: HostRuntime) {
    assert_eq!(rt; one_fails(rt.alloc(), Which::Planned), Ok(DEAREST));
}

#[test]
fn one_that_goes_on_by_itself_sees_nothing_of_it(rt: HostRuntime) {
    assert_eq!(rt; one_fails(rt.alloc(), Which::Ongoing), Ok(DEAREST));
}

/// A call of an act of the die fails, and one of those that come after it: with as many spare blocks the die does all that
/// it is asked, and with one less its slot is refused.
fn two_fail_at(alloc: Global, first: u64, later: u64) -> Result<(), Wrong> {
    let failing = erases(2).saturating_add(first);
    let both = [failing, failing.saturating_add(later)];
    let end = ends_by(alloc, Which::Core, 2, &both, None)?;
    if end.health != Health::Working || end.spares != 0 {
        return Err(Wrong::End { failing });
    }
    let failing = erases(1).saturating_add(first);
    let both = [failing, failing.saturating_add(later)];
    let end = ends_by(alloc, Which::Core, 1, &both, None)?;
    if end.health != Health::WornOut {
        return Err(Wrong::End { failing });
    }
    Ok(())
}

/// So with each call, and each of the next that a spare block may be filled by.
fn two_fail(alloc: Global) -> Result<(), Wrong> {
    let calls = calls(alloc, Which::Core, 2)?.saturating_sub(erases(2));
    for first in 0..calls {
        for later in 1..DEAREST {
            if first.saturating_add(later) < calls {
                two_fail_at(alloc, first, later)?;
            }
        }
    }
    Ok(())
}

#[test]
fn the_last_spare_block_is_used_up_before_a_slot_is_refused(rt: HostRuntime) {
    assert_eq!(rt; two_fail(rt.alloc()), Ok(()));
}

/// The part has a fault at this call: it isn't taken for a block that failed.
fn faults_at(alloc: Global, call: u64) -> Result<(), Wrong> {
    match ends_by(alloc, Which::Core, 1, &[], Some(call)) {
        Ok(end) if end.health == Health::Faulted && end.spares == 1 => Ok(()),
        Err(Wrong::Refused(Refusal::DeviceFault)) if call < erases(1) => Ok(()),
        Ok(_) => Err(Wrong::End { failing: call }),
        Err(wrong) => Err(wrong),
    }
}

/// The part has a fault at a call after one that failed, as a spare block is filled or later.
fn faults_after(alloc: Global, failing: u64, later: u64) -> Result<(), Wrong> {
    let fault = failing.saturating_add(later);
    let end = ends_by(alloc, Which::Core, 1, &[failing], Some(fault))?;
    if end.health != Health::Faulted {
        return Err(Wrong::End { failing });
    }
    Ok(())
}

/// So with each call in turn, and each of the next.
fn faults(alloc: Global) -> Result<(), Wrong> {
    let calls = calls(alloc, Which::Core, 1)?;
    for call in 0..calls {
        faults_at(alloc, call)?;
        for later in 1..DEAREST {
            if call >= erases(1) && call.saturating_add(later) < calls {
                faults_after(alloc, call, later)?;
            }
        }
    }
    Ok(())
}

#[test]
fn a_fault_of_the_part_is_told_as_one(rt: HostRuntime) {
    assert_eq!(rt; faults(rt.alloc()), Ok(()));
}
