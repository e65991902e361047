//! A list of waivers, longer than any slot's.

use slot_types::{JobNo, Refusal, Waived, WaivedList};
use std::env::Env;
use std::test::Fail;
use test_memory::is_scarce;

fn waived(number: u32) -> Waived {
    Waived {
        number: JobNo(number),
        given: 2,
    }
}

/// Whether the waivers have the numbers from 0 on.
fn are_waived(list: &WaivedList) -> bool {
    let mut number = 0_u32;
    for place in 0..list.len() {
        if list.get(place) != Some(&waived(number)) {
            return false;
        }
        number = number.saturating_add(1);
    }
    true
}

/// Adds a waiver. Where memory is scarce and is refused for it, it is added once more.
fn push<R: Env>(rt: &R, list: &mut WaivedList, number: u32) -> Result<(), Refusal> {
    match list.push(waived(number)) {
        Err(Refusal::NoMemory) if is_scarce(rt) => list.push(waived(number)),
        answer => answer,
    }
}

// The seventeenth takes memory, and is taken where there is some.
#[test]
fn sixteen_waivers_take_no_memory(rt: HostRuntime) -> Result<(), Fail> {
    let mut list = WaivedList::new(rt.alloc());
    for number in 0..16_u32 {
        assert!(rt; list.push(waived(number)).is_ok());
    }
    push(&rt, &mut list, 16)?;
    assert_eq!(rt; list.len(), 17);
    assert!(rt; are_waived(&list));
    Ok(())
}
