//! Where the power goes.

use crate::lives::{life, new_part};
use crate::pages::Pages;
use crate::parts::LOGICAL;
use crate::wrongs::Wrong;
use spare_blocks::Failures;
use std::alloc::Global;

/// How many writes the first life has, that in which the power goes, and the last one.
const WRITES: [u32; 3] = [16, 24, 6];

/// No call fails.
fn none(alloc: Global) -> Failures {
    Failures::script(Vec::new(alloc), None)
}

/// In the second life these calls fail, and at this one the power goes: the call is carried out, or it isn't. The third
/// life finds each finished write, and writes on. Says whether the power went.
fn cut_at(
    alloc: Global,
    fails_at: &[u64],
    cut: u64,
    done: bool,
    pattern: u32,
) -> Result<bool, Wrong> {
    let mut pages = Pages::new(alloc, LOGICAL)?;
    let part = new_part(alloc)?;
    let (left, _) = life(alloc, part, none(alloc), 0, &mut pages, 1, WRITES[0], false)?;
    let failures = Failures::cut(Vec::from_slice(alloc, fails_at)?, cut, done);
    let (left, stayed) = life(alloc, left, failures, 5, &mut pages, 100, WRITES[1], true)?;
    let last = none(alloc);
    let _ = life(
        alloc, left, last, pattern, &mut pages, 200, WRITES[2], false,
    )?;
    Ok(!stayed)
}

/// At each call the power goes, with a block that fails so many calls before it. The last call is one that isn't made.
fn cut_everywhere(alloc: Global, before: &[u64]) -> Result<u64, Wrong> {
    for cut in 0..1000u64 {
        let mut fails_at = Vec::new(alloc);
        for back in before {
            fails_at.push(cut.saturating_sub(*back))?;
        }
        let went = cut_at(alloc, fails_at.as_slice(), cut, false, (cut % 16) as u32)?;
        let _ = cut_at(alloc, fails_at.as_slice(), cut, true, (cut % 13) as u32)?;
        if !went {
            return Ok(cut);
        }
    }
    Err(Wrong::Rare)
}

/// The power goes at so many calls.
fn is_often(calls: Result<u64, Wrong>) -> Result<bool, Wrong> {
    Ok(calls? > 30)
}

#[test]
fn power_that_goes_at_any_call_loses_nothing(rt: HostRuntime) {
    assert_eq!(rt; is_often(cut_everywhere(rt.alloc(), &[])), Ok(true));
}

#[test]
fn nor_does_it_where_a_block_is_being_replaced(rt: HostRuntime) {
    for back in [1u64, 2, 4, 7] {
        assert_eq!(rt; is_often(cut_everywhere(rt.alloc(), &[back])), Ok(true));
    }
}

#[test]
fn nor_does_it_where_a_spare_block_fails_meanwhile(rt: HostRuntime) {
    for back in [3u64, 5] {
        let both = [back, back.saturating_sub(2)];
        assert_eq!(rt; is_often(cut_everywhere(rt.alloc(), &both)), Ok(true));
    }
}
