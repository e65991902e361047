//! A table that a driver keeps (`stepped_spares`), on a part whose calls fail.

ghost use Rattle.std.specs.Prelude.{◌≡◌, IfOk};
ghost use Rattle.spare_blocks.specs.Wearing.{fresh_wearing};

use crate::parts::{ERASE_SLOTS, PAGES};
use crate::wrongs::Wrong;
use slot_types::{Refusal, Shape};
use spare_blocks::{Failures, WearingMemory};
use std::alloc::Global;
use stepped_spares::{Stage, begin_on, power_up_on};

/// How many blocks have numbers.
const NUMBERS: u32 = 6;

/// A part of so many blocks, of which nothing was used yet.
fn part_of(alloc: Global, blocks: u32, failures: Failures) -> Result<WearingMemory, Refusal>
    ensures { IfOk result (λ part. part ≡ fresh_wearing
        (record { blocks = blocks; pages = 4; erase_slots = 3 }) 0) }
{
    let shape = Shape {
        blocks,
        pages: PAGES,
        erase_slots: ERASE_SLOTS,
    };
    WearingMemory::new(alloc, shape, 0, failures)
}

/// How far a table is, and how many spare blocks are left.
#[derive(Clone, Copy, PartialEq, Eq, Debug, Drop)]
struct Left {
    stage: Stage,
    spares: u32,
}

/// Begun on a part with two spare blocks, of whose erases these fail.
fn begun(alloc: Global, fails_at: &[u64], faults_at: Option<u64>) -> Result<Left, Wrong> {
    let failures = Failures::script(Vec::from_slice(alloc, fails_at)?, faults_at);
    let mut part = part_of(alloc, NUMBERS + 2, failures)?;
    let table = begin_on(alloc, &mut part, NUMBERS, &[])?;
    Ok(Left {
        stage: table.stage(),
        spares: table.spares(),
    })
}

/// Where two erases fail no spare block is left, and where a third one does the table is worn out.
fn erases_fail(alloc: Global) -> Result<(), Wrong> {
    for first in 0..8 {
        for second in first + 1..8 {
            let both = Left {
                stage: Stage::Working,
                spares: 0,
            };
            if begun(alloc, &[first, second], None)? != both {
                return Err(Wrong::End { failing: first });
            }
            for third in second + 1..8 {
                if begun(alloc, &[first, second, third], None)?.stage != Stage::WornOut {
                    return Err(Wrong::End { failing: third });
                }
            }
        }
        if begun(alloc, &[], Some(first))?.stage != Stage::Faulted {
            return Err(Wrong::End { failing: first });
        }
    }
    Ok(())
}

#[test]
fn a_table_is_begun_though_erases_fail(rt: HostRuntime) {
    assert_eq!(rt; erases_fail(rt.alloc()), Ok(()));
}

/// Powered up on a part with two spare blocks, of which nothing was used yet: its blocks are blank, and those without a
/// number are erased.
fn powered(alloc: Global, bad: &[u32], fails_at: &[u64]) -> Result<Left, Wrong> {
    let failures = Failures::script(Vec::from_slice(alloc, fails_at)?, None);
    let mut part = part_of(alloc, NUMBERS + 2, Failures::script(Vec::new(alloc), None))?;
    part.power_comes(failures);
    let table = power_up_on(alloc, &mut part, NUMBERS, bad)?;
    Ok(Left {
        stage: table.stage(),
        spares: table.spares(),
    })
}

fn spares_erased(alloc: Global) -> Result<[u32; 4], Wrong> {
    Ok([
        powered(alloc, &[], &[])?.spares,
        powered(alloc, &[3], &[])?.spares,
        powered(alloc, &[], &[1])?.spares,
        powered(alloc, &[3, 4], &[])?.spares,
    ])
}

#[test]
fn a_table_is_powered_up(rt: HostRuntime) {
    assert_eq!(rt; spares_erased(rt.alloc()), Ok([2, 1, 1, 0]));
}
