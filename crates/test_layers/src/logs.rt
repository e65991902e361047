//! A log at work.

use event_log::{Deed, EventLog};
use slot_types::{JobNo, Refusal, Waived};
use std::alloc::Global;
use std::test::Fail;

/// How many events a log has, how many records they are by the rules, and how many it keeps.
type Counts = (u32, u32, usize);

/// Adds an event of a caller with these waivers, where there are few enough.
fn push(log: &mut EventLog, caller: u32, deed: Deed, waived: &[Waived]) -> Result<(), Refusal> {
    log.reserve(1, waived.len())?;
    if log.len() < 1_000 {
        log.push_reserved(caller, deed, waived);
    }
    Ok(())
}

/// Adds what callers did, without waivers.
fn push_all(log: &mut EventLog, deeds: &[(u32, Deed)]) -> Result<(), Refusal> {
    for (caller, deed) in deeds {
        push(log, *caller, *deed, &[])?;
    }
    Ok(())
}

/// The counts of a log of what callers did.
fn counts_of(alloc: Global, deeds: &[(u32, Deed)]) -> Result<Counts, Refusal> {
    let mut log = EventLog::new(alloc);
    push_all(&mut log, deeds)?;
    Ok((log.len(), log.records(), log.kept()))
}

const SLOT: Deed = Deed::EraseSlot {
    number: JobNo(1),
    block: 5,
};

#[test]
fn idle_slots_of_one_caller_are_one_record(rt: HostRuntime) -> Result<(), Fail> {
    let mut deeds = [(0, Deed::Idle); 6];
    assert_eq!(rt; counts_of(rt.alloc(), &deeds[..5])?, (5, 1, 1));
    deeds[5] = (1, Deed::Idle);
    assert_eq!(rt; counts_of(rt.alloc(), &deeds)?, (6, 2, 2));
    Ok(())
}

/// No log of a die has such an erase: each is of one block.
#[test]
fn an_erase_of_two_blocks_takes_two_records(rt: HostRuntime) -> Result<(), Fail> {
    let other = Deed::EraseSlot {
        number: JobNo(1),
        block: 6,
    };
    let deeds = [(0, SLOT), (0, other)];
    assert_eq!(rt; counts_of(rt.alloc(), &deeds)?, (2, 2, 2));
    Ok(())
}
