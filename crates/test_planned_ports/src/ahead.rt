//! Asks for slots ahead, at ports: which are taken, when their jobs are done, and which are refused.

use crate::dies::a_die;
use crate::heard::Heard::{Enters, Foreign, Other, Past, Plan, TooFarAhead, Waits};
use crate::heard::Told;
use crate::plans::PLAN;
use crate::steps::Step::{Asks, AsksAllAt, AsksAt, Slots, Takes};
use crate::steps::Task::{First, Second};
use crate::steps::{Step, plays};
use crate::wrong::Wrong;
use ongoing_die::AskRefusal::{TooManyOps, TooSoon};
use ongoing_die::AskStop;
use planned_ports::{AskRefused, PageRange};
use slot_types::{Op, PageData};
use std::alloc::Global;
use std::sync::Wait;

const WRITE: Op = Op::Write(4, PageData([7; 16]));

const READ: Op = Op::Read(4);

const WAITS_ALREADY: AskRefused = AskRefused::Die(AskStop::WaitsAlready);

/// What a page reads as that was never written.
const BLANK: Option<u8> = Some(255);

/// The first task has page 4, and the second one pages 0 to 3.
const OWN: [Option<PageRange>; 2] = [
    Some(PageRange { first: 4, count: 1 }),
    Some(PageRange { first: 0, count: 4 }),
];

/// The first task's period has 10 slots, the second one's 12. Of the numbers, 1, 2 and 6 are collections in slots 0, 0 and 16,
/// which are waived; so each job begins in the slot in which it is released.
#[rattlefmt::skip]
const IN_A_LIFE: &[Step] = &[
    AsksAt { task: First, ops: &[Op::Read(3)], at: 5, want: Foreign { page: 3 } },
    AsksAllAt { task: First, ops: &[READ; 3], at: 10, want: Plan(TooManyOps { most: 2 }) },
    AsksAt { task: First, ops: &[READ], at: 10, want: TooFarAhead { last: 9 } },
    AsksAt { task: First, ops: &[WRITE], at: 7, want: Waits { release: 7, due: 13 } },
    AsksAt { task: First, ops: &[READ], at: 8, want: Other(WAITS_ALREADY) },
    AsksAt { task: First, ops: &[READ], at: 10, want: TooFarAhead { last: 9 } },
    Asks { task: First, ops: &[READ], want: Other(WAITS_ALREADY) },
    // for the present slot
    AsksAllAt { task: Second, ops: &[Op::Read(3), Op::Read(0), Op::Read(1), Op::Read(2)], at: 0, want: Enters { release: 0, due: 12, jobs: 1 } },
    AsksAt { task: Second, ops: &[Op::Read(0)], at: 11, want: Plan(TooSoon { next: 12 }) },
    Slots { count: 3 },
    AsksAt { task: Second, ops: &[Op::Read(0)], at: 2, want: Past },
    AsksAt { task: Second, ops: &[Op::Read(0)], at: 12, want: Waits { release: 12, due: 24 } },
    Slots { count: 5 },
    Takes { task: First, want: Some(Told { task: 0, life: 0, job: 3, release: 7, due: 13, completion: 8, lateness: -5, byte: None, next: None }) },
    Asks { task: First, ops: &[READ], want: Enters { release: 8, due: 14, jobs: 1 } },
    // it asked for two operations from slot 7 on
    AsksAt { task: First, ops: &[READ], at: 16, want: Plan(TooSoon { next: 17 }) },
    AsksAt { task: First, ops: &[READ], at: 17, want: Waits { release: 17, due: 23 } },
    Slots { count: 10 },
    Takes { task: First, want: Some(Told { task: 0, life: 0, job: 4, release: 8, due: 14, completion: 9, lateness: -5, byte: Some(7), next: None }) },
    Takes { task: First, want: Some(Told { task: 0, life: 0, job: 7, release: 17, due: 23, completion: 18, lateness: -5, byte: Some(7), next: None }) },
    Takes { task: Second, want: Some(Told { task: 1, life: 0, job: 0, release: 0, due: 12, completion: 4, lateness: -8, byte: BLANK, next: BLANK }) },
    Takes { task: Second, want: Some(Told { task: 1, life: 0, job: 5, release: 12, due: 24, completion: 13, lateness: -11, byte: BLANK, next: None }) },
    Takes { task: Second, want: None },
    Slots { count: 52 },
    // the life ends in slot 80
    AsksAt { task: Second, ops: &[Op::Read(0)], at: 81, want: TooFarAhead { last: 80 } },
    AsksAt { task: Second, ops: &[Op::Read(0)], at: 80, want: Waits { release: 80, due: 92 } },
    // due after that
    AsksAt { task: First, ops: &[READ], at: 75, want: Waits { release: 80, due: 86 } },
    Slots { count: 10 },
];

/// The die was closed and opened again, at the end of the life. What waited has the numbers 0 and 1 of the next one, and its
/// first collections have 2 and 3. The plan tells slots of the present life: slot 10 of it is slot 90 of the clock.
#[rattlefmt::skip]
const IN_THE_NEXT: &[Step] = &[
    AsksAt { task: First, ops: &[READ], at: 79, want: Past },
    Slots { count: 2 },
    AsksAt { task: First, ops: &[READ; 2], at: 89, want: Plan(TooSoon { next: 10 }) },
    AsksAllAt { task: First, ops: &[READ; 2], at: 90, want: Waits { release: 90, due: 96 } },
    Takes { task: First, want: Some(Told { task: 0, life: 80, job: 0, release: 80, due: 86, completion: 81, lateness: -5, byte: Some(7), next: None }) },
    Takes { task: Second, want: Some(Told { task: 1, life: 80, job: 1, release: 80, due: 92, completion: 82, lateness: -10, byte: BLANK, next: None }) },
    Slots { count: 9 },
    Takes { task: First, want: None },
    Slots { count: 1 },
    Takes { task: First, want: Some(Told { task: 0, life: 80, job: 4, release: 90, due: 96, completion: 92, lateness: -4, byte: Some(7), next: Some(7) }) },
];

/// Plays both tables, and closes the die between.
fn asks_ahead<R: Wait>(rt: &R, alloc: Global) -> Result<(), Wrong> {
    let die = plays(rt, alloc, a_die(alloc, &PLAN)?, &OWN, IN_A_LIFE)?;
    let _ = plays(rt, alloc, die, &OWN, IN_THE_NEXT)?;
    Ok(())
}

#[test]
fn asks_for_slots_ahead_through_ports(rt: HostRuntime) {
    assert_eq!(rt; asks_ahead(&rt, rt.alloc()), Ok(()));
}
