//! What became of a task's jobs: each port takes its own, over the end of a life and where the die was closed and opened again;
//! and where one takes none, its oldest are dropped, whatever the other does.

use crate::dies::a_die;
use crate::heard::Heard::{Enters, Plan, Waits};
use crate::heard::Told;
use crate::plans::PLAN;
use crate::steps::Step::{Asks, AsksAll, Counts, Slots, Takes};
use crate::steps::Task::{First, Second};
use crate::steps::{Step, plays};
use crate::wrong::Wrong;
use ongoing_die::AskRefusal::TooSoon;
use slot_types::{Op, PageData};
use std::alloc::Global;
use std::sync::Wait;

const WRITE: Op = Op::Write(4, PageData([7; 16]));

const READ: Op = Op::Read(4);

/// What a page reads as that was never written.
const BLANK: Option<u8> = Some(255);

/// Of the jobs in slot 0 the first task's is due first, and has slots 0 and 1; the second one's has slot 2. Both tasks have a
/// collection in that slot, with numbers 2 and 3, and until slot 20 the second one has another, with number 4; all are waived.
#[rattlefmt::skip]
const BEFORE: &[Step] = &[
    Asks { task: First, ops: &[WRITE, READ], want: Enters { release: 0, due: 6, jobs: 1 } },
    AsksAll { task: Second, ops: &[Op::Read(0)], want: Enters { release: 0, due: 12, jobs: 1 } },
    Takes { task: First, want: None },
    Slots { count: 2 },
    Counts { task: First, kept: 1, dropped: 0 },
    Takes { task: First, want: Some(Told { task: 0, life: 0, job: 0, release: 0, due: 6, completion: 2, lateness: -4, byte: Some(7), next: None }) },
    Takes { task: First, want: None },
    Takes { task: Second, want: None },
    Slots { count: 18 },
    Asks { task: First, ops: &[READ], want: Enters { release: 20, due: 26, jobs: 1 } },
    Slots { count: 50 },
    // due after slot 80, where the life ends
    AsksAll { task: Second, ops: &[Op::Read(1)], want: Waits { release: 80, due: 92 } },
    Slots { count: 5 },
    Asks { task: First, ops: &[READ], want: Waits { release: 80, due: 86 } },
    Slots { count: 5 },
];

/// The die was closed and opened again. What waited has the first numbers of the next life, in the order of the tasks.
#[rattlefmt::skip]
const AFTER: &[Step] = &[
    Counts { task: First, kept: 1, dropped: 0 },
    Slots { count: 5 },
    Counts { task: First, kept: 2, dropped: 0 },
    Takes { task: First, want: Some(Told { task: 0, life: 0, job: 5, release: 20, due: 26, completion: 21, lateness: -5, byte: Some(7), next: None }) },
    Takes { task: First, want: Some(Told { task: 0, life: 80, job: 0, release: 80, due: 86, completion: 81, lateness: -5, byte: Some(7), next: None }) },
    Takes { task: First, want: None },
    Takes { task: Second, want: Some(Told { task: 1, life: 0, job: 1, release: 0, due: 12, completion: 3, lateness: -9, byte: BLANK, next: None }) },
    Takes { task: Second, want: Some(Told { task: 1, life: 80, job: 1, release: 80, due: 92, completion: 82, lateness: -10, byte: BLANK, next: None }) },
    Takes { task: Second, want: None },
    Counts { task: First, kept: 0, dropped: 0 },
    Counts { task: Second, kept: 0, dropped: 0 },
];

/// Plays both tables, and closes the die between.
fn takes_over_an_end<R: Wait>(rt: &R, alloc: Global) -> Result<(), Wrong> {
    let die = plays(rt, alloc, a_die(alloc, &PLAN)?, &[], BEFORE)?;
    let _ = plays(rt, alloc, die, &[], AFTER)?;
    Ok(())
}

#[test]
fn outcomes_survive_the_end_of_a_life(rt: HostRuntime) {
    assert_eq!(rt; takes_over_an_end(&rt, rt.alloc()), Ok(()));
}

/// The second task asks for all that it may have, again and again, and takes no outcome. It has room for eight, and for eight
/// pages: so for two of its jobs. The first one has room for four jobs of a page.
const ALL: &[Op] = &[Op::Read(0); 4];

#[rattlefmt::skip]
const NEGLECTED: &[Step] = &[
    Asks { task: First, ops: &[READ], want: Enters { release: 0, due: 6, jobs: 1 } },
    AsksAll { task: Second, ops: ALL, want: Enters { release: 0, due: 12, jobs: 1 } },
    AsksAll { task: Second, ops: ALL, want: Plan(TooSoon { next: 12 }) },
    Slots { count: 10 },
    Asks { task: First, ops: &[READ], want: Enters { release: 10, due: 16, jobs: 1 } },
    Slots { count: 2 },
    AsksAll { task: Second, ops: ALL, want: Enters { release: 12, due: 24, jobs: 1 } },
    Slots { count: 8 },
    Asks { task: First, ops: &[READ], want: Enters { release: 20, due: 26, jobs: 1 } },
    Counts { task: Second, kept: 2, dropped: 0 },
    Slots { count: 4 },
    AsksAll { task: Second, ops: ALL, want: Enters { release: 24, due: 36, jobs: 1 } },
    AsksAll { task: Second, ops: ALL, want: Plan(TooSoon { next: 36 }) },
    Slots { count: 6 },
    Asks { task: First, ops: &[READ], want: Enters { release: 30, due: 36, jobs: 1 } },
    Slots { count: 10 },
    Counts { task: First, kept: 4, dropped: 0 },
    Asks { task: First, ops: &[READ], want: Enters { release: 40, due: 46, jobs: 1 } },
    Slots { count: 10 },
    Asks { task: First, ops: &[READ], want: Enters { release: 50, due: 56, jobs: 1 } },
    Slots { count: 5 },
    Counts { task: First, kept: 4, dropped: 2 },
    Counts { task: Second, kept: 2, dropped: 1 },
    Takes { task: First, want: Some(Told { task: 0, life: 0, job: 7, release: 20, due: 26, completion: 21, lateness: -5, byte: BLANK, next: None }) },
    Takes { task: Second, want: Some(Told { task: 1, life: 0, job: 5, release: 12, due: 24, completion: 16, lateness: -8, byte: BLANK, next: BLANK }) },
    Counts { task: First, kept: 3, dropped: 2 },
    Counts { task: Second, kept: 1, dropped: 1 },
];

/// Plays the table on a new die.
fn drops_the_oldest<R: Wait>(rt: &R, alloc: Global) -> Result<(), Wrong> {
    let _ = plays(rt, alloc, a_die(alloc, &PLAN)?, &[], NEGLECTED)?;
    Ok(())
}

#[test]
fn the_oldest_are_dropped_of_who_takes_none(rt: HostRuntime) {
    assert_eq!(rt; drops_the_oldest(&rt, rt.alloc()), Ok(()));
}
