//! Bursts of a die that goes on by itself: over the ends of lives, with what waits for the next one.
//!
//! A life has 1,000 slots. The first task's jobs are due 300 slots after they come, so from slot 701 on a burst of it
//! waits; those of the second one are due after 400, and wait from slot 601 on. What comes counts for 400 slots.
//! Nothing is written, so no collection does anything, and the jobs run one after the other, those of the least deadline
//! first, of one deadline the least number first. Each collection has a number: those of the first task come each 20
//! slots, those of the second one each 100.

use crate::ongoing_dies::goes_on;
use crate::ongoing_steps::Answer::{EnterAll, Enters, Waits};
use crate::ongoing_steps::Turn;
use crate::ongoing_steps::Turn::{Asks, AsksAll, Carries, Clock, Done, InTime, Slots, Waiting};
use crate::plans::BURSTS;
use ongoing_die::AskRefusal::{EmptyJob, TooManyOps, TooSoon, UnknownTask};
use ongoing_die::AskStop::{Plan, WaitsAlready};
use slot_types::Op;

const READ: Op = Op::Read(0);

/// By slot 700 there were 35 and 7 collections. In the next life what waited has the first numbers, the first task's one
/// job and the second one's two; by slot 100 of it there were 5 collections and 1.
#[rattlefmt::skip]
const OVER_AN_END: &[Turn] = &[
    Slots { count: 700 },
    AsksAll { task: 0, ops: &[READ; 100], want: Ok(EnterAll { release: 700, due: 1000, first: 42, jobs: 2 }) },
    AsksAll { task: 1, ops: &[READ; 70], want: Ok(Waits { release: 1000, due: 1400 }) },
    Waiting { task: 1, ops: 70 },
    // one of them waits, whichever kind comes after it
    AsksAll { task: 1, ops: &[READ; 2], want: Err(WaitsAlready) },
    Asks { task: 1, ops: &[READ], want: Err(WaitsAlready) },
    Waiting { task: 1, ops: 70 },
    // also where it would wait it is no task's, no job, or too much
    AsksAll { task: 2, ops: &[READ], want: Err(Plan(UnknownTask)) },
    AsksAll { task: 1, ops: &[], want: Err(Plan(EmptyJob)) },
    AsksAll { task: 1, ops: &[READ; 71], want: Err(Plan(TooManyOps { most: 70 })) },
    Slots { count: 1 },
    Asks { task: 0, ops: &[READ; 65], want: Err(Plan(TooManyOps { most: 64 })) },
    // the hundred count up to slot 1,099
    AsksAll { task: 0, ops: &[READ; 51], want: Err(Plan(TooSoon { next: 1100 })) },
    Waiting { task: 0, ops: 0 },
    AsksAll { task: 0, ops: &[READ; 50], want: Ok(Waits { release: 1000, due: 1300 }) },
    Waiting { task: 0, ops: 50 },
    Slots { count: 299 },
    Clock { slot: 1000 },
    Done { job: 42, completion: 764, lateness: -236 },
    Done { job: 43, completion: 800, lateness: -200 },
    // the hundred and the fifty are all that a period has
    AsksAll { task: 0, ops: &[READ], want: Err(Plan(TooSoon { next: 100 })) },
    Waiting { task: 0, ops: 0 },
    Waiting { task: 1, ops: 0 },
    AsksAll { task: 0, ops: &[READ; 101], want: Err(Plan(TooSoon { next: 400 })) },
    AsksAll { task: 1, ops: &[READ], want: Err(Plan(TooSoon { next: 400 })) },
    Slots { count: 99 },
    AsksAll { task: 0, ops: &[READ; 100], want: Err(Plan(TooSoon { next: 100 })) },
    Slots { count: 1 },
    AsksAll { task: 0, ops: &[READ; 100], want: Ok(EnterAll { release: 1100, due: 1400, first: 9, jobs: 2 }) },
    // the three that waited, and these two, which are due in slot 400 of the life as the second task's are
    Slots { count: 120 },
    Done { job: 0, completion: 50, lateness: -250 },
    Done { job: 1, completion: 114, lateness: -286 },
    Done { job: 2, completion: 120, lateness: -280 },
    Done { job: 9, completion: 184, lateness: -216 },
    Done { job: 10, completion: 220, lateness: -180 },
    InTime,
];

#[test]
fn a_burst_waits_for_the_next_life_whole(rt: HostRuntime) {
    assert_eq!(rt; goes_on(&rt, rt.alloc(), BURSTS, OVER_AN_END), Ok(()));
}

/// Both tasks wait twice: at slot 2,000 each for all that a period has, and at slot 3,000 the first one for one job.
#[rattlefmt::skip]
const OVER_THREE_ENDS: &[Turn] = &[
    Slots { count: 1601 },
    AsksAll { task: 1, ops: &[READ; 70], want: Ok(Waits { release: 2000, due: 2400 }) },
    Slots { count: 149 },
    AsksAll { task: 0, ops: &[READ; 151], want: Err(Plan(TooManyOps { most: 150 })) },
    AsksAll { task: 0, ops: &[READ; 150], want: Ok(Waits { release: 2000, due: 2300 }) },
    Waiting { task: 0, ops: 150 },
    Waiting { task: 1, ops: 70 },
    Slots { count: 250 },
    Clock { slot: 2000 },
    // a slot begins the next life, too
    Carries { jobs: &[Some(0)] },
    Waiting { task: 0, ops: 0 },
    Waiting { task: 1, ops: 0 },
    AsksAll { task: 0, ops: &[READ], want: Err(Plan(TooSoon { next: 400 })) },
    Slots { count: 219 },
    Done { job: 0, completion: 64, lateness: -236 },
    Done { job: 1, completion: 128, lateness: -172 },
    Done { job: 2, completion: 150, lateness: -150 },
    Done { job: 3, completion: 214, lateness: -186 },
    Done { job: 4, completion: 220, lateness: -180 },
    InTime,
    Slots { count: 530 },
    Asks { task: 0, ops: &[READ], want: Ok(Waits { release: 3000, due: 3300 }) },
    AsksAll { task: 0, ops: &[READ; 150], want: Err(WaitsAlready) },
    AsksAll { task: 1, ops: &[READ; 64], want: Ok(Waits { release: 3000, due: 3400 }) },
    Slots { count: 250 },
    Clock { slot: 3000 },
    // 0 and 1 waited
    AsksAll { task: 0, ops: &[READ; 149], want: Ok(EnterAll { release: 3000, due: 3300, first: 2, jobs: 3 }) },
    AsksAll { task: 1, ops: &[READ; 6], want: Ok(Enters { release: 3000, due: 3400, number: 5 }) },
    AsksAll { task: 1, ops: &[READ], want: Err(Plan(TooSoon { next: 400 })) },
    Slots { count: 220 },
    Done { job: 0, completion: 1, lateness: -299 },
    Done { job: 4, completion: 150, lateness: -150 },
    Done { job: 1, completion: 214, lateness: -186 },
    Done { job: 5, completion: 220, lateness: -180 },
    InTime,
];

#[test]
fn bursts_of_both_tasks_wait_over_three_lives(rt: HostRuntime) {
    assert_eq!(rt; goes_on(&rt, rt.alloc(), BURSTS, OVER_THREE_ENDS), Ok(()));
}
