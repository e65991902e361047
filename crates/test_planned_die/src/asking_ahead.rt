//! Asks for a later slot: they wait in the die, and enter as the first thing of their slot.

use crate::ongoing_dies::{goes_on, goes_on_fused};
use crate::ongoing_steps::Answer::{Enters, Waits};
use crate::ongoing_steps::Turn;
use crate::ongoing_steps::Turn::{
    Asks, AsksAllAt, AsksAt, Carries, Clock, Done, InTime, NoSlot, Slots, Untaken, Waiting,
};
use crate::plans::{BURSTS, PLAN};
use ongoing_die::AskAtStop::{Ended, Past, Plan, TooFarAhead, WaitsAlready};
use ongoing_die::AskRefusal::{EmptyJob, TooManyOps, TooSoon, UnknownTask};
use ongoing_die::OngoingCheckpointRefusal::AskWaits;
use ongoing_die::{AskStop, LifeStop, SlotStop};
use slot_types::{Op, PageData};

const READ: Op = Op::Read(0);

const WRITE: Op = Op::Write(1, PageData([1; 16]));

/// A life has 80 slots. The first task may ask for two operations in 10 slots, due 6 slots later; the second one for four in
/// 12, due 12 slots later. Collections come at 0, 20, 40 and 60, and at 0, 16, 32, 48 and 64, each with a number, and do
/// nothing. What waits for a slot has a number before the slot's collections.
#[rattlefmt::skip]
const IN_TWO_LIVES: &[Turn] = &[
    // for the present slot it is an ask
    AsksAt { task: 0, ops: &[READ], at: 0, want: Ok(Enters { release: 0, due: 6, number: 0 }) },
    // with the one of slot 0 there is room for one more in slot 3
    AsksAt { task: 0, ops: &[READ], at: 3, want: Ok(Waits { release: 3, due: 9 }) },
    Waiting { task: 0, ops: 1 },
    // one of a task waits, and no other is taken
    Asks { task: 0, ops: &[READ], want: Err(AskStop::WaitsAlready) },
    AsksAt { task: 0, ops: &[READ], at: 0, want: Err(WaitsAlready) },
    AsksAt { task: 0, ops: &[READ], at: 5, want: Err(WaitsAlready) },
    // what the plan says of it comes first, as at its slot: the one of slot 0 counts up to slot 9
    AsksAt { task: 0, ops: &[READ, READ], at: 5, want: Err(Plan(TooSoon { next: 10 })) },
    AsksAt { task: 0, ops: &[], at: 5, want: Err(Plan(EmptyJob)) },
    AsksAt { task: 0, ops: &[READ, READ, READ], at: 99, want: Err(Plan(TooManyOps { most: 2 })) },
    AsksAt { task: 2, ops: &[READ], at: 5, want: Err(Plan(UnknownTask)) },
    // then that it is too far ahead: less than a period, which is 10 slots, and 12 for the second task
    AsksAt { task: 0, ops: &[READ], at: 10, want: Err(TooFarAhead { last: 9 }) },
    AsksAt { task: 1, ops: &[READ], at: 12, want: Err(TooFarAhead { last: 11 }) },
    AsksAt { task: 1, ops: &[READ], at: 18446744073709551615, want: Err(TooFarAhead { last: 11 }) },
    Waiting { task: 1, ops: 0 },
    AsksAt { task: 1, ops: &[READ], at: 11, want: Ok(Waits { release: 11, due: 23 }) },
    // the collections of slot 0 are 1 and 2
    Carries { jobs: &[Some(0), None, None] },
    Clock { slot: 3 },
    // the job has entered in slot 3, and counts
    Asks { task: 0, ops: &[READ], want: Err(AskStop::Plan(TooSoon { next: 10 })) },
    Waiting { task: 0, ops: 0 },
    Waiting { task: 1, ops: 1 },
    Carries { jobs: &[Some(3)] },
    Done { job: 0, completion: 1, lateness: -5 },
    Done { job: 3, completion: 4, lateness: -5 },
    AsksAt { task: 0, ops: &[READ], at: 3, want: Err(Past) },
    AsksAt { task: 2, ops: &[], at: 3, want: Err(Past) },
    AsksAt { task: 0, ops: &[READ], at: 9, want: Err(Plan(TooSoon { next: 10 })) },
    AsksAt { task: 0, ops: &[READ], at: 10, want: Ok(Waits { release: 10, due: 16 }) },
    Carries { jobs: &[None, None, None, None, None, None, Some(4), Some(5), None] },
    Clock { slot: 13 },
    Done { job: 4, completion: 11, lateness: -5 },
    Done { job: 5, completion: 12, lateness: -11 },
    // up to slot 68 there are seven collections more
    Slots { count: 55 },
    // due by the end of the life
    AsksAt { task: 0, ops: &[READ], at: 74, want: Ok(Waits { release: 74, due: 80 }) },
    // due after it, so it is for the next one; and one that would be due by the end isn't taken beside it
    AsksAt { task: 1, ops: &[READ], at: 69, want: Ok(Waits { release: 80, due: 92 }) },
    Asks { task: 1, ops: &[READ], want: Err(AskStop::WaitsAlready) },
    Carries { jobs: &[None, None, None, None, None, None, Some(13), None] },
    Done { job: 13, completion: 75, lateness: -5 },
    Clock { slot: 76 },
    // the last slot is the first one of the next life
    AsksAt { task: 0, ops: &[READ], at: 81, want: Err(TooFarAhead { last: 80 }) },
    AsksAt { task: 0, ops: &[READ, READ], at: 80, want: Err(Plan(TooSoon { next: 84 })) },
    AsksAt { task: 0, ops: &[READ], at: 80, want: Ok(Waits { release: 80, due: 86 }) },
    Slots { count: 4 },
    Untaken { want: AskWaits { task: 0 } },
    Carries { jobs: &[Some(0), Some(1), None] },
    Waiting { task: 0, ops: 0 },
    Waiting { task: 1, ops: 0 },
    Done { job: 0, completion: 1, lateness: -5 },
    Done { job: 1, completion: 2, lateness: -10 },
    Clock { slot: 83 },
    // slots are those of the clock, and what is too soon counts from the start of the life: slot 74 counts up to slot 83
    AsksAt { task: 0, ops: &[READ], at: 83, want: Err(Plan(TooSoon { next: 4 })) },
    AsksAt { task: 0, ops: &[READ], at: 84, want: Ok(Waits { release: 84, due: 90 }) },
    Carries { jobs: &[None, Some(4)] },
    InTime,
];

#[test]
fn an_ask_waits_for_its_slot(rt: HostRuntime) {
    assert_eq!(rt; goes_on(&rt, rt.alloc(), PLAN, IN_TWO_LIVES), Ok(()));
}

/// A life has 1,000 slots. The first task may ask for 150 operations in 400 slots, due 300 slots later; the second one for 70,
/// due 400 slots later. Collections come each 20 slots and each 100 slots: by slot 350 there were 18 and 4, by slot 600, whose
/// own come later, 30 and 6.
#[rattlefmt::skip]
const BURSTS_AHEAD: &[Turn] = &[
    AsksAllAt { task: 0, ops: &[READ; 151], at: 350, want: Err(Plan(TooManyOps { most: 150 })) },
    AsksAt { task: 0, ops: &[READ; 65], at: 350, want: Err(Plan(TooManyOps { most: 64 })) },
    AsksAllAt { task: 0, ops: &[READ; 150], at: 350, want: Ok(Waits { release: 350, due: 650 }) },
    Waiting { task: 0, ops: 150 },
    // of 64, 64 and 22 operations
    Slots { count: 500 },
    Waiting { task: 0, ops: 0 },
    Done { job: 22, completion: 414, lateness: -236 },
    Done { job: 23, completion: 478, lateness: -172 },
    Done { job: 24, completion: 500, lateness: -150 },
    AsksAllAt { task: 0, ops: &[READ], at: 749, want: Err(Plan(TooSoon { next: 750 })) },
    // due in slot 1,050
    AsksAllAt { task: 0, ops: &[READ], at: 750, want: Ok(Waits { release: 1000, due: 1300 }) },
    AsksAllAt { task: 1, ops: &[READ; 70], at: 600, want: Ok(Waits { release: 600, due: 1000 }) },
    Slots { count: 170 },
    Done { job: 39, completion: 664, lateness: -336 },
    Done { job: 40, completion: 670, lateness: -330 },
    Waiting { task: 0, ops: 1 },
    InTime,
    Slots { count: 330 },
    Clock { slot: 1000 },
    Carries { jobs: &[Some(0), None] },
    InTime,
];

#[test]
fn a_burst_waits_for_its_slot_whole(rt: HostRuntime) {
    assert_eq!(rt; goes_on(&rt, rt.alloc(), BURSTS, BURSTS_AHEAD), Ok(()));
}

/// The device passes one call.
#[rattlefmt::skip]
const STOPPED: &[Turn] = &[
    AsksAt { task: 0, ops: &[WRITE], at: 2, want: Ok(Waits { release: 2, due: 8 }) },
    AsksAt { task: 1, ops: &[WRITE, WRITE], at: 3, want: Ok(Waits { release: 3, due: 15 }) },
    Carries { jobs: &[None, None, Some(2)] },
    NoSlot { want: SlotStop::DeviceFault },
    AsksAt { task: 0, ops: &[READ], at: 3, want: Err(Ended(LifeStop::DieStopped)) },
    AsksAt { task: 0, ops: &[READ], at: 1, want: Err(Ended(LifeStop::DieStopped)) },
    Clock { slot: 3 },
];

#[test]
fn a_stopped_die_takes_no_ask_for_a_later_slot(rt: HostRuntime) {
    assert_eq!(rt; goes_on_fused(&rt, rt.alloc(), PLAN, 1, STOPPED), Ok(()));
}
