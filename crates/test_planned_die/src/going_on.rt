//! A die that goes on by itself: over the ends of lives, with what waits for the next one.

use crate::ongoing_dies::{goes_on, goes_on_fused};
use crate::ongoing_steps::Answer::{Enters, Waits};
use crate::ongoing_steps::Turn;
use crate::ongoing_steps::Turn::{
    Asks, Babbles, Carries, Clock, Done, InTime, NoSlot, Slots, Untaken, Waiting,
};
use crate::plans::{PLAN, Plan};
use ongoing_die::AskRefusal::{EmptyJob, TooManyOps, TooSoon, UnknownTask};
use ongoing_die::OngoingCheckpointRefusal::Die;
use ongoing_die::{AskStop, LifeStop, OngoingRefusal, SlotStop};
use slot_core::CheckpointRefusal::NotRenewable;
use slot_core::RenewalRefusal;
use slot_types::{Op, PageData};

const READ: Op = Op::Read(0);

const WRITE: Op = Op::Write(1, PageData([1; 16]));

/// A life has 80 slots. A job of the first task is due 6 slots after it comes, so from slot 75 on an ask of it waits; one
/// of the second task is due after 12, and waits from slot 69 on. Collections come at 0, 20, 40 and 60 of a life, and at 0,
/// 16, 32, 48 and 64: nine in its first 69 slots, with numbers 0 to 8.
#[rattlefmt::skip]
const OVER_TWO_ENDS: &[Turn] = &[
    Slots { count: 70 },
    Asks { task: 1, ops: &[READ], want: Ok(Waits { release: 80, due: 92 }) },
    Waiting { task: 1, ops: 1 },
    Asks { task: 1, ops: &[READ], want: Err(AskStop::WaitsAlready) },
    // it is no task's ask, no job, or too large, also where it would wait
    Asks { task: 2, ops: &[READ], want: Err(AskStop::Plan(UnknownTask)) },
    Asks { task: 1, ops: &[], want: Err(AskStop::Plan(EmptyJob)) },
    Asks { task: 1, ops: &[READ, READ, READ, READ, READ], want: Err(AskStop::Plan(TooManyOps { most: 4 })) },
    Asks { task: 0, ops: &[READ], want: Ok(Enters { release: 70, due: 76, number: 9 }) },
    Waiting { task: 0, ops: 0 },
    Carries { jobs: &[Some(9), None, None, None, None] },
    Asks { task: 0, ops: &[READ], want: Ok(Waits { release: 80, due: 86 }) },
    Asks { task: 0, ops: &[READ, READ], want: Err(AskStop::Plan(TooSoon { next: 80 })) },
    Asks { task: 0, ops: &[READ], want: Err(AskStop::WaitsAlready) },
    Slots { count: 5 },
    Clock { slot: 80 },
    // the life's outcomes are there up to the next call
    Done { job: 9, completion: 71, lateness: -5 },
    // the first task's has number 0 and the second one's number 1 in the next life, whose first ask this is
    Asks { task: 0, ops: &[READ], want: Ok(Enters { release: 80, due: 86, number: 2 }) },
    Waiting { task: 0, ops: 0 },
    Waiting { task: 1, ops: 0 },
    // the two operations from slot 80 count up to slot 89
    Asks { task: 0, ops: &[READ], want: Err(AskStop::Plan(TooSoon { next: 10 })) },
    // due at 6, 6 and 12; the collections 3 and 4 are waived
    Carries { jobs: &[Some(0), Some(2), Some(1), None] },
    Done { job: 0, completion: 1, lateness: -5 },
    Done { job: 2, completion: 2, lateness: -4 },
    Done { job: 1, completion: 3, lateness: -9 },
    Slots { count: 71 },
    Clock { slot: 155 },
    Asks { task: 0, ops: &[WRITE], want: Ok(Waits { release: 160, due: 166 }) },
    Asks { task: 1, ops: &[WRITE, READ], want: Ok(Waits { release: 160, due: 172 }) },
    Waiting { task: 0, ops: 1 },
    Waiting { task: 1, ops: 2 },
    Slots { count: 5 },
    Clock { slot: 160 },
    // a slot begins the next life, too
    Carries { jobs: &[Some(0), Some(1), Some(1), None] },
    Waiting { task: 0, ops: 0 },
    Waiting { task: 1, ops: 0 },
    Clock { slot: 164 },
    Done { job: 0, completion: 1, lateness: -5 },
    Done { job: 1, completion: 3, lateness: -9 },
    // what waited counts from the slot in which it was released
    Asks { task: 0, ops: &[WRITE], want: Err(AskStop::Plan(TooSoon { next: 10 })) },
    Slots { count: 5 },
    Asks { task: 0, ops: &[WRITE], want: Err(AskStop::Plan(TooSoon { next: 10 })) },
    Slots { count: 1 },
    // 2 and 3 are collections
    Asks { task: 0, ops: &[WRITE], want: Ok(Enters { release: 170, due: 176, number: 4 }) },
    InTime,
];

#[test]
fn what_waits_is_a_job_of_the_next_life(rt: HostRuntime) {
    assert_eq!(rt; goes_on(&rt, rt.alloc(), PLAN, OVER_TWO_ENDS), Ok(()));
}

/// A task that asks each 10 slots, from slot 5 on: at 75 of each life it waits, and is released at 80. So each of its
/// asks is taken, over ten lives, beside a task that asks in each slot for more than it may and for all that it may.
#[test]
fn a_babbler_changes_nothing_over_ten_lives(rt: HostRuntime) {
    assert_eq!(rt;
        goes_on(&rt, rt.alloc(), PLAN, &[Babbles { slots: 800 }, InTime]),
        Ok(())
    );
}

/// The device passes one call.
#[rattlefmt::skip]
const STOPPED: &[Turn] = &[
    Slots { count: 75 },
    Asks { task: 0, ops: &[WRITE], want: Ok(Waits { release: 80, due: 86 }) },
    Asks { task: 1, ops: &[WRITE, WRITE], want: Ok(Waits { release: 80, due: 92 }) },
    Carries { jobs: &[None, None, None, None, None, Some(0)] },
    NoSlot { want: SlotStop::DeviceFault },
    NoSlot { want: SlotStop::Ended(LifeStop::DieStopped) },
    Asks { task: 2, ops: &[], want: Err(AskStop::Ended(LifeStop::DieStopped)) },
    Clock { slot: 81 },
    Untaken { want: Die(NotRenewable { why: RenewalRefusal::DieStopped }) },
    Done { job: 0, completion: 1, lateness: -5 },
];

#[test]
fn a_fault_stops_a_die_that_goes_on(rt: HostRuntime) {
    assert_eq!(rt; goes_on_fused(&rt, rt.alloc(), PLAN, 1, STOPPED), Ok(()));
}

/// The longest life of at most 16 slots has 16.
#[test]
fn a_life_is_long_enough_for_each_task(rt: HostRuntime) {
    let short = Plan {
        deadline: 16,
        cap: 9,
        longest: 16,
        ..PLAN
    };
    let steps = [
        Asks {
            task: 0,
            ops: &[READ],
            want: Ok(Enters {
                release: 0,
                due: 16,
                number: 0,
            }),
        },
        Slots { count: 33 },
        Clock { slot: 33 },
    ];
    assert_eq!(rt; goes_on(&rt, rt.alloc(), short, steps.as_slice()), Ok(()));
    let late = Plan {
        deadline: 17,
        ..short
    };
    assert_eq!(rt;
        goes_on(&rt, rt.alloc(), late, &[]),
        Err(OngoingRefusal::ShortLife { task: 0 })
    );
}
