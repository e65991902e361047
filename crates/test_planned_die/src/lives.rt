//! Lives: what goes on from one to the next, and why the next one doesn't begin.

use crate::dies::plays;
use crate::plans::{PLAN, Plan};
use crate::steps::Fact::{Done, NothingLate, Now};
use crate::steps::Step;
use crate::steps::Step::{Asks, Carries, Is, NoSlot, Renews, Slots};
use demand_rules::{Lack, SupplyFault, TermsFault};
use planned_die::AskRefusal::{LifeEnd, TooSoon};
use planned_die::{LifeRefusal, PlanRefusal};
use slot_types::{Op, Refusal};

const READ: Op = Op::Read(0);

/// 76 tenths of a page are needed.
#[test]
fn terms_that_fail_their_test_are_refused(rt: HostRuntime) {
    let plan = Plan { cap: 7, ..PLAN };
    let lacks = SupplyFault {
        task: 0,
        lack: Lack::Cap { least: 8 },
    };
    assert_eq!(rt;
        plays(&rt, rt.alloc(), plan, &[]),
        Err(PlanRefusal::Terms(TermsFault::Supply(lacks)))
    );
}

/// What was asked for at slot 74 counts up to slot 83, which is slot 3 of the next life.
#[rattlefmt::skip]
const ACROSS: &[Step] = &[
    Slots { count: 74 },
    Asks { task: 0, ops: &[READ, READ], want: Ok(9) },
    Asks { task: 0, ops: &[READ], want: Err(TooSoon { next: 84 }) },
    Carries { jobs: &[Some(9), Some(9)] },
    Slots { count: 3 },
    Renews { want: Err(LifeRefusal::NotEnded { left: 1 }) },
    Slots { count: 1 },
    Is(Now { slot: 80, first: 0 }),
    Is(Done { job: 9, completion: 76, lateness: -4 }),
    NoSlot { want: Refusal::ClockEnd },
    Asks { task: 0, ops: &[READ], want: Err(TooSoon { next: 84 }) },
    Asks { task: 1, ops: &[READ], want: Err(LifeEnd) },
    Renews { want: Ok(()) },
    Is(Now { slot: 0, first: 80 }),
    Renews { want: Err(LifeRefusal::NotEnded { left: 80 }) },
    Asks { task: 0, ops: &[READ], want: Err(TooSoon { next: 4 }) },
    Asks { task: 1, ops: &[READ], want: Ok(0) },
    Carries { jobs: &[Some(0), None, None] },
    Asks { task: 0, ops: &[READ], want: Err(TooSoon { next: 4 }) },
    Slots { count: 1 },
    // 1 and 2 are collections
    Asks { task: 0, ops: &[READ, READ], want: Ok(3) },
    Slots { count: 76 },
    Renews { want: Ok(()) },
    Is(Now { slot: 0, first: 160 }),
    Asks { task: 0, ops: &[READ, READ], want: Ok(0) },
    Carries { jobs: &[Some(0), Some(0)] },
    Is(NothingLate),
];

#[test]
fn what_was_asked_for_counts_in_the_next_life(rt: HostRuntime) {
    assert_eq!(rt; plays(&rt, rt.alloc(), PLAN, ACROSS), Ok(()));
}

/// A period of 200 slots, over two renewals.
#[rattlefmt::skip]
const LONG_PERIOD: &[Step] = &[
    Slots { count: 5 },
    Asks { task: 0, ops: &[READ, READ], want: Ok(2) },
    Asks { task: 0, ops: &[READ], want: Err(TooSoon { next: 205 }) },
    Slots { count: 75 },
    Renews { want: Ok(()) },
    Asks { task: 0, ops: &[READ], want: Err(TooSoon { next: 125 }) },
    Slots { count: 80 },
    Renews { want: Ok(()) },
    Slots { count: 44 },
    Asks { task: 0, ops: &[READ], want: Err(TooSoon { next: 45 }) },
    Slots { count: 1 },
    // 0 to 5 are collections: at 0 of both tasks, at 16, 20, 32 and 40
    Asks { task: 0, ops: &[READ], want: Ok(6) },
    Asks { task: 0, ops: &[READ], want: Ok(7) },
    Asks { task: 0, ops: &[READ], want: Err(TooSoon { next: 245 }) },
];

#[test]
fn a_period_may_be_longer_than_a_life(rt: HostRuntime) {
    let plan = Plan {
        period: 200,
        ..PLAN
    };
    assert_eq!(rt; plays(&rt, rt.alloc(), plan, LONG_PERIOD), Ok(()));
}
