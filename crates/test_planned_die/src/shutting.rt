//! A die that goes on by itself is shut down, and goes on from a checkpoint: at the end of a life, and amid one.

use crate::ongoing_steps::Answer::{Enters, Waits};
use crate::ongoing_steps::Turn;
use crate::ongoing_steps::Turn::{
    Asks, Babbles, Carries, Clock, Done, Gave, InTime, Slots, Untaken, Waiting,
};
use crate::plans::{PLAN, Plan, SECOND};
use crate::shut_plays::{Shutdown, Unplayed, shuts_down};
use demand_rules::TaskTerms;
use ongoing_die::AskRefusal::TooSoon;
use ongoing_die::OngoingCheckpointRefusal::{AskWaits, Die};
use ongoing_die::{AskStop, OngoingResumeRefusal, PlanResumeRefusal, Shortage};
use slot_core::CheckpointRefusal::NotRenewable;
use slot_core::RenewalRefusal;
use slot_types::{Op, PageData};

const ONES: PageData = PageData([1; 16]);

const TWOS: PageData = PageData([2; 16]);

const THREES: PageData = PageData([3; 16]);

const READ: Op = Op::Read(0);

/// A life has 80 slots, and 66 of them have nine collections, with numbers 0 to 8. The job that comes then writes with
/// slots 66 and 67, and is due at 78.
#[rattlefmt::skip]
const TO_THE_END: &[Turn] = &[
    Slots { count: 66 },
    Asks { task: 1, ops: &[Op::Write(0, ONES), Op::Write(1, TWOS)], want: Ok(Enters { release: 66, due: 78, number: 9 }) },
    Slots { count: 14 },
    Clock { slot: 80 },
    Done { job: 9, completion: 68, lateness: -10 },
];

/// The second task lacks two pages, which is no more than alpha. So each task may ask for all of its period at once.
#[rattlefmt::skip]
const FROM_THE_END: &[Turn] = &[
    Clock { slot: 0 },
    Waiting { task: 0, ops: 0 },
    Asks { task: 1, ops: &[READ, Op::Read(1), Op::Write(2, ONES), Op::Write(3, ONES)], want: Ok(Enters { release: 0, due: 12, number: 0 }) },
    Asks { task: 0, ops: &[Op::Read(1), Op::Write(4, ONES)], want: Ok(Enters { release: 0, due: 6, number: 1 }) },
    // due at 6 and at 12; then the collections 2 and 3 are waived
    Carries { jobs: &[Some(1), Some(1), Some(0), Some(0), Some(0), Some(0), None] },
    Gave { job: 1, reads: &[TWOS] },
    Gave { job: 0, reads: &[ONES, TWOS] },
    Slots { count: 73 },
    Clock { slot: 80 },
    // it goes on by itself
    Asks { task: 0, ops: &[Op::Read(4)], want: Ok(Enters { release: 80, due: 86, number: 0 }) },
    Carries { jobs: &[Some(0)] },
    Gave { job: 0, reads: &[ONES] },
    InTime,
];

#[test]
fn a_checkpoint_at_the_end_of_a_life_goes_on(rt: HostRuntime) {
    let played = Shutdown {
        before: TO_THE_END,
        refused: None,
        again: PLAN,
        after: FROM_THE_END,
    };
    assert_eq!(rt; shuts_down(&rt, rt.alloc(), PLAN, &played), Ok(()));
}

const BABBLES: &[Turn] = &[Babbles { slots: 240 }, InTime];

#[test]
fn a_babbler_changes_nothing_after_a_checkpoint(rt: HostRuntime) {
    let played = Shutdown {
        before: TO_THE_END,
        refused: None,
        again: PLAN,
        after: BABBLES,
    };
    assert_eq!(rt; shuts_down(&rt, rt.alloc(), PLAN, &played), Ok(()));
}

/// The first collections, 0 and 1, are waived in slot 0, when nothing is lacking; the second task's next one comes at 16.
/// Before that it writes four pages: it has 6 of its 10.
#[rattlefmt::skip]
const FOUR_WRITES: &[Turn] = &[
    Slots { count: 2 },
    Asks { task: 1, ops: &[Op::Write(0, ONES), Op::Write(1, ONES)], want: Ok(Enters { release: 2, due: 14, number: 2 }) },
    Untaken { want: Die(NotRenewable { why: RenewalRefusal::NotQuiet { job: 2 } }) },
    Slots { count: 12 },
    Asks { task: 1, ops: &[Op::Write(0, TWOS), Op::Write(1, THREES)], want: Ok(Enters { release: 14, due: 26, number: 3 }) },
    Slots { count: 2 },
    Clock { slot: 16 },
    Done { job: 3, completion: 16, lateness: -10 },
];

/// It lacks four pages, one more than alpha. That one counts as a write in slot 0, up to slot 11.
#[rattlefmt::skip]
const ONE_COUNTS: &[Turn] = &[
    Clock { slot: 0 },
    Asks { task: 1, ops: &[Op::Write(2, ONES), Op::Write(3, ONES)], want: Err(AskStop::Plan(TooSoon { next: 12 })) },
    Asks { task: 1, ops: &[READ, READ, READ, READ], want: Err(AskStop::Plan(TooSoon { next: 12 })) },
    Asks { task: 1, ops: &[READ, Op::Read(1), Op::Write(2, ONES)], want: Ok(Enters { release: 0, due: 12, number: 0 }) },
    Carries { jobs: &[Some(0), Some(0), Some(0), None] },
    Gave { job: 0, reads: &[TWOS, THREES] },
    Done { job: 0, completion: 3, lateness: -9 },
    Slots { count: 7 },
    Asks { task: 1, ops: &[Op::Write(2, ONES), Op::Write(3, ONES)], want: Err(AskStop::Plan(TooSoon { next: 12 })) },
    Slots { count: 1 },
    // 1 and 2 are the collections of slot 0
    Asks { task: 1, ops: &[Op::Write(2, ONES), Op::Write(3, ONES)], want: Ok(Enters { release: 12, due: 24, number: 3 }) },
    Slots { count: 70 },
    InTime,
];

#[test]
fn what_lacks_amid_a_life_counts_as_asked_for(rt: HostRuntime) {
    let played = Shutdown {
        before: FOUR_WRITES,
        refused: None,
        again: PLAN,
        after: ONE_COUNTS,
    };
    assert_eq!(rt; shuts_down(&rt, rt.alloc(), PLAN, &played), Ok(()));
}

/// A second task that writes nothing has to have its cap of 10 less alpha.
#[test]
fn a_task_without_enough_is_named(rt: HostRuntime) {
    let reader = Plan {
        second: TaskTerms {
            writes: 0,
            ..SECOND
        },
        ..PLAN
    };
    let short = Shortage {
        task: 1,
        have: 6,
        need: 7,
    };
    let played = Shutdown {
        before: FOUR_WRITES,
        refused: Some((
            reader,
            OngoingResumeRefusal::Plan(PlanResumeRefusal::NotStocked(short)),
        )),
        again: PLAN,
        after: ONE_COUNTS,
    };
    assert_eq!(rt; shuts_down(&rt, rt.alloc(), PLAN, &played), Ok(()));
}

/// Lives of at most 16 slots are too short for a deadline of 17. The device is handed back, and goes on.
#[test]
fn a_task_whose_jobs_take_longer_than_a_life_is_named(rt: HostRuntime) {
    let late = Plan {
        deadline: 17,
        cap: 9,
        longest: 16,
        ..PLAN
    };
    let played = Shutdown {
        before: FOUR_WRITES,
        refused: Some((late, OngoingResumeRefusal::ShortLife { task: 0 })),
        again: PLAN,
        after: ONE_COUNTS,
    };
    assert_eq!(rt; shuts_down(&rt, rt.alloc(), PLAN, &played), Ok(()));
}

/// What waits for the next life would be lost. In that it has number 0, and the collections 1 and 2 are waived in slot 81.
#[rattlefmt::skip]
const NEAR_THE_END: &[Turn] = &[
    Slots { count: 75 },
    Asks { task: 0, ops: &[Op::Write(1, ONES)], want: Ok(Waits { release: 80, due: 86 }) },
    Untaken { want: AskWaits { task: 0 } },
    Slots { count: 5 },
    Clock { slot: 80 },
    Untaken { want: AskWaits { task: 0 } },
    Waiting { task: 0, ops: 1 },
    Carries { jobs: &[Some(0)] },
    Untaken { want: Die(NotRenewable { why: RenewalRefusal::NotQuiet { job: 1 } }) },
    Carries { jobs: &[None] },
    Done { job: 0, completion: 1, lateness: -5 },
    Clock { slot: 82 },
];

#[rattlefmt::skip]
const WAITED: &[Turn] = &[
    Clock { slot: 0 },
    Asks { task: 0, ops: &[Op::Read(1)], want: Ok(Enters { release: 0, due: 6, number: 0 }) },
    Carries { jobs: &[Some(0)] },
    Gave { job: 0, reads: &[ONES] },
    InTime,
];

#[test]
fn a_die_is_shut_down_where_nothing_waits(rt: HostRuntime) {
    let played = Shutdown {
        before: NEAR_THE_END,
        refused: None,
        again: PLAN,
        after: WAITED,
    };
    assert_eq!(rt; shuts_down(&rt, rt.alloc(), PLAN, &played), Ok(()));
}

#[rattlefmt::skip]
const SECOND_WAITS: &[Turn] = &[
    Slots { count: 70 },
    Asks { task: 1, ops: &[READ], want: Ok(Waits { release: 80, due: 92 }) },
];

/// The first task of which an ask waits is named.
#[test]
fn the_first_task_that_waits_is_named(rt: HostRuntime) {
    let played = Shutdown {
        before: SECOND_WAITS,
        refused: None,
        again: PLAN,
        after: &[],
    };
    assert_eq!(rt;
        shuts_down(&rt, rt.alloc(), PLAN, &played),
        Err(Unplayed::Untaken(AskWaits { task: 1 }))
    );
}
