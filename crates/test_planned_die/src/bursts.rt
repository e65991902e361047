//! Bursts: what is asked for in one call and becomes several jobs.
//!
//! Collections of the first task come each 20 slots and those of the second one each 100, and each has a number: so 2 come
//! in slot 0, and by slot 400 there were 24, by slot 700 there were 42.

use crate::dies::plays;
use crate::plans::BURSTS;
use crate::steps::Fact::{Done, NothingLate};
use crate::steps::Step::{Asks, AsksAll, Is, Slots};
use crate::steps::{Jobs, Step};
use planned_die::AskRefusal::{
    BadPage, EmptyJob, LifeEnd, TooManyOps, TooManyWrites, TooSoon, UnknownTask,
};
use slot_types::{Op, PageData};

const READ: Op = Op::Read(0);

const WRITE: Op = Op::Write(1, PageData([1; 16]));

/// A hundred operations in slot 0 and fifty in slot 10 are all that a period has. Numbers show that a refused burst has
/// left nothing: the jobs have 0, 1 and 4, and the collections of slot 0 have 2 and 3.
#[rattlefmt::skip]
const SUMS: &[Step] = &[
    AsksAll { task: 0, ops: &[READ; 100], want: Ok(Jobs { first: 0, jobs: 2 }) },
    AsksAll { task: 0, ops: &[READ; 51], want: Err(TooSoon { next: 400 }) },
    Slots { count: 10 },
    AsksAll { task: 0, ops: &[READ; 51], want: Err(TooSoon { next: 400 }) },
    AsksAll { task: 0, ops: &[READ; 50], want: Ok(Jobs { first: 4, jobs: 1 }) },
    // there is room for a job of it in slot 400, and for all of it once the fifty operations count no more
    AsksAll { task: 0, ops: &[READ; 120], want: Err(TooSoon { next: 410 }) },
    AsksAll { task: 0, ops: &[READ; 100], want: Err(TooSoon { next: 400 }) },
    Slots { count: 390 },
    AsksAll { task: 0, ops: &[READ; 101], want: Err(TooSoon { next: 410 }) },
    // 5 to 26 are collections
    AsksAll { task: 0, ops: &[READ; 65], want: Ok(Jobs { first: 27, jobs: 2 }) },
    AsksAll { task: 0, ops: &[READ; 36], want: Err(TooSoon { next: 410 }) },
    Asks { task: 0, ops: &[READ; 35], want: Ok(29) },
    Asks { task: 0, ops: &[READ], want: Err(TooSoon { next: 410 }) },
    // one write in a period, whatever else
    Slots { count: 10 },
    AsksAll { task: 0, ops: &[WRITE], want: Ok(Jobs { first: 32, jobs: 1 }) },
    AsksAll { task: 0, ops: &[READ, WRITE], want: Err(TooSoon { next: 810 }) },
    AsksAll { task: 0, ops: &[READ; 49], want: Ok(Jobs { first: 33, jobs: 1 }) },
];

#[test]
fn a_burst_counts_with_all_its_jobs(rt: HostRuntime) {
    assert_eq!(rt; plays(&rt, rt.alloc(), BURSTS, SUMS), Ok(()));
}

/// Each cause comes before the next one, and a burst may have more operations than a job. What is refused has no number.
#[rattlefmt::skip]
const CAUSES: &[Step] = &[
    AsksAll { task: 2, ops: &[], want: Err(UnknownTask) },
    AsksAll { task: 0, ops: &[], want: Err(EmptyJob) },
    AsksAll { task: 0, ops: &[Op::Read(9); 151], want: Err(TooManyOps { most: 150 }) },
    AsksAll { task: 1, ops: &[READ; 71], want: Err(TooManyOps { most: 70 }) },
    AsksAll { task: 0, ops: &[WRITE, WRITE, Op::Read(5), Op::Read(9)], want: Err(BadPage { page: 5 }) },
    AsksAll { task: 0, ops: &[WRITE; 65], want: Err(TooManyWrites { most: 1 }) },
    Asks { task: 0, ops: &[READ; 65], want: Err(TooManyOps { most: 64 }) },
    AsksAll { task: 0, ops: &[READ; 65], want: Ok(Jobs { first: 0, jobs: 2 }) },
    AsksAll { task: 0, ops: &[READ; 64], want: Ok(Jobs { first: 2, jobs: 1 }) },
    AsksAll { task: 0, ops: &[READ; 22], want: Err(TooSoon { next: 400 }) },
    AsksAll { task: 0, ops: &[READ; 21], want: Ok(Jobs { first: 3, jobs: 1 }) },
    // the life has 1,000 slots: jobs are due 300 slots later
    Slots { count: 700 },
    AsksAll { task: 0, ops: &[READ; 100], want: Ok(Jobs { first: 46, jobs: 2 }) },
    Slots { count: 1 },
    AsksAll { task: 0, ops: &[READ; 51], want: Err(TooSoon { next: 1100 }) },
    AsksAll { task: 0, ops: &[READ; 50], want: Err(LifeEnd) },
];

#[test]
fn each_cause_of_a_refused_burst_comes_in_its_place(rt: HostRuntime) {
    assert_eq!(rt; plays(&rt, rt.alloc(), BURSTS, CAUSES), Ok(()));
}

/// Nothing was written, so no collection does anything, and the jobs run from slot 0 on, the first one first. Each counts
/// for 400 slots, beside a task that asks for bursts in each slot: two jobs of it are accepted in slot 0, and two in slot
/// 400.
#[rattlefmt::skip]
const BESIDE_BURSTS: &[Step] = &[
    AsksAll { task: 0, ops: &[READ; 150], want: Ok(Jobs { first: 0, jobs: 3 }) },
    Step::Bursts { slots: 399 },
    Is(Done { job: 0, completion: 64, lateness: -236 }),
    Is(Done { job: 1, completion: 128, lateness: -172 }),
    Is(Done { job: 2, completion: 150, lateness: -150 }),
    Is(Done { job: 4, completion: 220, lateness: -180 }),
    AsksAll { task: 0, ops: &[READ; 150], want: Err(TooSoon { next: 400 }) },
    Step::Bursts { slots: 1 },
    AsksAll { task: 0, ops: &[READ; 150], want: Ok(Jobs { first: 29, jobs: 3 }) },
    Step::Bursts { slots: 150 },
    Is(Done { job: 31, completion: 550, lateness: -150 }),
    Is(NothingLate),
];

#[test]
fn bursts_of_another_task_change_nothing(rt: HostRuntime) {
    assert_eq!(rt; plays(&rt, rt.alloc(), BURSTS, BESIDE_BURSTS), Ok(()));
}
