//! Runs as tables: what each of two dies is fed, and how it has to end.

ghost use Rattle.std.specs.Prelude.{◌≡◌, ◌≤◌, map, All};
ghost use Rattle.die_service.specs.Runs.{AllArrive};

use crate::feeds::{Job, add_jobs, both, three};
use crate::made::ONES;
use die_service::{
    DieEnd, DieEnds, DiePass, Feed, FreeGate, Gate, RefusedAt, RefusedEvent, RunDie, Store,
    run_slots,
};
use flash_die::Nand;
use slot_types::{Op, Refusal};
use std::alloc::Global;
use std::process::Abort;
use std::sync::Wait;
use std::thread::Threads;

/// What a die is fed, and how its run has to end: with `slots` slots, these refused events, and this refusal that stops
/// it.
pub(crate) struct Course<'a> {
    pub(crate) jobs: &'a [Job],
    pub(crate) slots: u32,
    pub(crate) refused: &'a [RefusedEvent],
    pub(crate) stop: Option<RefusedAt>,
}

/// A write and a read of page 3, a slot apart.
#[rattlefmt::skip]
pub(crate) const WRITE_AND_READ: [Job; 2] = [
    Job { release: 0, due: 2, op: Op::Write(3, ONES) },
    Job { release: 1, due: 3, op: Op::Read(3) },
];

/// A die that is fed these carries out two slots, and refuses nothing.
pub(crate) const WRITES_AND_READS: Course = Course {
    jobs: &WRITE_AND_READ,
    slots: 2,
    refused: &[],
    stop: None,
};

/// Runs a store with a feed for each die.
pub(crate) fn run<N: Nand + Send, G: Gate + Sync, R: Threads + Wait + Sync>(
    rt: &R,
    store: &Store<N>,
    passes: &mut Vec<DiePass<N>>,
    feeds: Vec<Feed>,
    slots: u32,
    workers: u32,
    gate: &G,
) -> Result<DieEnds, Refusal>
    requires own { map (λ pass. pass.lock) passes.old.items ≡ store.now }
    requires arrive { All AllArrive feeds.items }
    requires workers { (1 ≤ workers) × (workers ≤ 16) }
    ensures own { map (λ pass. pass.lock) passes.new.items ≡ store.now }
{
    if feeds.len() != passes.len() {
        return Err(Refusal::UnknownDie);
    }
    run_slots(rt, store, passes, feeds, slots, workers, gate)
}

// A die's run ended as its course says.
fn ended(rt: &impl Abort, die: u32, got: &DieEnd, course: &Course) {
    let want = (course.slots, course.refused, course.stop);
    let right = (got.slots == course.slots)
        & (got.refused.as_slice() == course.refused)
        & (got.stop == course.stop);
    assert!(rt; right, "the run of die {die}: want {want:?}, got {got:?}");
}

// Each die's run ended as its course says.
fn all_ended(rt: &impl Abort, ends: &[DieEnd], courses: &[Course]) {
    assert_eq!(rt; ends.len(), courses.len(), "how many dies ran");
    let mut die: u32 = 0;
    for (end, course) in ends.iter().zip(courses) {
        ended(rt, die, end, course);
        die = die.wrapping_add(1);
    }
}

/// Runs two dies with their courses. Fails the test where one doesn't end as it has to.
pub(crate) fn run_courses<N: Nand + Send, G: Gate + Sync, R: Threads + Wait + Sync + Abort>(
    rt: &R,
    alloc: Global,
    store: &Store<N>,
    passes: &mut Vec<DiePass<N>>,
    courses: &[Course; 2],
    slots: u32,
    workers: u32,
    gate: &G,
) -> Result<(), Refusal>
    requires own { map (λ pass. pass.lock) passes.old.items ≡ store.now }
    requires workers { (1 ≤ workers) × (workers ≤ 16) }
    ensures own { map (λ pass. pass.lock) passes.new.items ≡ store.now }
{
    let feeds = both(alloc, courses[0].jobs, courses[1].jobs)?;
    let ends = run(rt, store, passes, feeds, slots, workers, gate)?;
    all_ended(rt, ends.as_slice(), courses.as_slice());
    Ok(())
}

/// Runs a part of the run of a die that a run owns: up to before this slot, with the events of this course. Fails the test
/// where it doesn't end as it has to.
pub(crate) fn run_part<N: Nand>(
    rt: &impl Abort,
    die: &mut RunDie<N>,
    course: &Course,
    until: u32,
) -> Result<(), Refusal> {
    let from = die.clock();
    add_jobs(die, course.jobs)?;
    let ran = die.run(until);
    let want = (course.slots, course.refused.len(), course.stop.is_none());
    let right = (die.clock() == until)
        & (from.wrapping_add(course.slots) == until)
        & (die.refused() == course.refused)
        & (ran.is_ok() == course.stop.is_none());
    assert!(rt;
        right,
        "the run of a die up to {until}: want {want:?}, got {ran:?}"
    );
    die.clear();
    Ok(())
}

/// Runs three dies with their courses. Fails the test where one doesn't end as it has to.
pub(crate) fn run_three<N: Nand + Send, R: Threads + Wait + Sync + Abort>(
    rt: &R,
    alloc: Global,
    store: &Store<N>,
    passes: &mut Vec<DiePass<N>>,
    courses: &[Course; 3],
    slots: u32,
) -> Result<(), Refusal>
    requires own { map (λ pass. pass.lock) passes.old.items ≡ store.now }
{
    let feeds = three(alloc, courses[0].jobs, courses[1].jobs, courses[2].jobs)?;
    let ends = run(rt, store, passes, feeds, slots, 2, &FreeGate)?;
    all_ended(rt, ends.as_slice(), courses.as_slice());
    Ok(())
}
