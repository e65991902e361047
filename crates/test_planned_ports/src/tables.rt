//! Ports one by one: pages of their own, bursts, and a die that is closed and opened again.

use crate::dies::a_die;
use crate::heard::Heard::{Enters, Foreign, Other, Plan, Waits};
use crate::plans::{BURSTS, PLAN};
use crate::steps::Step::{Asks, AsksAll, Slots};
use crate::steps::Task::{First, Second};
use crate::steps::{Step, plays};
use crate::wrong::Wrong;
use flash_die::MemoryNand;
use ongoing_die::AskRefusal::{BadPage, EmptyJob, TooManyOps, TooSoon};
use ongoing_die::AskStop;
use planned_ports::{AskRefused, PageRange};
use slot_core::Outcome;
use slot_types::{JobNo, Op, PageData, TaskNo};
use std::alloc::Global;
use std::sync::Wait;
use task_outcomes::OutcomeDie;

const WRITE: Op = Op::Write(4, PageData([7; 16]));

const READ: Op = Op::Read(0);

const WAITS_ALREADY: AskRefused = AskRefused::Die(AskStop::WaitsAlready);

/// The first task has page 4, and the second one pages 0 to 3.
const OWN: [Option<PageRange>; 2] = [
    Some(PageRange { first: 4, count: 1 }),
    Some(PageRange { first: 0, count: 4 }),
];

/// A foreign page is the first cause, and what was refused for it counts for nothing.
#[rattlefmt::skip]
const OWN_PAGES: &[Step] = &[
    Asks { task: First, ops: &[Op::Read(3)], want: Foreign { page: 3 } },
    Asks { task: First, ops: &[Op::Read(4), Op::Read(0), Op::Read(1)], want: Foreign { page: 0 } },
    AsksAll { task: First, ops: &[Op::Read(4), Op::Read(0), Op::Read(1)], want: Foreign { page: 0 } },
    // the die has no page 5
    Asks { task: First, ops: &[Op::Read(5)], want: Foreign { page: 5 } },
    AsksAll { task: First, ops: &[Op::Read(5)], want: Foreign { page: 5 } },
    Asks { task: First, ops: &[], want: Plan(EmptyJob) },
    Asks { task: First, ops: &[Op::Read(4)], want: Enters { release: 0, due: 6, jobs: 1 } },
    AsksAll { task: First, ops: &[WRITE], want: Enters { release: 0, due: 6, jobs: 1 } },
    Asks { task: First, ops: &[Op::Read(4)], want: Plan(TooSoon { next: 10 }) },
    Asks { task: First, ops: &[Op::Read(3)], want: Foreign { page: 3 } },
    AsksAll { task: Second, ops: &[READ, WRITE], want: Foreign { page: 4 } },
    AsksAll { task: Second, ops: &[Op::Read(3), READ, Op::Read(1), Op::Read(2)], want: Enters { release: 0, due: 12, jobs: 1 } },
    Asks { task: Second, ops: &[Op::Read(3)], want: Plan(TooSoon { next: 12 }) },
];

/// Without a range a task has each page of the die.
#[rattlefmt::skip]
const ALL_PAGES: &[Step] = &[
    Asks { task: First, ops: &[Op::Read(5)], want: Plan(BadPage { page: 5 }) },
    Asks { task: First, ops: &[READ, Op::Read(4)], want: Enters { release: 0, due: 6, jobs: 1 } },
    Asks { task: Second, ops: &[Op::Read(5)], want: Foreign { page: 5 } },
    Asks { task: Second, ops: &[Op::Read(4)], want: Enters { release: 0, due: 12, jobs: 1 } },
];

/// Plays both tables on new dies.
fn has_own_pages<R: Wait>(rt: &R, alloc: Global) -> Result<(), Wrong> {
    let _ = plays(rt, alloc, a_die(alloc, &PLAN)?, &OWN, OWN_PAGES)?;
    let all = [None, Some(PageRange { first: 0, count: 5 })];
    let _ = plays(rt, alloc, a_die(alloc, &PLAN)?, &all, ALL_PAGES)?;
    Ok(())
}

#[test]
fn a_port_has_the_pages_of_its_range_alone(rt: HostRuntime) {
    assert_eq!(rt; has_own_pages(&rt, rt.alloc()), Ok(()));
}

/// How many operations of each task wait, and the clock.
fn standing(die: &OutcomeDie<MemoryNand>) -> [u64; 3] {
    [
        waiting(die, TaskNo(0)),
        waiting(die, TaskNo(1)),
        die.die().clock(),
    ]
}

fn waiting(die: &OutcomeDie<MemoryNand>, task: TaskNo) -> u64 {
    match die.die().waiting(task) {
        Some(ops) => ops.len() as u64,
        None => 0,
    }
}

/// In which slot of the present life this job was done: 0 where it isn't, or nothing can be told of it.
fn done_in(alloc: Global, die: &OutcomeDie<MemoryNand>, job: u32) -> u32 {
    match die.die().die().core().outcome(alloc, JobNo(job)) {
        Ok(Outcome::Done { completion, .. }) => completion,
        _ => 0,
    }
}

/// The first task asks in slot 75 of a life, before the die is closed; and after it was opened again.
#[rattlefmt::skip]
const BEFORE: &[Step] = &[
    Slots { count: 75 },
    Asks { task: First, ops: &[WRITE], want: Waits { release: 80, due: 86 } },
];

#[rattlefmt::skip]
const AFTER: &[Step] = &[
    Slots { count: 2 },
    Asks { task: First, ops: &[Op::Read(4)], want: Other(WAITS_ALREADY) },
    Slots { count: 3 },
];

/// What waits when a die is closed is the first job of the next life, which begins once it was opened again. It answers
/// what waits after each closing, and the clock; and in which slot the job was done.
fn waits_over_closings<R: Wait>(rt: &R, alloc: Global) -> Result<([[u64; 3]; 3], u32), Wrong> {
    let die = plays(rt, alloc, a_die(alloc, &PLAN)?, &[], BEFORE)?;
    let first = standing(&die);
    let die = plays(rt, alloc, die, &[], AFTER)?;
    let second = standing(&die);
    let die = plays(rt, alloc, die, &[], &[Slots { count: 2 }])?;
    Ok(([first, second, standing(&die)], done_in(alloc, &die, 0)))
}

#[test]
fn what_waits_is_done_after_the_die_was_opened_again(rt: HostRuntime) {
    assert_eq!(rt;
        waits_over_closings(&rt, rt.alloc()),
        Ok(([[1, 0, 75], [1, 0, 80], [0, 0, 82]], 1))
    );
}

/// Bursts of both tasks in the first slot: what came counts for 400 slots. The first task has pages 0 to 3.
const FOUR_PAGES: [Option<PageRange>; 2] = [Some(PageRange { first: 0, count: 4 }), None];

#[rattlefmt::skip]
const SOME_BURSTS: &[Step] = &[
    AsksAll { task: First, ops: &[READ; 100], want: Enters { release: 0, due: 300, jobs: 2 } },
    AsksAll { task: First, ops: &[READ; 51], want: Plan(TooSoon { next: 400 }) },
    AsksAll { task: First, ops: &[READ; 151], want: Plan(TooManyOps { most: 150 }) },
    AsksAll { task: First, ops: &[Op::Read(4); 151], want: Foreign { page: 4 } },
    Asks { task: First, ops: &[READ; 65], want: Plan(TooManyOps { most: 64 }) },
    AsksAll { task: First, ops: &[READ; 50], want: Enters { release: 0, due: 300, jobs: 1 } },
    AsksAll { task: Second, ops: &[Op::Read(4); 70], want: Enters { release: 0, due: 400, jobs: 2 } },
    // due after slot 1,000, where the life ends
    Slots { count: 701 },
    AsksAll { task: First, ops: &[READ; 150], want: Waits { release: 1000, due: 1300 } },
    AsksAll { task: Second, ops: &[Op::Read(4); 70], want: Waits { release: 1000, due: 1400 } },
    AsksAll { task: First, ops: &[READ; 2], want: Other(WAITS_ALREADY) },
    Asks { task: Second, ops: &[READ], want: Other(WAITS_ALREADY) },
    Slots { count: 299 },
];

/// The die was closed and opened again. The five jobs that waited are all that both tasks may ask for up to slot 400.
#[rattlefmt::skip]
const THEN_NONE: &[Step] = &[
    AsksAll { task: First, ops: &[READ], want: Plan(TooSoon { next: 400 }) },
    Asks { task: Second, ops: &[READ], want: Plan(TooSoon { next: 400 }) },
    Slots { count: 220 },
];

/// Bursts that wait are those of the next life, after the die was closed and opened again. It answers what waits after
/// each closing, and the clock; and in which slots the jobs were done that waited.
fn bursts_over_closings<R: Wait>(
    rt: &R,
    alloc: Global,
) -> Result<([[u64; 3]; 2], [u32; 5]), Wrong> {
    let die = plays(rt, alloc, a_die(alloc, &BURSTS)?, &FOUR_PAGES, SOME_BURSTS)?;
    let first = standing(&die);
    let die = plays(rt, alloc, die, &FOUR_PAGES, THEN_NONE)?;
    let mut done = [0; 5];
    for job in 0..5u32 {
        done[job as usize] = done_in(alloc, &die, job);
    }
    Ok(([first, standing(&die)], done))
}

/// The jobs run one after the other, the first task's before the second one's: 64, 64 and 22 operations, then 64 and 6.
#[test]
fn bursts_through_ports(rt: HostRuntime) {
    assert_eq!(rt;
        bursts_over_closings(&rt, rt.alloc()),
        Ok(([[150, 70, 1000], [0, 0, 1220]], [64, 128, 150, 214, 220]))
    );
}
