//! Tables of jobs at work, in memory that was reserved. A test is a table of steps, which one small function plays: so no
//! test holds a job table.

ghost use Rattle.std.specs.Prelude.{◌≡◌};

use job_table::{CountedOps, Job, JobTable};
use slot_types::{JobHead, JobNo, LentOps, MAX_JOBS, MAX_OPS, Op, PageData, Refusal, TaskNo};
use std::alloc::Global;
use std::env::Env;
use std::test::Fail;
use test_memory::is_scarce;

fn head_of(collects: bool, task: TaskNo, release: u32, due: u32) -> JobHead
    ensures { result ≡ record { collects = collects; task = task; release = release; due = due } }
{
    JobHead {
        collects,
        task,
        release,
        due,
    }
}

/// Accepts a job of task 0, where the table takes one.
fn add_ops(
    table: &mut JobTable,
    release: u32,
    due: u32,
    ops: &[Op],
) -> Result<Option<u32>, Refusal> {
    if table.ended() || table.len() >= MAX_JOBS || ops.len() > MAX_OPS as usize {
        return Ok(None);
    }
    match CountedOps::count(&LentOps::list(ops), 1 << 30) {
        Ok(counted) => {
            let number = table.add(head_of(false, TaskNo(0), release, due), &counted)?;
            Ok(Some(number.0))
        }
        Err(_) => Ok(None),
    }
}

/// What the read of a slot gives.
fn page_at(slot: u32) -> PageData {
    PageData([(slot % 256) as u8; 16])
}

/// The slot is the head's, if there is one; it is done with its last operation.
fn run_slot(table: &mut JobTable, now: u32) -> Option<JobNo> {
    if table.ended() || now < table.clock() || now >= 1_000 {
        return None;
    }
    let number = table.head(now)?;
    let (work, count, next) = match table.job(number) {
        Some(job) => (job.work(), job.op_count(), job.next_op()),
        None => return None,
    };
    if work >= 1_000 {
        return None;
    }
    match next {
        Some(Op::Read(_)) => table.carry_read(number, page_at(now)),
        _ => table.carry(number),
    }
    if work as usize + 1 >= count {
        table.finish(number, now + 1, 0);
    }
    Some(number)
}

/// Whether the slots from this one on carry these numbers, 99 for none.
fn carries(table: &mut JobTable, from: u32, numbers: &[u32]) -> bool {
    let mut now = from;
    for wanted in numbers {
        let number = match run_slot(table, now) {
            Some(number) => number.0,
            None => 99,
        };
        if number != *wanted {
            return false;
        }
        now = now.saturating_add(1);
    }
    true
}

/// Accepts a collection, where the table takes one.
fn add_collection(table: &mut JobTable, task: TaskNo) -> Result<Option<u32>, Refusal> {
    if table.ended() || table.len() >= MAX_JOBS || task.0 as usize >= table.tasks() {
        return Ok(None);
    }
    if table.is_collecting(task) {
        return Ok(None);
    }
    let number = table.add(head_of(true, task, 0, 9), &CountedOps::none())?;
    Ok(Some(number.0))
}

/// What is asked of a table, and what comes of it.
enum Step<'a> {
    /// A job with this release, this deadline and these operations is accepted under this number.
    Accepts(u32, u32, &'a [Op], u32),
    /// A collection for this task is accepted under this number, or none is.
    Collects(u32, Option<u32>),
    /// The slots from this one on carry these numbers, 99 for none.
    Carries(u32, &'a [u32]),
    /// The reads of the job of this number gave the pages of these slots.
    Gave(u32, &'a [u32]),
    /// Memory is reserved for a number of jobs and collections more, and for a number of operations of these in all.
    Reserved(u32, u64),
    /// All jobs are taken away.
    Clears,
}

/// Whether the reads of a job gave the pages of these slots.
fn gave(job: &Job, slots: &[u32]) -> bool {
    let reads = job.reads();
    if reads.len() != slots.len() {
        return false;
    }
    for (read, slot) in reads.iter().zip(slots) {
        if *read != page_at(*slot) {
            return false;
        }
    }
    true
}

/// Whether a step goes as it says.
fn goes(table: &mut JobTable, step: &Step) -> bool {
    match step {
        Step::Accepts(release, due, ops, number) => {
            add_ops(table, *release, *due, *ops) == Ok(Some(*number))
        }
        Step::Collects(task, number) => { add_collection(table, TaskNo(*task)) == Ok(*number) }
        Step::Carries(from, numbers) => carries(table, *from, *numbers),
        Step::Reserved(arrivals, operations) => {
            (table.reserved_arrivals() == *arrivals) & (table.reserved_operations() == *operations)
        }
        Step::Clears => {
            table.clear();
            table.is_empty()
        }
        Step::Gave(number, slots) => match table.job(JobNo(*number)) {
            Some(job) => gave(&job, *slots),
            None => false,
        },
    }
}

fn play(table: &mut JobTable, steps: &[Step]) -> Option<usize> {
    for (place, step) in steps.iter().enumerate() {
        if !goes(table, step) {
            return Some(place);
        }
    }
    None
}

/// A new table of two tasks with memory reserved for `arrivals` jobs and collections, with `operations` operations in
/// all.
fn reserved_once(alloc: Global, arrivals: u32, operations: u32) -> Result<JobTable, Refusal> {
    let mut table = JobTable::new(alloc, 2)?;
    table.reserve(arrivals, operations)?;
    Ok(table)
}

/// The same. Where memory is scarce and is refused for it, another one is made.
fn reserved<R: Env>(
    rt: &R,
    alloc: Global,
    arrivals: u32,
    operations: u32,
) -> Result<JobTable, Refusal> {
    match reserved_once(alloc, arrivals, operations) {
        Err(Refusal::NoMemory) if is_scarce(rt) => reserved_once(alloc, arrivals, operations),
        made => made,
    }
}

/// The place of the first step that goes otherwise than it says, on such a table. No step is made again: what is
/// reserved is to take no memory.
fn first_wrong_of_reserved<R: Env>(
    rt: &R,
    alloc: Global,
    arrivals: u32,
    operations: u32,
    steps: &[Step],
) -> Result<Option<usize>, Refusal> {
    let mut table = reserved(rt, alloc, arrivals, operations)?;
    Ok(play(&mut table, steps))
}

const R0: Op = Op::Read(0);

const R1: Op = Op::Read(1);

const R2: Op = Op::Read(2);

#[test]
fn reserved_arrivals_take_no_memory(rt: HostRuntime) -> Result<(), Fail> {
    const STEPS: &[Step] = &[
        Step::Reserved(4, 6),
        Step::Accepts(0, 9, &[R0, R1, R2], 0),
        Step::Reserved(3, 3),
        Step::Collects(1, Some(1)),
        Step::Reserved(2, 3),
        // Job 2 waits for its release.
        Step::Accepts(5, 9, &[Op::Write(3, PageData::BLANK)], 2),
        Step::Reserved(1, 2),
        Step::Carries(0, &[0, 0, 0, 1]),
        Step::Accepts(0, 9, &[R0, R1], 3),
        Step::Reserved(0, 0),
        Step::Carries(4, &[3, 2, 3, 99]),
        Step::Gave(0, &[0, 1, 2]),
        Step::Gave(3, &[4, 6]),
    ];
    assert_eq!(rt;
        first_wrong_of_reserved(&rt, rt.alloc(), 4, 6, STEPS)?,
        None
    );
    Ok(())
}

#[test]
fn a_cleared_table_reserves_again_what_had_been(rt: HostRuntime) -> Result<(), Fail> {
    const STEPS: &[Step] = &[
        Step::Accepts(0, 9, &[R0, R1], 0),
        Step::Reserved(1, 2),
        Step::Carries(0, &[0, 0]),
        Step::Clears,
        Step::Reserved(2, 4),
        Step::Accepts(0, 9, &[R0, R1], 0),
        // Job 1 waits for its release.
        Step::Accepts(2, 9, &[R1, R2], 1),
        Step::Reserved(0, 0),
        Step::Carries(0, &[0, 0, 1, 1, 99]),
        Step::Gave(0, &[0, 1]),
        Step::Gave(1, &[2, 3]),
        Step::Clears,
        Step::Reserved(2, 4),
    ];
    assert_eq!(rt;
        first_wrong_of_reserved(&rt, rt.alloc(), 2, 4, STEPS)?,
        None
    );
    Ok(())
}
