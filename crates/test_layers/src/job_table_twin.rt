//! A table beside lists that each job has of its own: both say the same of each job, step by step.

use job_table::{CountedOps, JobTable};
use slot_types::{
    JobHead, JobNo, LentOps, MAX_JOBS, MAX_OPS, Op, OpList, PageData, Refusal, TaskNo,
};
use std::alloc::Global;
use std::test::Fail;

/// The operations of a job, and what its reads gave.
#[derive(Drop)]
struct Plain {
    ops: Vec<Op>,
    reads: Vec<PageData>,
}

/// The next of numbers that look random.
fn draw(seed: &mut u32) -> u32 {
    *seed = seed.wrapping_mul(1_664_525).wrapping_add(1_013_904_223);
    *seed >> 16
}

fn page(number: u32) -> PageData {
    PageData([(number % 251) as u8; 16])
}

fn some_op(seed: &mut u32) -> Op {
    let number = draw(seed);
    match number % 3 {
        0 => Op::Read(number),
        1 => Op::Write(number, page(number)),
        _ => Op::Trim(number),
    }
}

fn some_ops(alloc: Global, seed: &mut u32) -> Result<OpList, Refusal> {
    let mut ops = OpList::new(alloc);
    for _ in 0..draw(seed) % 5 {
        ops.push(some_op(seed))?;
    }
    Ok(ops)
}

/// A job of both, if the table takes one more. Refused, it is in neither.
fn accept(
    alloc: Global,
    table: &mut JobTable,
    jobs: &mut Vec<Plain>,
    seed: &mut u32,
) -> Result<(), Refusal> {
    if table.ended() || table.len() >= MAX_JOBS {
        return Ok(());
    }
    let ops = some_ops(alloc, seed)?;
    if ops.len() > MAX_OPS as usize {
        return Err(Refusal::TooManyOps);
    }
    let counted = match CountedOps::count(&LentOps::list(ops.as_slice()), 1 << 30) {
        Ok(counted) => counted,
        Err(page) => return Err(Refusal::BadPage { page }),
    };
    let plain = Plain {
        ops: Vec::from_slice(alloc, ops.as_slice())?,
        reads: Vec::with_capacity(alloc, ops.len())?,
    };
    jobs.reserve(1)?;
    let release = table.clock().saturating_add(draw(seed) % 4);
    let due = release.saturating_add(draw(seed) % 9);
    let head = JobHead {
        collects: false,
        task: TaskNo(0),
        release,
        due,
    };
    let _number = table.add(head, &counted)?;
    jobs.push_reserved(plain);
    Ok(())
}

/// The slot is the head's, if there is one, and what it carried.
fn run_slot(table: &mut JobTable, now: u32) -> Option<(JobNo, Option<Op>)> {
    if table.ended() || now < table.clock() || now >= 100_000 {
        return None;
    }
    let number = table.head(now)?;
    let (work, count, next) = match table.job(number) {
        Some(job) => (job.work(), job.op_count(), job.next_op()),
        None => return None,
    };
    if work >= 1_000 {
        return None;
    }
    match next {
        Some(Op::Read(_)) => table.carry_read(number, page(now)),
        _ => table.carry(number),
    }
    if work as usize + 1 >= count {
        table.finish(number, now + 1, 0);
    }
    Some((number, next))
}

/// What a read gave is noted in the lists.
fn note(jobs: &mut Vec<Plain>, number: JobNo, op: Option<Op>, now: u32) -> Result<(), Refusal> {
    if let Some(Op::Read(_)) = op {
        if let Some(job) = jobs.get_mut(number.0 as usize) {
            job.reads.push(page(now))?;
        }
    }
    Ok(())
}

/// Whether both say the same of a job.
fn agree(table: &JobTable, jobs: &[Plain], number: u32) -> bool {
    match (table.job(JobNo(number)), jobs.get(number as usize)) {
        (Some(job), Some(plain)) => {
            let mut same = job.op_count() == plain.ops.len()
                && job.reads() == plain.reads.as_slice();
            for place in 0..5 {
                same = same && job.op(place) == plain.ops.get(place as usize).copied();
            }
            same
        }
        (None, None) => true,
        _ => false,
    }
}

/// Plays `steps` steps. Answers whether both agreed at each, and how many slots carried a job.
fn play(
    alloc: Global,
    table: &mut JobTable,
    jobs: &mut Vec<Plain>,
    steps: u32,
) -> Result<(bool, u32), Refusal> {
    let mut seed = 7;
    let mut same = true;
    let mut carried = 0u32;
    for now in 0..steps {
        if draw(&mut seed) % 3 == 0 {
            accept(alloc, table, jobs, &mut seed)?;
        }
        if let Some((number, op)) = run_slot(table, now) {
            carried = carried.saturating_add(1);
            note(jobs, number, op, now)?;
            same = same && agree(table, jobs.as_slice(), number.0);
        }
        same = same && agree(table, jobs.as_slice(), draw(&mut seed) % (now + 1));
    }
    Ok((same && table.len() as usize == jobs.len(), carried))
}

/// Plays `steps` steps on a new table. Answers whether both agreed at each, how many jobs there are, and how many slots
/// carried one.
fn plays(alloc: Global, steps: u32) -> Result<(bool, usize, u32), Refusal> {
    let mut table = JobTable::new(alloc, 1)?;
    let mut jobs = Vec::new(alloc);
    let (same, carried) = play(alloc, &mut table, &mut jobs, steps)?;
    Ok((same, jobs.len(), carried))
}

/// How many jobs come, and how many slots carry one, follows from the drawn numbers and the order of jobs alone.
#[test]
fn a_table_says_what_lists_of_each_job_say(rt: HostRuntime) -> Result<(), Fail> {
    assert_eq!(rt; plays(rt.alloc(), 10_000)?, (true, 3_287, 7_355));
    Ok(())
}
