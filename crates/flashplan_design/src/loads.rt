//! The demand of a die with times, in sentences: by task and in sum, and the margins of what its collections give.

use crate::commons::{Periods, are_divisors, least_common};
use crate::sayings::Sayings;
use crate::subjects::{Subject, TaskName};
use flashplan_slot_times::{Rate, Share, Units};
use slot_types::{DiePlan, MAX_SLOT, TaskTimes, Times};
use std::io;
use std::io::Write;

/// How many slots something that takes `work` slots once in each `period` takes of `common` ones.
fn taken(work: u64, period: u32, common: u32) -> u64 {
    work.saturating_mul(u64::from(common / period.max(1)))
}

/// The most slots that a collection takes.
fn collection_work(plan: &DiePlan) -> u64 {
    let copied = u64::from(plan.shape.pages.saturating_sub(plan.alpha));
    copied
        .saturating_add(copied)
        .saturating_add(u64::from(plan.shape.erase_slots))
}

/// Writes how many slots a task's jobs and collections take, and gives their sum.
fn put_taken(
    said: &mut Sayings,
    of: Subject,
    plan: &DiePlan,
    common: u32,
    task: &TaskTimes,
) -> io::Result<u64> {
    let jobs = taken(u64::from(task.work), task.period, common);
    let collections = taken(collection_work(plan), task.collect_period, common);
    let sum = jobs.saturating_add(collections);
    let units = said.units;
    let (common, jobs, collections) = (
        units.slots(u64::from(common)),
        units.slots(jobs),
        units.slots(collections),
    );
    writeln!(
        said.figures,
        "{of}: of each {common} slots its jobs take at most {jobs}, its collections {collections}."
    )?;
    Ok(sum)
}

/// Writes a period that doesn't divide the hyperperiod.
fn put_divides(
    said: &mut Sayings,
    of: Subject,
    name: &str,
    period: u32,
    common: u32,
) -> io::Result<()> {
    if common % period.max(1) == 0 {
        return Ok(());
    }
    let units = said.units;
    let (period, common) = (
        units.slots(u64::from(period)),
        units.slots(u64::from(common)),
    );
    writeln!(
        said.faults,
        "{of}: {name} is {period}, and has to divide common, which is {common}."
    )
}

/// Something that has to be at least something else.
#[derive(Clone, Copy)]
struct Margin {
    has: &'static str,
    have: u64,
    needs: &'static str,
    need: u64,
}

/// Writes by how much one number is at least another, or how much is missing.
fn put_margin(said: &mut Sayings, of: Subject, margin: Margin) -> io::Result<()> {
    let Margin {
        has,
        have,
        needs,
        need,
    } = margin;
    if need <= have {
        let spare = have - need;
        writeln!(
            said.figures,
            "{of}: {has} is {have}, and {needs} is {need}: {spare} to spare."
        )
    } else {
        let missing = need - have;
        writeln!(
            said.faults,
            "{of}: {has} is {have}, and has to be at least {needs}, which is {need}: {missing} missing."
        )
    }
}

/// What a task's collections give it, compared with what its jobs write.
fn gain_of(alpha: u32, task: &TaskTimes) -> Margin {
    Margin {
        has: "alpha * period",
        have: u64::from(alpha).saturating_mul(u64::from(task.period)),
        needs: "writes * collect_period",
        need: u64::from(task.writes).saturating_mul(u64::from(task.collect_period)),
    }
}

/// A task's cap, compared with what it has to cover.
fn stock_of(alpha: u32, cap: u32, task: &TaskTimes) -> Margin {
    Margin {
        has: "cap",
        have: u64::from(cap),
        needs: "2 * writes + 2 * alpha",
        need: u64::from(task.writes)
            .saturating_add(u64::from(alpha))
            .saturating_mul(2),
    }
}

/// Writes how a task's collections keep up with its writes.
fn put_margins(
    said: &mut Sayings,
    of: Subject,
    alpha: u32,
    cap: u32,
    task: &TaskTimes,
) -> io::Result<()> {
    put_margin(said, of, gain_of(alpha, task))?;
    put_margin(said, of, stock_of(alpha, cap, task))
}

/// Writes the demand of all tasks.
fn put_sum(said: &mut Sayings, of: Subject, demand: u64, common: u32) -> io::Result<()> {
    let common = u64::from(common);
    let units = said.units;
    let (all, asked) = (units.slots(common), units.slots(demand));
    if demand <= common {
        let left = units.slots(common - demand);
        writeln!(
            said.figures,
            "{of}: of each {all} slots all tasks take at most {asked}: {left} to spare."
        )
    } else {
        let missing = units.slots(demand - common);
        writeln!(
            said.faults,
            "{of}: of each {all} slots all tasks may take {asked}: {missing} missing."
        )
    }
}

/// Writes which part of a die's slots is taken, where the length of a slot is known.
fn put_share(said: &mut Sayings, of: Subject, demand: u64, common: u32) -> io::Result<()> {
    if said.units.slot_us.is_none() {
        return Ok(());
    }
    let share = Share {
        part: demand,
        whole: u64::from(common),
    };
    writeln!(said.figures, "{of}: that is {share} of its slots.")
}

/// Writes the periods that don't divide the hyperperiod, and the least one that all of them divide.
fn put_undivided(
    said: &mut Sayings,
    die: u32,
    names: &[TaskName],
    times: &Times,
) -> io::Result<()> {
    let tasks = times.tasks.as_slice();
    for task in 0..tasks.len().min(names.len()) {
        let (of, own) = (Subject::Task(names[task]), tasks[task]);
        put_divides(said, of, "period", own.period, times.common)?;
        put_divides(said, of, "collect_period", own.collect_period, times.common)?;
    }
    let of = Subject::Die(die);
    match least_common(Periods::All, tasks) {
        Some(least) => {
            let least = said.units.slots(u64::from(least));
            writeln!(
                said.faults,
                "{of}: the least common that all its periods divide is {least}."
            )
        }
        None => {
            let most = said.units.slots(u64::from(MAX_SLOT));
            writeln!(
                said.faults,
                "{of}: all its periods divide no common up to {most}."
            )
        }
    }
}

/// Writes it of one task.
fn put_rate(said: &mut Sayings, of: Subject, task: &TaskTimes) -> io::Result<()> {
    let Units {
        slot_us: Some(slot_us),
        page_bytes: Some(page_bytes),
    } = said.units
    else {
        return Ok(());
    };
    let slots = task.period;
    let written = Rate {
        pages: task.writes,
        page_bytes,
        slots,
        slot_us,
    };
    let other = Rate {
        pages: task.work.saturating_sub(task.writes),
        page_bytes,
        slots,
        slot_us,
    };
    writeln!(
        said.figures,
        "{of}: its jobs write at most {written}, and read at most {other} beside."
    )
}

/// Writes what each task writes, and reads or trims, in MB/s, where the length of a slot and the bytes of a page are known.
fn put_rates(said: &mut Sayings, names: &[TaskName], times: &Times) -> io::Result<()> {
    let tasks = times.tasks.as_slice();
    for task in 0..tasks.len().min(names.len()) {
        put_rate(said, Subject::Task(names[task]), &tasks[task])?;
    }
    Ok(())
}

/// Writes the demand of each task and of all of them, where all periods divide the hyperperiod.
fn put_divided(
    said: &mut Sayings,
    die: u32,
    names: &[TaskName],
    plan: &DiePlan,
    times: &Times,
) -> io::Result<()> {
    let mut demand: u64 = 0;
    let tasks = times.tasks.as_slice();
    for task in 0..tasks.len().min(names.len()) {
        let of = Subject::Task(names[task]);
        let taken = put_taken(said, of, plan, times.common, &tasks[task])?;
        demand = demand.saturating_add(taken);
    }
    put_sum(said, Subject::Die(die), demand, times.common)?;
    put_share(said, Subject::Die(die), demand, times.common)?;
    put_rates(said, names, times)
}

/// Writes the margins of each task.
fn put_all_margins(
    said: &mut Sayings,
    names: &[TaskName],
    plan: &DiePlan,
    times: &Times,
) -> io::Result<()> {
    let (caps, tasks) = (plan.caps.as_slice(), times.tasks.as_slice());
    for task in 0..caps.len().min(tasks.len()).min(names.len()) {
        let of = Subject::Task(names[task]);
        put_margins(said, of, plan.alpha, caps[task], &tasks[task])?;
    }
    Ok(())
}

/// Writes the demand of a die with times: where a period doesn't divide the hyperperiod, that, and no sums, which
/// would be false.
pub fn put_load(
    said: &mut Sayings,
    die: u32,
    names: &[TaskName],
    plan: &DiePlan,
    times: &Times,
) -> io::Result<()> {
    put_all_margins(said, names, plan, times)?;
    if are_divisors(Periods::All, times.tasks.as_slice(), times.common) {
        put_divided(said, die, names, plan, times)
    } else {
        put_undivided(said, die, names, times)
    }
}
