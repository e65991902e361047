//! Numbers that are out of their limits, in sentences.

use crate::ranges::range_of;
use crate::subjects::{Subject, TaskName};
use plan_texts::{TaskNumbers, TopNumbers};
use slot_types::{
    DiePlan, MAX_BLOCKS, MAX_DIES, MAX_ERASE_SLOTS, MAX_OPS, MAX_PAGES, MAX_SLOT, MAX_TASKS,
    MIN_BLOCKS, MIN_PAGES, TaskTimes, Times,
};
use std::io;
use std::io::Write;

/// A number of a plan, by its key, and its limits.
#[derive(Clone, Copy)]
struct Limited {
    key: &'static str,
    value: u32,
    least: u32,
    most: u32,
}

/// Writes a number that is out of its limits.
fn put_between(text: &mut Vec<u8>, of: Subject, number: Limited) -> io::Result<()> {
    let (key, value) = (number.key, number.value);
    if number.least <= value && value <= number.most {
        return Ok(());
    }
    let range = range_of(key);
    writeln!(text, "{of}: {key} is {value}, and has to be {range}.")
}

/// Writes the limits of numbers that are out of them.
fn put_each(text: &mut Vec<u8>, of: Subject, numbers: &[Limited]) -> io::Result<()> {
    for number in numbers {
        put_between(text, of, *number)?;
    }
    Ok(())
}

/// A number with its limits.
fn with_limits(key: &'static str, value: u32, least: u32, most: u32) -> Limited {
    Limited {
        key,
        value,
        least,
        most,
    }
}

/// Writes what of the dies' number and shape is out of its limits.
pub fn put_shape(text: &mut Vec<u8>, top: &TopNumbers) -> io::Result<()> {
    let numbers = [
        with_limits("dies", top.dies, 1, MAX_DIES),
        with_limits("blocks", top.blocks, MIN_BLOCKS, MAX_BLOCKS),
        with_limits("pages", top.pages, MIN_PAGES, MAX_PAGES),
        with_limits("erase_slots", top.erase_slots, 1, MAX_ERASE_SLOTS),
    ];
    put_each(text, Subject::Plan, &numbers)
}

/// Writes tasks whose die isn't there, by their places in the text, the first being 1.
pub fn put_strays(text: &mut Vec<u8>, tasks: &[TaskNumbers], dies: u32) -> io::Result<()> {
    for place in 0..tasks.len() {
        let die = tasks[place].die;
        if dies <= die {
            let nth = place as u64 + 1;
            let last = dies.saturating_sub(1);
            writeln!(
                text,
                "[[task]] {nth}: die is {die}, and dies are numbered from 0 to {last}."
            )?;
        }
    }
    Ok(())
}

/// Writes caps that are 0.
fn put_caps(text: &mut Vec<u8>, names: &[TaskName], caps: &[u32]) -> io::Result<()> {
    for task in 0..caps.len().min(names.len()) {
        let cap = with_limits("cap", caps[task], 1, u32::MAX);
        put_between(text, Subject::Task(names[task]), cap)?;
    }
    Ok(())
}

/// Writes more writes than operations.
fn put_writes(text: &mut Vec<u8>, of: Subject, task: &TaskTimes) -> io::Result<()> {
    let (writes, work) = (task.writes, task.work);
    if writes <= work {
        return Ok(());
    }
    writeln!(
        text,
        "{of}: writes is {writes}, and has to be at most work, which is {work}."
    )
}

/// Writes what of a task's times is out of its limits.
fn put_task_times(text: &mut Vec<u8>, of: Subject, task: &TaskTimes) -> io::Result<()> {
    let numbers = [
        with_limits("period", task.period, 1, MAX_SLOT),
        with_limits("collect_period", task.collect_period, 1, MAX_SLOT),
        with_limits("work", task.work, 1, MAX_OPS),
    ];
    put_each(text, of, &numbers)?;
    put_writes(text, of, task)
}

/// Writes what of a die's times is out of its limits.
fn put_times(text: &mut Vec<u8>, die: u32, names: &[TaskName], times: &Times) -> io::Result<()> {
    let common = with_limits("common", times.common, 1, MAX_SLOT);
    put_between(text, Subject::Die(die), common)?;
    let tasks = times.tasks.as_slice();
    for task in 0..tasks.len().min(names.len()) {
        put_task_times(text, Subject::Task(names[task]), &tasks[task])?;
    }
    Ok(())
}

/// Writes how many tasks a die has, where it has none or too many.
fn put_tasks(text: &mut Vec<u8>, die: u32, tasks: usize) -> io::Result<()> {
    if 1 <= tasks && tasks <= MAX_TASKS as usize {
        return Ok(());
    }
    let of = Subject::Die(die);
    writeln!(
        text,
        "{of}: it has {tasks} tasks, and has to have from 1 to {MAX_TASKS}."
    )
}

/// Writes what of a die's own numbers is out of its limits. Its shape is within its own. The names are those of its tasks.
pub fn put_die_limits(
    text: &mut Vec<u8>,
    die: u32,
    names: &[TaskName],
    plan: &DiePlan,
) -> io::Result<()> {
    put_tasks(text, die, plan.caps.len())?;
    let numbers = [
        with_limits("logical", plan.logical, 1, u32::MAX),
        with_limits("alpha", plan.alpha, 1, plan.shape.pages),
    ];
    put_each(text, Subject::Die(die), &numbers)?;
    put_caps(text, names, plan.caps.as_slice())?;
    match &plan.times {
        Some(times) => put_times(text, die, names, times),
        None => Ok(()),
    }
}
