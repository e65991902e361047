//! How long a die lives by its plan, and where a life may end so that the next one keeps the plan, too, in sentences.

use crate::commons::{Periods, least_common};
use crate::sayings::Sayings;
use crate::subjects::{Subject, TaskName};
use flashplan_lives::{are_tasks, life_of};
use flashplan_slot_times::Units;
use slot_types::{MAX_JOBS, MAX_SLOT, TaskTimes, Times};
use std::io;
use std::io::Write;

/// Reports for how many slots a die lives, how it then goes on, and, of a plan without a fault so far, where a life may
/// end so that its periods do.
pub fn put_life(said: &mut Sayings, die: u32, names: &[TaskName], times: &Times) -> io::Result<()> {
    let tasks = times.tasks.as_slice();
    if !are_tasks(tasks) {
        return Ok(());
    }
    let life = life_of(tasks);
    let units = said.units;
    put_length(&mut said.figures, die, life, units)?;
    if said.faults.is_empty() {
        put_ends(&mut said.figures, die, names, tasks, life, units)?;
    }
    Ok(())
}

/// Reports for how many slots a die lives.
fn put_length(text: &mut Vec<u8>, die: u32, life: u32, units: Units) -> io::Result<()> {
    let of = Subject::Die(die);
    let slots = units.slots(u64::from(life));
    if life < MAX_SLOT {
        writeln!(
            text,
            "{of}: its {MAX_JOBS} numbers for jobs and collections last for {slots} slots; `renew` begins the next life."
        )
    } else {
        writeln!(
            text,
            "{of}: its {slots} slots end before its {MAX_JOBS} numbers do; `renew` begins the next life."
        )
    }
}

/// Reports at which slots of a life its periods may end, and what that asks of the jobs before.
fn put_ends(
    text: &mut Vec<u8>,
    die: u32,
    names: &[TaskName],
    tasks: &[TaskTimes],
    life: u32,
    units: Units,
) -> io::Result<()> {
    let of = Subject::Die(die);
    let most = units.slots(u64::from(MAX_SLOT));
    match least_common(Periods::Collect, tasks) {
        None => writeln!(
            text,
            "{of}: its periods end in no life: no number of slots up to {most} is a multiple of each collect_period."
        ),
        Some(end) if life < end => {
            let end = units.slots(u64::from(end));
            writeln!(
                text,
                "{of}: its periods end in no life: the least multiple of each collect_period is {end}."
            )
        }
        Some(end) => {
            let slots = units.slots(u64::from(end));
            writeln!(
                text,
                "{of}: its periods end at each multiple of {slots} slots by which the deadlines of its jobs have come."
            )?;
            put_gaps(text, names, tasks, end, units)
        }
    }
}

/// Reports by task in how many slots before such a multiple no job may come.
fn put_gaps(
    text: &mut Vec<u8>,
    names: &[TaskName],
    tasks: &[TaskTimes],
    end: u32,
    units: Units,
) -> io::Result<()> {
    for task in 0..tasks.len().min(names.len()) {
        let (of, period) = (Subject::Task(names[task]), tasks[task].period);
        if period > 1 {
            put_gap(text, of, period, end, units)?;
        }
    }
    Ok(())
}

/// Reports it of one task, whose jobs come at least this period apart, each due a period after it came.
fn put_gap(text: &mut Vec<u8>, of: Subject, period: u32, end: u32, units: Units) -> io::Result<()> {
    let gap = units.slots(u64::from(period.saturating_sub(1)));
    let at_multiples = if period != 0 && end % period == 0 {
        "none does"
    } else {
        "one does"
    };
    writeln!(
        text,
        "{of}: for that no job may come in the {gap} slots before; at the multiples of its period {at_multiples}."
    )
}
