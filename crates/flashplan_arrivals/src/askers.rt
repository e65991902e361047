//! The tasks of a store that ask.

ghost use Rattle.std.specs.Prelude.{IfErr};
ghost use Rattle.slot_types.specs.Refusal.{FailsForMemory};
ghost use Rattle.flashplan_arrivals.specs.PlannedScripts.{IsOwnFault};

use crate::faults::Fault;
use crate::jobs::{Asker, missing_in};
use crate::pages::Share;
use flashplan_lives::{are_tasks, life_of};
use slot_types::{DiePlan, MAX_SLOT, Refusal, StorePlan, TaskTimes};
use std::alloc::Global;

/// How many of these tasks write.
fn writers(tasks: &[TaskTimes]) -> u32 {
    let mut count: u32 = 0;
    for task in tasks {
        if task.writes > 0 {
            count = count.saturating_add(1);
        }
    }
    count
}

/// The pages of a task where each task has some of its own.
fn own_share(task: u32, tasks: u32, logical: u32) -> Share {
    Share {
        first: task,
        step: tasks,
        logical,
    }
}

/// The pages of a task where the writing tasks share all pages: each of these has some, and each of the others all.
fn full_share(times: &TaskTimes, writer: u32, writers: u32, logical: u32) -> Share {
    if times.writes == 0 {
        own_share(0, 1, logical)
    } else {
        own_share(writer, writers, logical)
    }
}

/// A task that asks, after `task` tasks of its die, of which `writer` write.
fn asker_of<'a>(
    die: u32,
    task: u32,
    writer: u32,
    plan: &DiePlan,
    tasks: &[TaskTimes],
    fill: Fill<'a>,
    own: &TaskTimes,
) -> Asker<'a> {
    let count = u32::try_from(tasks.len()).unwrap_or(u32::MAX);
    let Fill { fills, held } = fill;
    let share = if fills {
        full_share(own, writer, writers(tasks), plan.logical)
    } else {
        own_share(task, count, plan.logical)
    };
    let writes = own.writes > 0;
    Asker {
        die,
        task,
        times: *own,
        share,
        held,
        to_fill: if fills && writes {
            missing_in(share, held)
        } else {
            0
        },
        place: 0,
        trims: writes && !fills,
        next: 0,
    }
}

/// Whether the tasks of a die fill it, and which of its pages lie in cells already.
#[derive(Clone, Copy, Drop)]
struct Fill<'a> {
    fills: bool,
    held: &'a [bool],
}

/// Adds the tasks of a die. The only refusal is NoMemory.
fn add_askers<'a>(
    askers: &mut Vec<Asker<'a>>,
    die: u32,
    plan: &DiePlan,
    fill: Fill<'a>,
) -> Result<(), Refusal>
    ensures { FailsForMemory result }
{
    let Some(times) = &plan.times else {
        return Ok(());
    };
    let tasks = times.tasks.as_slice();
    let (mut task, mut writer) = (0u32, 0u32);
    for own in tasks {
        let asker = asker_of(die, task, writer, plan, tasks, fill, own);
        askers.push(asker)?;
        task = task.saturating_add(1);
        writer = writer.saturating_add(u32::from(own.writes > 0));
    }
    Ok(())
}

/// For how many slots the numbers of a die last.
pub fn life(plan: &DiePlan) -> u32 {
    match &plan.times {
        Some(times) if are_tasks(times.tasks.as_slice()) => life_of(times.tasks.as_slice()),
        _ => MAX_SLOT,
    }
}

/// That the numbers of each die last for `slots` slots; else the die whose numbers last least.
fn check_lives(plan: &StorePlan, slots: u32) -> Result<(), Fault>
    ensures { IfErr result IsOwnFault }
{
    let (mut least, mut shortest, mut die) = (MAX_SLOT, 0u32, 0u32);
    for own in plan.as_slice() {
        let life = life(own);
        if life < least {
            least = life;
            shortest = die;
        }
        die = die.saturating_add(1);
    }
    if least < slots {
        return Err(Fault::TooMany {
            die: shortest,
            most: least,
        });
    }
    Ok(())
}

/// The pages of a die that lie in cells already; none where nothing is known of it.
fn held_on<'a>(held: &'a [Vec<bool>], die: u32) -> &'a [bool] {
    match held.get(die as usize) {
        Some(pages) => pages.as_slice(),
        None => &[],
    }
}

/// The tasks of all dies, which ask within `slots` slots no more often than a die accepts; by die and page, whether the
/// page lies in a cell already.
pub fn askers_of<'a>(
    alloc: Global,
    plan: &StorePlan,
    slots: u32,
    fills: bool,
    held: &'a [Vec<bool>],
) -> Result<Vec<Asker<'a>>, Fault>
    ensures { IfErr result IsOwnFault }
{
    check_lives(plan, slots)?;
    let mut askers = Vec::new(alloc);
    let mut die: u32 = 0;
    for own in plan.as_slice() {
        let fill = Fill {
            fills,
            held: held_on(held, die),
        };
        add_askers(&mut askers, die, own, fill)?;
        die = die.saturating_add(1);
    }
    Ok(askers)
}
