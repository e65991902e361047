//! The figures of a die, and of each of its tasks.

ghost use Rattle.std.specs.Prelude.{◌≤◌, length, IfOk};
ghost use Rattle.slot_types.specs.Refusal.{FailsForMemory};
ghost use Rattle.flashplan_run_figures.specs.Ends.{lateness_in};
ghost use Rattle.flashplan_run_figures.specs.Ranks.{IsRanked};
ghost use Rattle.flashplan_run_figures.specs.Records.{AreOfDie, AreOfTask, AreOfTasks, AreOwn, AreRecords};

use crate::counts::DieCounts;
use crate::ends::{EndCounts, JobEnd, counts_of, rising_of};
use crate::levels::{Levels, Low};
use crate::lives::{Lasting, Life, Wearing};
use crate::ranks::{mean, nearest_rank};
use crate::slot_counts::SlotCounts;
use slot_types::Refusal;
use std::alloc::Global;

/// How late jobs were done.
#[derive(Clone, Copy, PartialEq, Eq, Debug, Drop)]
pub struct Lateness {
    /// The greatest.
    pub worst: Option<i64>,
    /// In hundredths, rounded down.
    pub mean: Option<i64>,
    /// The least that 99 % don't exceed.
    pub p99: Option<i64>,
}

/// What a die has, and no task.
#[derive(Clone, Copy, PartialEq, Eq, Debug, Drop)]
pub struct OwnFigures {
    /// Slots that carried nothing.
    pub idle: u32,
    /// The fewest spare pages.
    pub least_spare: Low,
    pub wearing: Wearing,
    /// How long its blocks last, if that is asked for.
    pub lasting: Option<Lasting>,
}

/// The figures of a task, or of a die.
#[derive(Clone, Copy, Debug, Drop)]
pub struct Figures {
    /// The task, or none of those of the die.
    pub task: Option<u32>,
    pub ends: EndCounts,
    pub lateness: Lateness,
    pub slots: SlotCounts,
    /// The fewest tokens of a task.
    pub least_balance: Option<Low>,
    pub own: Option<OwnFigures>,
}

/// The figures of a die, and of each of its tasks, by number.
#[derive(Debug, Drop)]
pub struct Records {
    pub die: Figures,
    pub tasks: Vec<Figures>,
}

/// What a die's figures are made of.
#[derive(Clone, Copy)]
pub struct DieFigures<'a> {
    pub counts: &'a DieCounts,
    pub levels: &'a Levels,
    pub ends: &'a [JobEnd],
    pub wearing: Wearing,
    pub life: Life,
}

/// How late the done jobs of a task were, or of all tasks. The only refusal is NoMemory.
fn lateness_of(alloc: Global, ends: &[JobEnd], task: Option<u32>) -> Result<Lateness, Refusal>
    ensures is { IfOk result (IsRanked (lateness_in task ends.now)) }
    ensures refused { FailsForMemory result }
{
    let rising = rising_of(alloc, ends, task)?;
    let rising = rising.as_slice();
    Ok(Lateness {
        worst: rising.last().copied(),
        mean: mean(rising),
        p99: nearest_rank(rising, 990),
    })
}

/// What a die has, and no task.
fn own_of(die: &DieFigures<'_>) -> OwnFigures
    ensures { AreOwn die.now.counts.now.idle die.now.wearing die.now.life result }
{
    OwnFigures {
        idle: die.counts.idle,
        least_spare: die.levels.least_spare,
        wearing: die.wearing,
        lasting: die.wearing.lasting(die.life),
    }
}

/// The figures of a task of this number, whose slots carried this. The only refusal is NoMemory.
fn task_figures(
    alloc: Global,
    die: &DieFigures<'_>,
    place: usize,
    slots: SlotCounts,
) -> Result<Figures, Refusal>
    requires { place ≤ 4294967295 }
    ensures is { IfOk result (AreOfTask place die.now.ends.now slots) }
    ensures refused { FailsForMemory result }
{
    let task = Some(place as u32);
    let lateness = lateness_of(alloc, die.ends, task)?;
    Ok(Figures {
        task,
        ends: counts_of(die.ends, task),
        lateness,
        slots,
        least_balance: die.levels.least_of(place),
        own: None,
    })
}

/// The figures of a die's own. The only refusal is NoMemory.
fn die_figures(alloc: Global, die: &DieFigures<'_>) -> Result<Figures, Refusal>
    ensures is { IfOk result (AreOfDie die.now.ends.now die.now.counts.now die.now.wearing die.now.life) }
    ensures refused { FailsForMemory result }
{
    let lateness = lateness_of(alloc, die.ends, None)?;
    Ok(Figures {
        task: None,
        ends: counts_of(die.ends, None),
        lateness,
        slots: die.counts.all,
        least_balance: None,
        own: Some(own_of(die)),
    })
}

/// The figures of each task of a die. The only refusal is NoMemory.
fn tasks_of(alloc: Global, die: &DieFigures<'_>) -> Result<Vec<Figures>, Refusal>
    requires { length die.now.counts.now.tasks.items ≤ 4294967295 }
    ensures is { IfOk result (λ tasks.
        AreOfTasks die.now.ends.now die.now.counts.now.tasks.items tasks.items) }
    ensures refused { FailsForMemory result }
{
    let mut tasks = Vec::new(alloc);
    for place in 0..die.counts.tasks.len() {
        let figures = task_figures(alloc, die, place, die.counts.tasks[place])?;
        tasks.push(figures)?;
    }
    Ok(tasks)
}

/// The figures of a die, and of each of its tasks. The only refusal is NoMemory.
pub fn records_of(alloc: Global, die: &DieFigures<'_>) -> Result<Records, Refusal>
    requires { length die.now.counts.now.tasks.items ≤ 4294967295 }
    ensures is { IfOk result
        (AreRecords die.now.ends.now die.now.counts.now die.now.wearing die.now.life) }
    ensures refused { FailsForMemory result }
{
    let figures = die_figures(alloc, die)?;
    Ok(Records {
        die: figures,
        tasks: tasks_of(alloc, die)?,
    })
}
