//! A die that gets its ports.

ghost use Rattle.std.specs.Prelude.{◌≡◌, ◌≤◌, [], None, Some, All, length, slice_index_or, vec_capacity, IfOk, IfErr, OnOk};
ghost use Rattle.turn_lock.specs.Log.{calls_by};
ghost use Rattle.turn_lock.specs.Views.{IsSamePass};
ghost use Rattle.planned_ports.specs.Opening.{AreNewFrom, GivesBack};

use crate::book::PlannedBook;
use crate::pages::PageRange;
use crate::ports::{ClockPort, SharedPlannedDie, TaskPort};
use flash_die::Nand;
use slot_types::{Refusal, TaskNo};
use std::alloc::{AllocFailed, Global};
use std::sync::Wait;
use task_outcomes::OutcomeDie;
use turn_lock::{NewLock, Pass};

/// A die with its ports.
#[derive(Drop)]
pub struct Opened<N: Nand> {
    pub die: SharedPlannedDie<N>,
    pub clock: ClockPort<N>,
    /// One for each task of the plan, in order.
    pub tasks: Vec<TaskPort<N>>,
}

/// Why a die gets no ports.
#[derive(Drop)]
pub enum NotOpened<N: Nand> {
    /// Memory is refused. The die is handed back.
    NoMemory(OutcomeDie<N>),
    /// The lock has made 65,536 ports. That no new lock has isn't proved; the die is given up then.
    PassesFull,
}

/// Puts a die behind a lock that nobody has used. Where memory is refused, the die is handed back.
fn new_lock<N: Nand>(
    alloc: Global,
    die: OutcomeDie<N>,
) -> Result<NewLock<PlannedBook<N>>, OutcomeDie<N>>
    ensures opened { IfOk result (λ lock. lock.opened ≡ die) }
    ensures back { IfErr result (λ kept. kept ≡ die) }
{
    let book = match Box::new(alloc, die) {
        Ok(die) => PlannedBook::new(alloc, die),
        Err(AllocFailed { value }) => return Err(value),
    };
    match NewLock::new(alloc, book) {
        Ok(lock) => Ok(lock),
        Err(AllocFailed { value }) => Err(value.into_die()),
    }
}

/// The pages of the task, where some are named.
fn range_of(ranges: &[Option<PageRange>], task: usize) -> Option<PageRange>
    ensures { result ≡ slice_index_or ranges.now task None }
{
    match ranges.get(task) {
        Some(range) => *range,
        None => None,
    }
}

/// A port of the task, made by the first pass.
fn new_port<N: Nand, R: Wait>(
    rt: &R,
    die: &SharedPlannedDie<N>,
    pass: &mut Pass<PlannedBook<N>>,
    task: u32,
    pages: Option<PageRange>,
) -> Result<TaskPort<N>, Refusal>
    requires { pass.old.lock ≡ die.now }
    ensures same { IsSamePass pass.old pass.new }
    ensures own { calls_by pass.old.view.number pass.new.view.seen
        ≡ calls_by pass.old.view.number pass.old.view.seen }
    ensures lock { IfOk result (λ port. port.lock ≡ die.now) }
    ensures about { IfOk result (λ port. port.view.about ≡ pass.old.view.about) }
    ensures task { IfOk result (λ port. port.task ≡ task) }
    ensures pages { IfOk result (λ port. port.pages ≡ pages) }
    ensures nothing { IfOk result (λ port. calls_by port.view.number port.view.seen ≡ []) }
{
    // It says that no other pass has taken this one in.
    let _ = pass.number();
    let pass = die.turned.split_pass(rt, pass)?;
    Ok(TaskPort {
        pass,
        task: TaskNo(task),
        pages,
    })
}

/// A die behind a lock, with its first pass. Where memory is refused, the die is handed back.
fn share<N: Nand>(
    alloc: Global,
    die: OutcomeDie<N>,
) -> Result<(SharedPlannedDie<N>, Pass<PlannedBook<N>>), OutcomeDie<N>>
    ensures own { IfOk result (λ made. made.1.lock ≡ made.0) }
    ensures about { IfOk result (λ made. made.1.view.about ≡ Some die) }
    ensures none { IfOk result (λ made. made.1.view.seen ≡ []) }
    ensures back { IfErr result (λ kept. kept ≡ die) }
{
    match new_lock(alloc, die) {
        Ok(lock) => {
            let (turned, pass) = lock.start();
            Ok((SharedPlannedDie { turned }, pass))
        }
        Err(die) => Err(die),
    }
}

/// A port of each task, in order, into room that was made.
fn make_ports<N: Nand, R: Wait>(
    rt: &R,
    die: &SharedPlannedDie<N>,
    pass: &mut Pass<PlannedBook<N>>,
    ranges: &[Option<PageRange>],
    count: usize,
    tasks: &mut Vec<TaskPort<N>>,
) -> Result<(), Refusal>
    requires own { pass.old.lock ≡ die.now }
    requires none { tasks.old.items ≡ [] }
    requires few { count ≤ 16 }
    requires room { count ≤ vec_capacity tasks.old }
    ensures same { IsSamePass pass.old pass.new }
    ensures own { calls_by pass.old.view.number pass.new.view.seen
        ≡ calls_by pass.old.view.number pass.old.view.seen }
    ensures tasks { OnOk result (AreNewFrom die.now pass.old.view.about ranges.now 0 tasks.new.items) }
    ensures one_each { OnOk result (length tasks.new.items ≡ count) }
{
    for task in 0..count {
        let port = new_port(rt, die, pass, task as u32, range_of(ranges, task))?;
        tasks.push_reserved(port);
    }
    Ok(())
}

/// Opens a die to any number of threads: it gets one port for each task of its plan, in order, and one for the clock. The
/// port of task `t` may use the pages of `ranges[t]` alone, and all pages where there is no such range.
///
/// `NoMemory`, which hands the die back. Nothing else refuses it, as `PassesFull` says.
pub fn open<N: Nand, R: Wait>(
    rt: &R,
    alloc: Global,
    die: OutcomeDie<N>,
    ranges: &[Option<PageRange>],
) -> Result<Opened<N>, NotOpened<N>>
    ensures clock { IfOk result (λ made. made.clock.lock ≡ made.die) }
    ensures about { IfOk result (λ made. made.clock.view.about ≡ Some die) }
    ensures none { IfOk result (λ made.
        calls_by made.clock.view.number made.clock.view.seen ≡ []) }
    ensures own { IfOk result (λ made. All (λ port. port.lock ≡ made.die) made.tasks.items) }
    ensures tasks { IfOk result (λ made. AreNewFrom made.die (Some die) ranges.now 0 made.tasks.items) }
    ensures one_each { IfOk result (λ made. length made.tasks.items ≡ length die.die.die.terms.tasks) }
    ensures back { IfErr result (GivesBack die) }
{
    // It says that there are 16 tasks at most.
    die.die().goes_on();
    let count = die.die().die().terms().tasks.len();
    let mut tasks = match Vec::with_capacity(alloc, count) {
        Ok(tasks) => tasks,
        Err(_) => return Err(NotOpened::NoMemory(die)),
    };
    let (die, mut pass) = match share(alloc, die) {
        Ok(made) => made,
        Err(die) => return Err(NotOpened::NoMemory(die)),
    };
    match make_ports(rt, &die, &mut pass, ranges, count, &mut tasks) {
        Ok(()) => Ok(Opened {
            die,
            clock: ClockPort { pass },
            tasks,
        }),
        Err(_) => Err(NotOpened::PassesFull),
    }
}
