//! The threads of a die: one for its timer, and one for each of its tasks. None of them waits for another.

ghost use Rattle.std.specs.Prelude.{◌≡◌};

use crate::answers::Answers;
use crate::babbler::run_babbler;
use crate::plan::OWN_PAGES;
use crate::ports::{Ports, Shared, closed, opened};
use crate::stops::Stop;
use crate::tasks::{CONTROL_TASK, Diary, LOGGER_TASK, run_task, take_outcomes};
use crate::timer::{Ticked, run_timer};
use flash_die::Nand;
use planned_ports::{ClockPort, SharedPlannedDie, TaskPort};
use std::alloc::Global;
use std::sync::Wait;
use std::sync::atomic::{AtomicBool, Ordering};
use std::thread;
use std::thread::Threads;
use std::time::Clock;
use task_outcomes::OutcomeDie;

/// What the threads of a die were answered.
#[derive(Drop)]
pub(crate) struct Reported {
    pub(crate) ticked: Ticked,
    pub(crate) control: Diary,
    pub(crate) logger: Diary,
    pub(crate) babbler: Answers,
}

/// What the timer and the tasks note down.
#[derive(Drop)]
struct Diaries {
    ticked: Ticked,
    control: Diary,
    logger: Diary,
}

impl Diaries {
    /// Empty ones, with room for all jobs of a task, for a die whose lives have `life` slots.
    fn new(alloc: Global, life: u32) -> Result<Diaries, Stop> {
        Ok(Diaries {
            ticked: Ticked::new(life),
            control: Diary::new(alloc, &CONTROL_TASK)?,
            logger: Diary::new(alloc, &LOGGER_TASK)?,
        })
    }
}

/// What both tasks give back.
type Asked<N> = ((TaskPort<N>, Diary), (TaskPort<N>, Diary));

/// Both tasks, each in a thread.
fn run_tasks<N: Nand + Send, R: Clock + Threads + Wait + Sync>(
    rt: &R,
    die: &SharedPlannedDie<N>,
    control: TaskPort<N>,
    logger: TaskPort<N>,
    first: Diary,
    second: Diary,
) -> Asked<N>
    requires control { control.lock ≡ die.now }
    requires logger { logger.lock ≡ die.now }
    ensures control { result.0.0.lock ≡ die.now }
    ensures logger { result.1.0.lock ≡ die.now }
{
    thread::join(
        rt,
        || -> (TaskPort<N>, Diary)
            requires { control.lock ≡ die.now }
            ensures { result.0.lock ≡ die.entry.now }
        { run_task(rt, die, control, &CONTROL_TASK, first) },
        || -> (TaskPort<N>, Diary)
            requires { logger.lock ≡ die.now }
            ensures { result.0.lock ≡ die.entry.now }
        { run_task(rt, die, logger, &LOGGER_TASK, second) },
    )
}

/// What the timer and both tasks give back.
type Ran<N> = ((ClockPort<N>, Ticked), Asked<N>);

/// The timer beside both tasks, in a thread.
fn run_beside<N: Nand + Send, R: Clock + Threads + Wait + Sync>(
    rt: &R,
    die: &SharedPlannedDie<N>,
    timer: ClockPort<N>,
    control: TaskPort<N>,
    logger: TaskPort<N>,
    diaries: Diaries,
) -> Ran<N>
    requires timer { timer.lock ≡ die.now }
    requires control { control.lock ≡ die.now }
    requires logger { logger.lock ≡ die.now }
    ensures timer { result.0.0.lock ≡ die.now }
    ensures control { result.1.0.0.lock ≡ die.now }
    ensures logger { result.1.1.0.lock ≡ die.now }
{
    let Diaries {
        ticked,
        control: first,
        logger: second,
    } = diaries;
    let have_ended = AtomicBool::new(false);
    let have_ended = &have_ended;
    thread::join(
        rt,
        || -> (ClockPort<N>, Ticked)
            requires { timer.lock ≡ die.now }
            ensures { result.0.lock ≡ die.entry.now }
        { run_timer(rt, die, timer, ticked, have_ended) },
        || -> Asked<N>
            requires { (control.lock ≡ die.now) × (logger.lock ≡ die.now) }
            ensures { (result.0.0.lock ≡ die.entry.now) × (result.1.0.lock ≡ die.entry.now) }
        {
            let asked = run_tasks(rt, die, control, logger, first, second);
            have_ended.store(true, Ordering::SeqCst);
            asked
        },
    )
}

/// All threads of a die, with the babbler's.
fn run_threads<N: Nand + Send, R: Clock + Threads + Wait + Sync>(
    rt: &R,
    die: &SharedPlannedDie<N>,
    ports: Ports<N>,
    diaries: Diaries,
) -> (Ports<N>, Reported)
    requires timer { ports.timer.lock ≡ die.now }
    requires control { ports.control.lock ≡ die.now }
    requires logger { ports.logger.lock ≡ die.now }
    requires babbler { ports.babbler.lock ≡ die.now }
    ensures timer { result.0.timer.lock ≡ die.now }
    ensures control { result.0.control.lock ≡ die.now }
    ensures logger { result.0.logger.lock ≡ die.now }
    ensures babbler { result.0.babbler.lock ≡ die.now }
{
    let Ports {
        timer,
        control,
        logger,
        babbler,
    } = ports;
    let is_last = AtomicBool::new(false);
    let is_last = &is_last;
    let ((babbler, heard), ((timer, ticked), ((control, first), (logger, second)))) = thread::join(
        rt,
        || -> (TaskPort<N>, Answers)
            requires { babbler.lock ≡ die.now }
            ensures { result.0.lock ≡ die.entry.now }
        { run_babbler(rt, die, babbler, is_last) },
        || -> Ran<N>
            requires { (timer.lock ≡ die.now) × (control.lock ≡ die.now) × (logger.lock ≡ die.now) }
            ensures { (result.0.0.lock ≡ die.entry.now) × (result.1.0.0.lock ≡ die.entry.now)
                × (result.1.1.0.lock ≡ die.entry.now) }
        {
            let ran = run_beside(rt, die, timer, control, logger, diaries);
            is_last.store(true, Ordering::SeqCst);
            ran
        },
    );
    let ports = Ports {
        timer,
        control,
        logger,
        babbler,
    };
    let reported = Reported {
        ticked,
        control: first,
        logger: second,
        babbler: heard,
    };
    (ports, reported)
}

/// Opens a die, runs its threads, and closes it.
pub(crate) fn run_die<N: Nand + Send, R: Clock + Threads + Wait + Sync>(
    rt: &R,
    alloc: Global,
    die: Box<OutcomeDie<N>>,
) -> Result<(Box<OutcomeDie<N>>, Reported), Stop> {
    let diaries = Diaries::new(alloc, die.die().die().life())?;
    let Shared { die, ports, list } = opened(rt, alloc, die, &OWN_PAGES)?;
    let (mut ports, mut reported) = run_threads(rt, &die, ports, diaries);
    take_outcomes(
        rt,
        &die,
        &mut ports.control,
        &CONTROL_TASK,
        &mut reported.control,
    );
    take_outcomes(
        rt,
        &die,
        &mut ports.logger,
        &LOGGER_TASK,
        &mut reported.logger,
    );
    let die = closed(rt, alloc, Shared { die, ports, list })?;
    Ok((die, reported))
}
