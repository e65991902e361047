//! A die of the recorder with its ports: opened, and closed again.

ghost use Rattle.std.specs.Prelude.{◌≡◌, All, IfOk, IfSome};

use crate::stops::{Stop, boxed, or_stop};
use flash_die::Nand;
use planned_ports::{ClockPort, Opened, PageRange, SharedPlannedDie, TaskPort, close, open};
use std::alloc::Global;
use std::sync::Wait;
use task_outcomes::OutcomeDie;

/// The ports of a die: one for its timer, and one for each of its tasks.
#[derive(Drop)]
pub(crate) struct Ports<N: Nand> {
    pub(crate) timer: ClockPort<N>,
    pub(crate) control: TaskPort<N>,
    pub(crate) logger: TaskPort<N>,
    pub(crate) babbler: TaskPort<N>,
}

/// A die that is open, with its ports.
#[derive(Drop)]
pub(crate) struct Shared<N: Nand> {
    pub(crate) die: SharedPlannedDie<N>,
    pub(crate) ports: Ports<N>,
    /// The list that the tasks' ports came in, and in which they are given back: so a close takes no memory.
    pub(crate) list: Vec<TaskPort<N>>,
}

/// The last port of the list, if there is one.
fn take_last<N: Nand>(
    die: &SharedPlannedDie<N>,
    ports: &mut Vec<TaskPort<N>>,
) -> Option<TaskPort<N>>
    requires { All (λ port. port.lock ≡ die.now) ports.old.items }
    ensures own { IfSome result (λ port. port.lock ≡ die.now) }
    ensures rest { All (λ port. port.lock ≡ die.now) ports.new.items }
{
    let _ = die;
    ports.pop()
}

/// Puts a port to the end of the list, where there is memory for it.
fn put_last<N: Nand>(die: &SharedPlannedDie<N>, ports: &mut Vec<TaskPort<N>>, port: TaskPort<N>)
    requires ports { All (λ port. port.lock ≡ die.now) ports.old.items }
    requires own { port.lock ≡ die.now }
    ensures { All (λ port. port.lock ≡ die.now) ports.new.items }
{
    let _ = die;
    let _ = ports.push(port).is_ok();
}

/// Takes the ports out of their list. None where there are fewer than three.
fn of_three<N: Nand>(opened: Opened<N>) -> Option<Shared<N>>
    requires clock { opened.clock.lock ≡ opened.die }
    requires tasks { All (λ port. port.lock ≡ opened.die) opened.tasks.items }
    ensures timer { IfSome result (λ s. s.ports.timer.lock ≡ s.die) }
    ensures control { IfSome result (λ s. s.ports.control.lock ≡ s.die) }
    ensures logger { IfSome result (λ s. s.ports.logger.lock ≡ s.die) }
    ensures babbler { IfSome result (λ s. s.ports.babbler.lock ≡ s.die) }
    ensures list { IfSome result (λ s. All (λ port. port.lock ≡ s.die) s.list.items) }
{
    let Opened {
        die,
        clock: timer,
        tasks: mut list,
    } = opened;
    let babbler = take_last(&die, &mut list)?;
    let logger = take_last(&die, &mut list)?;
    let control = take_last(&die, &mut list)?;
    let ports = Ports {
        timer,
        control,
        logger,
        babbler,
    };
    Some(Shared { die, ports, list })
}

/// Opens a die, each of whose tasks has these pages.
pub(crate) fn opened<N: Nand, R: Wait>(
    rt: &R,
    alloc: Global,
    die: Box<OutcomeDie<N>>,
    pages: &[Option<PageRange>],
) -> Result<Shared<N>, Stop>
    ensures timer { IfOk result (λ s. s.ports.timer.lock ≡ s.die) }
    ensures control { IfOk result (λ s. s.ports.control.lock ≡ s.die) }
    ensures logger { IfOk result (λ s. s.ports.logger.lock ≡ s.die) }
    ensures babbler { IfOk result (λ s. s.ports.babbler.lock ≡ s.die) }
    ensures list { IfOk result (λ s. All (λ port. port.lock ≡ s.die) s.list.items) }
{
    let opened = or_stop(
        open(rt, alloc, Box::into_inner(die), pages),
        Stop::NotOpened,
    )?;
    match of_three(opened) {
        Some(shared) => Ok(shared),
        None => Err(Stop::NoPort),
    }
}

/// Closes a die with these ports.
fn close_all<N: Nand, R: Wait>(
    rt: &R,
    alloc: Global,
    die: SharedPlannedDie<N>,
    timer: ClockPort<N>,
    list: Vec<TaskPort<N>>,
) -> Result<Box<OutcomeDie<N>>, Stop>
    requires timer { timer.lock ≡ die }
    requires list { All (λ port. port.lock ≡ die) list.items }
{
    match close(rt, die, timer, list) {
        Ok(die) => boxed(alloc, die),
        Err(kept) => Err(Stop::NotClosed(kept.refusal)),
    }
}

/// Closes a die: all its threads have handed their ports back.
pub(crate) fn closed<N: Nand, R: Wait>(
    rt: &R,
    alloc: Global,
    shared: Shared<N>,
) -> Result<Box<OutcomeDie<N>>, Stop>
    requires timer { shared.ports.timer.lock ≡ shared.die }
    requires control { shared.ports.control.lock ≡ shared.die }
    requires logger { shared.ports.logger.lock ≡ shared.die }
    requires babbler { shared.ports.babbler.lock ≡ shared.die }
    requires list { All (λ port. port.lock ≡ shared.die) shared.list.items }
{
    let Shared {
        die,
        ports,
        mut list,
    } = shared;
    let Ports {
        timer,
        control,
        logger,
        babbler,
    } = ports;
    put_last(&die, &mut list, control);
    put_last(&die, &mut list, logger);
    put_last(&die, &mut list, babbler);
    close_all(rt, alloc, die, timer, list)
}
