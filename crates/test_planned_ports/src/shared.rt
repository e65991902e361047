//! A die that is opened for its two tasks and the clock, and closed again.

ghost use Rattle.std.specs.Prelude.{◌≡◌, All, IfOk, IfSome};

use crate::dies::{boxed, or_wrong};
use crate::ports::{put_last, take_last};
use crate::wrong::Wrong;
use flash_die::Nand;
use planned_ports::{ClockPort, Opened, PageRange, SharedPlannedDie, TaskPort, close, open};
use std::alloc::Global;
use std::sync::Wait;
use task_outcomes::OutcomeDie;

/// The ports of a die with two tasks.
#[derive(Drop)]
pub(crate) struct Ports<N: Nand> {
    pub(crate) clock: ClockPort<N>,
    pub(crate) first: TaskPort<N>,
    pub(crate) second: TaskPort<N>,
}

/// Such a die with its ports.
#[derive(Drop)]
pub(crate) struct Shared<N: Nand> {
    pub(crate) die: SharedPlannedDie<N>,
    pub(crate) ports: Ports<N>,
    /// Where the tasks' ports were, and will be.
    pub(crate) list: Vec<TaskPort<N>>,
}

/// Takes the two ports out of their list. None where there are fewer.
fn of_two<N: Nand>(opened: Opened<N>) -> Option<Shared<N>>
    requires clock { opened.clock.lock ≡ opened.die }
    requires tasks { All (λ port. port.lock ≡ opened.die) opened.tasks.items }
    ensures clock { IfSome result (λ s. s.ports.clock.lock ≡ s.die) }
    ensures first { IfSome result (λ s. s.ports.first.lock ≡ s.die) }
    ensures second { IfSome result (λ s. s.ports.second.lock ≡ s.die) }
    ensures list { IfSome result (λ s. All (λ port. port.lock ≡ s.die) s.list.items) }
{
    let Opened {
        die,
        clock,
        tasks: mut list,
    } = opened;
    let second = take_last(&die, &mut list)?;
    let first = take_last(&die, &mut list)?;
    let ports = Ports {
        clock,
        first,
        second,
    };
    Some(Shared { die, ports, list })
}

/// Opens a die with two tasks.
pub(crate) fn open_two<N: Nand, R: Wait>(
    rt: &R,
    alloc: Global,
    die: Box<OutcomeDie<N>>,
    ranges: &[Option<PageRange>],
) -> Result<Shared<N>, Wrong>
    ensures clock { IfOk result (λ s. s.ports.clock.lock ≡ s.die) }
    ensures first { IfOk result (λ s. s.ports.first.lock ≡ s.die) }
    ensures second { IfOk result (λ s. s.ports.second.lock ≡ s.die) }
    ensures list { IfOk result (λ s. All (λ port. port.lock ≡ s.die) s.list.items) }
{
    let opened = or_wrong(
        open(rt, alloc, Box::into_inner(die), ranges),
        Wrong::NotOpened,
    )?;
    match of_two(opened) {
        Some(shared) => Ok(shared),
        None => Err(Wrong::NoPort),
    }
}

/// Ends the sharing of a die with all its ports.
pub(crate) fn close_all<N: Nand, R: Wait>(
    rt: &R,
    alloc: Global,
    die: SharedPlannedDie<N>,
    clock: ClockPort<N>,
    list: Vec<TaskPort<N>>,
) -> Result<Box<OutcomeDie<N>>, Wrong>
    requires clock { clock.lock ≡ die }
    requires list { All (λ port. port.lock ≡ die) list.items }
{
    match close(rt, die, clock, list) {
        Ok(die) => boxed(alloc, die),
        Err(kept) => Err(Wrong::NotClosed(kept.refusal)),
    }
}

/// Puts the ports of both tasks back and ends the sharing. Where there is no memory for a port in their list, it isn't
/// closed, since a port is missing.
pub(crate) fn close_two<N: Nand, R: Wait>(
    rt: &R,
    alloc: Global,
    shared: Shared<N>,
) -> Result<Box<OutcomeDie<N>>, Wrong>
    requires clock { shared.ports.clock.lock ≡ shared.die }
    requires first { shared.ports.first.lock ≡ shared.die }
    requires second { shared.ports.second.lock ≡ shared.die }
    requires list { All (λ port. port.lock ≡ shared.die) shared.list.items }
{
    let Shared {
        die,
        ports,
        mut list,
    } = shared;
    let Ports {
        clock,
        first,
        second,
    } = ports;
    put_last(&die, &mut list, first);
    put_last(&die, &mut list, second);
    close_all(rt, alloc, die, clock, list)
}
