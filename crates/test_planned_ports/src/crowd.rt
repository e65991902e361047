//! Threads at the ports of one die, of which none waits for another: a clock, two tasks and a babbler.

ghost use Rattle.std.specs.Prelude.{◌≡◌};

use crate::babblers::{Babble, babble_on};
use crate::clocks::tick_on;
use crate::eager::{Answered, Eager, ask_eagerly};
use crate::plans::Plan;
use flash_die::Nand;
use planned_ports::{ClockPort, SharedPlannedDie, TaskPort};
use std::sync::Wait;
use std::sync::atomic::{AtomicBool, Ordering};
use std::thread;
use std::thread::Threads;

/// Two tasks, each of which has its own part of the plan.
#[derive(Clone, Copy, Drop)]
pub(crate) struct Crowd {
    pub(crate) plan: Plan,
    pub(crate) first: Eager,
    pub(crate) second: Eager,
}

/// What such threads tell.
#[derive(Clone, Copy, Drop)]
pub(crate) struct CrowdTold {
    pub(crate) carried: u32,
    pub(crate) first: Answered,
    pub(crate) second: Answered,
    pub(crate) babble: Babble,
}

/// The ports of three tasks and the clock.
#[derive(Drop)]
pub(crate) struct CrowdPorts<N: Nand> {
    pub(crate) clock: ClockPort<N>,
    pub(crate) first: TaskPort<N>,
    pub(crate) second: TaskPort<N>,
    pub(crate) babbler: TaskPort<N>,
}

/// A thread for each of two tasks.
fn two_tasks<N: Nand + Send, R: Threads + Wait + Sync>(
    rt: &R,
    die: &SharedPlannedDie<N>,
    first: TaskPort<N>,
    second: TaskPort<N>,
    crowd: &Crowd,
) -> ((TaskPort<N>, Answered), (TaskPort<N>, Answered))
    requires first { first.lock ≡ die.now }
    requires second { second.lock ≡ die.now }
    ensures first { result.0.0.lock ≡ die.now }
    ensures second { result.1.0.lock ≡ die.now }
{
    thread::join(
        rt,
        || -> (TaskPort<N>, Answered)
            requires { first.lock ≡ die.now }
            ensures { result.0.lock ≡ die.entry.now }
        { ask_eagerly(rt, die, first, &crowd.plan, &crowd.first) },
        || -> (TaskPort<N>, Answered)
            requires { second.lock ≡ die.now }
            ensures { result.0.lock ≡ die.entry.now }
        { ask_eagerly(rt, die, second, &crowd.plan, &crowd.second) },
    )
}

/// What the clock and two tasks give back.
type Ticked<N> = (
    (ClockPort<N>, u32),
    ((TaskPort<N>, Answered), (TaskPort<N>, Answered)),
);

/// The clock beside two tasks: it goes on until both have ended.
fn tick_beside<N: Nand + Send, R: Threads + Wait + Sync>(
    rt: &R,
    die: &SharedPlannedDie<N>,
    clock: ClockPort<N>,
    first: TaskPort<N>,
    second: TaskPort<N>,
    crowd: &Crowd,
    stop: &AtomicBool,
) -> Ticked<N>
    requires clock { clock.lock ≡ die.now }
    requires first { first.lock ≡ die.now }
    requires second { second.lock ≡ die.now }
    ensures clock { result.0.0.lock ≡ die.now }
    ensures first { result.1.0.0.lock ≡ die.now }
    ensures second { result.1.1.0.lock ≡ die.now }
{
    thread::join(
        rt,
        || -> (ClockPort<N>, u32)
            requires { clock.lock ≡ die.now }
            ensures { result.0.lock ≡ die.entry.now }
        { tick_on(rt, die, clock, stop) },
        || -> ((TaskPort<N>, Answered), (TaskPort<N>, Answered))
            requires { (first.lock ≡ die.now) × (second.lock ≡ die.now) }
            ensures { (result.0.0.lock ≡ die.entry.now) × (result.1.0.lock ≡ die.entry.now) }
        {
            let told = two_tasks(rt, die, first, second, crowd);
            stop.store(true, Ordering::SeqCst);
            told
        },
    )
}

/// All of them, each in a thread of its own, until both tasks have ended.
pub(crate) fn run_crowd<N: Nand + Send, R: Threads + Wait + Sync>(
    rt: &R,
    die: &SharedPlannedDie<N>,
    ports: CrowdPorts<N>,
    crowd: &Crowd,
) -> (CrowdPorts<N>, CrowdTold)
    requires clock { ports.clock.lock ≡ die.now }
    requires first { ports.first.lock ≡ die.now }
    requires second { ports.second.lock ≡ die.now }
    requires babbler { ports.babbler.lock ≡ die.now }
    ensures clock { result.0.clock.lock ≡ die.now }
    ensures first { result.0.first.lock ≡ die.now }
    ensures second { result.0.second.lock ≡ die.now }
    ensures babbler { result.0.babbler.lock ≡ die.now }
{
    let CrowdPorts {
        clock,
        first,
        second,
        babbler,
    } = ports;
    let stop = AtomicBool::new(false);
    let stop_ref = &stop;
    let ((babbler, babble), ((clock, carried), ((first, one), (second, other)))) = thread::join(
        rt,
        || -> (TaskPort<N>, Babble)
            requires { babbler.lock ≡ die.now }
            ensures { result.0.lock ≡ die.entry.now }
        { babble_on(rt, die, babbler, &crowd.plan, stop_ref) },
        || -> Ticked<N>
            requires { (clock.lock ≡ die.now) × (first.lock ≡ die.now) × (second.lock ≡ die.now) }
            ensures { (result.0.0.lock ≡ die.entry.now) × (result.1.0.0.lock ≡ die.entry.now)
                × (result.1.1.0.lock ≡ die.entry.now) }
        { tick_beside(rt, die, clock, first, second, crowd, stop_ref) },
    );
    let ports = CrowdPorts {
        clock,
        first,
        second,
        babbler,
    };
    let told = CrowdTold {
        carried,
        first: one,
        second: other,
        babble,
    };
    (ports, told)
}
