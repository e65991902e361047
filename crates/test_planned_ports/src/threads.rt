//! Threads at the ports of one die: the clock and the careful task in step, and beside them the babbler.

ghost use Rattle.std.specs.Prelude.{◌≡◌};

use crate::babblers::{Babble, SILENCE, babble_on};
use crate::careful::ask_in_turn;
use crate::clocks::tick;
use crate::heard::Heard;
use crate::plans::Plan;
use crate::shared::Ports;
use flash_die::Nand;
use planned_ports::{ClockPort, SharedPlannedDie, TaskPort};
use std::sync::atomic::{AtomicBool, Ordering};
use std::sync::{Barrier, Wait};
use std::thread;
use std::thread::Threads;

/// What the threads tell.
#[derive(Drop)]
pub(crate) struct Told {
    /// How many slots were carried out.
    pub(crate) carried: u32,
    /// What the careful task heard.
    pub(crate) heard: Vec<Heard>,
    pub(crate) babble: Babble,
}

/// A thread for the clock, and this one for the careful task: it asks in `slots` slots, before each is carried out.
fn in_step<N: Nand + Send, R: Threads + Wait + Sync>(
    rt: &R,
    die: &SharedPlannedDie<N>,
    clock: ClockPort<N>,
    careful: TaskPort<N>,
    slots: u32,
    notes: Vec<Heard>,
) -> ((ClockPort<N>, u32), (TaskPort<N>, Vec<Heard>))
    requires clock { clock.lock ≡ die.now }
    requires careful { careful.lock ≡ die.now }
    ensures clock { result.0.0.lock ≡ die.now }
    ensures careful { result.1.0.lock ≡ die.now }
{
    let gate = Barrier::new(2);
    let gate_ref = &gate;
    thread::join(
        rt,
        || -> (ClockPort<N>, u32)
            requires { clock.lock ≡ die.now }
            ensures { result.0.lock ≡ die.entry.now }
        { tick(rt, die, clock, slots, gate_ref) },
        || -> (TaskPort<N>, Vec<Heard>)
            requires { careful.lock ≡ die.now }
            ensures { result.0.lock ≡ die.entry.now }
        { ask_in_turn(rt, die, careful, slots, gate_ref, notes) },
    )
}

/// Without a babbler.
pub(crate) fn alone<N: Nand + Send, R: Threads + Wait + Sync>(
    rt: &R,
    die: &SharedPlannedDie<N>,
    ports: Ports<N>,
    slots: u32,
    notes: Vec<Heard>,
) -> (Ports<N>, Told)
    requires clock { ports.clock.lock ≡ die.now }
    requires first { ports.first.lock ≡ die.now }
    requires second { ports.second.lock ≡ die.now }
    ensures clock { result.0.clock.lock ≡ die.now }
    ensures first { result.0.first.lock ≡ die.now }
    ensures second { result.0.second.lock ≡ die.now }
{
    let Ports {
        clock,
        first,
        second,
    } = ports;
    let ((clock, carried), (first, heard)) = in_step(rt, die, clock, first, slots, notes);
    let ports = Ports {
        clock,
        first,
        second,
    };
    let told = Told {
        carried,
        heard,
        babble: SILENCE,
    };
    (ports, told)
}

/// Beside a babbler in a thread of its own.
pub(crate) fn beside<N: Nand + Send, R: Threads + Wait + Sync>(
    rt: &R,
    die: &SharedPlannedDie<N>,
    ports: Ports<N>,
    plan: &Plan,
    slots: u32,
    notes: Vec<Heard>,
) -> (Ports<N>, Told)
    requires clock { ports.clock.lock ≡ die.now }
    requires first { ports.first.lock ≡ die.now }
    requires second { ports.second.lock ≡ die.now }
    ensures clock { result.0.clock.lock ≡ die.now }
    ensures first { result.0.first.lock ≡ die.now }
    ensures second { result.0.second.lock ≡ die.now }
{
    let Ports {
        clock,
        first,
        second,
    } = ports;
    let stop = AtomicBool::new(false);
    let stop_ref = &stop;
    let ((second, babble), ((clock, carried), (first, heard))) = thread::join(
        rt,
        || -> (TaskPort<N>, Babble)
            requires { second.lock ≡ die.now }
            ensures { result.0.lock ≡ die.entry.now }
        { babble_on(rt, die, second, plan, stop_ref) },
        || -> ((ClockPort<N>, u32), (TaskPort<N>, Vec<Heard>))
            requires { (clock.lock ≡ die.now) × (first.lock ≡ die.now) }
            ensures { (result.0.0.lock ≡ die.entry.now) × (result.1.0.lock ≡ die.entry.now) }
        {
            let told = in_step(rt, die, clock, first, slots, notes);
            stop_ref.store(true, Ordering::SeqCst);
            told
        },
    );
    let ports = Ports {
        clock,
        first,
        second,
    };
    let told = Told {
        carried,
        heard,
        babble,
    };
    (ports, told)
}
