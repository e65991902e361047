//! A die that is opened for a run of threads, and closed again; and what they are to have heard.

ghost use Rattle.std.specs.Prelude.{◌≡◌};

use crate::babblers::{Babble, babble_once};
use crate::careful::wanted;
use crate::clocks::carry;
use crate::heard::Heard;
use crate::plans::Plan;
use crate::shared::{Ports, Shared, close_two, open_two};
use crate::threads::{Told, alone, beside};
use crate::wrong::Wrong;
use flash_die::Nand;
use planned_ports::SharedPlannedDie;
use std::alloc::Global;
use std::sync::Wait;
use std::thread::Threads;
use task_outcomes::OutcomeDie;

/// How the threads run.
#[derive(Clone, Copy, Drop)]
pub(crate) struct Run {
    pub(crate) plan: Plan,
    pub(crate) slots: u32,
    /// Beside a babbler.
    pub(crate) is_loud: bool,
    /// How many slots are carried out once the threads have ended.
    pub(crate) rest: u32,
    /// The babbler asks at the end, where no slot is carried out any longer, so that it was refused something.
    pub(crate) at_end: bool,
}

/// Runs the threads, with a babbler's or without.
fn run_threads<N: Nand + Send, R: Threads + Wait + Sync>(
    rt: &R,
    die: &SharedPlannedDie<N>,
    ports: Ports<N>,
    run: &Run,
    notes: Vec<Heard>,
) -> (Ports<N>, Told)
    requires clock { ports.clock.lock ≡ die.now }
    requires first { ports.first.lock ≡ die.now }
    requires second { ports.second.lock ≡ die.now }
    ensures clock { result.0.clock.lock ≡ die.now }
    ensures first { result.0.first.lock ≡ die.now }
    ensures second { result.0.second.lock ≡ die.now }
{
    if run.is_loud {
        return beside(rt, die, ports, &run.plan, run.slots, notes);
    }
    alone(rt, die, ports, run.slots, notes)
}

/// What comes after the threads.
fn end_run<N: Nand, R: Wait>(
    rt: &R,
    die: &SharedPlannedDie<N>,
    ports: &mut Ports<N>,
    run: &Run,
    told: &mut Told,
)
    requires clock { ports.old.clock.lock ≡ die.now }
    requires second { ports.old.second.lock ≡ die.now }
    ensures clock { ports.new.clock.lock ≡ die.now }
    ensures first { ports.new.first ≡ ports.old.first }
    ensures second { ports.new.second.lock ≡ die.now }
{
    let carried = carry(rt, die, &mut ports.clock, run.rest);
    told.carried = told.carried.saturating_add(carried);
    if run.at_end {
        babble_once(rt, die, &mut ports.second, &run.plan, &mut told.babble);
        babble_once(rt, die, &mut ports.second, &run.plan, &mut told.babble);
    }
}

/// Opens a die, runs threads on it, and closes it.
pub(crate) fn run_die<N: Nand + Send, R: Threads + Wait + Sync>(
    rt: &R,
    alloc: Global,
    die: Box<OutcomeDie<N>>,
    run: &Run,
) -> Result<(Box<OutcomeDie<N>>, Told), Wrong> {
    let notes = Vec::with_capacity(alloc, (run.slots / 10) as usize + 1)?;
    let Shared { die, ports, list } = open_two(rt, alloc, die, &[])?;
    let (mut ports, mut told) = run_threads(rt, &die, ports, run, notes);
    end_run(rt, &die, &mut ports, run, &mut told);
    let die = close_two(rt, alloc, Shared { die, ports, list })?;
    Ok((die, told))
}

/// The careful task was answered as the rules say, from a slot of the clock on: each 10 slots, from the fifth on.
fn check_heard(heard: &[Heard], from: u64, run: &Run) -> Result<(), Wrong> {
    let mut slot = from.saturating_add(5);
    let mut ask = 0u32;
    for one in heard {
        if *one != wanted(slot, &run.plan) {
            return Err(Wrong::Heard { ask });
        }
        slot = slot.saturating_add(10);
        ask = ask.saturating_add(1);
    }
    if ask == run.slots.saturating_add(4) / 10 {
        Ok(())
    } else {
        Err(Wrong::Heard { ask })
    }
}

/// What a babbler may ask for now and then was refused for what it asked for before alone.
fn check_babble(babble: Babble) -> Result<(), Wrong> {
    if babble.other == 0 && babble.odd == 0 {
        Ok(())
    } else {
        Err(Wrong::Babble(babble))
    }
}

/// All slots of a run from this slot of the clock on were carried out, and what its tasks heard is right.
pub(crate) fn check_told(told: &Told, from: u64, run: &Run) -> Result<(), Wrong> {
    if told.carried != run.slots.saturating_add(run.rest) {
        return Err(Wrong::Slots);
    }
    check_heard(told.heard.as_slice(), from, run)?;
    check_babble(told.babble)
}
