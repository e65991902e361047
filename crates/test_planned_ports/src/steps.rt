//! Plays a table at the ports of both tasks and the clock.

ghost use Rattle.std.specs.Prelude.{◌≡◌};

use crate::clocks::carry;
use crate::heard::{Heard, Told, as_heard, as_heard_at, as_told};
use crate::shared::{Ports, close_two, open_two};
use crate::wrong::Wrong;
use flash_die::Nand;
use planned_ports::{PageRange, SharedPlannedDie, TaskPort};
use slot_types::Op;
use std::alloc::Global;
use std::sync::Wait;
use task_outcomes::OutcomeDie;

/// Which of the two tasks.
#[derive(Clone, Copy, Drop)]
pub(crate) enum Task {
    First,
    Second,
}

/// A step of a table. A `want` is what the port is answered.
#[derive(Drop)]
pub(crate) enum Step {
    /// A task asks for a job.
    Asks {
        task: Task,
        ops: &'static [Op],
        want: Heard,
    },
    /// A task asks for a burst.
    AsksAll {
        task: Task,
        ops: &'static [Op],
        want: Heard,
    },
    /// A task asks for a job that is released in this slot of the clock.
    AsksAt {
        task: Task,
        ops: &'static [Op],
        at: u64,
        want: Heard,
    },
    /// A task asks for a burst that is released in this slot of the clock.
    AsksAllAt {
        task: Task,
        ops: &'static [Op],
        at: u64,
        want: Heard,
    },
    /// `count` slots are carried out.
    Slots {
        count: u32,
    },
    /// A task takes its first outcome.
    Takes {
        task: Task,
        want: Option<Told>,
    },
    /// So many outcomes a task has to take, and so many of its were dropped.
    Counts {
        task: Task,
        kept: u64,
        dropped: u64,
    },
}

/// What a port is asked for: a job or a burst, and for which slot of the clock; none is the present one.
#[derive(Clone, Copy, Drop)]
struct Asked {
    is_burst: bool,
    at: Option<u64>,
}

const JOB: Asked = Asked {
    is_burst: false,
    at: None,
};

const BURST: Asked = Asked {
    is_burst: true,
    at: None,
};

/// The same for this slot of the clock.
fn ahead(asked: Asked, at: u64) -> Asked {
    Asked {
        is_burst: asked.is_burst,
        at: Some(at),
    }
}

/// What this port is answered.
fn answered<N: Nand, R: Wait>(
    rt: &R,
    die: &SharedPlannedDie<N>,
    port: &mut TaskPort<N>,
    asked: Asked,
    ops: &[Op],
) -> Heard
    requires { port.old.lock ≡ die.now }
    ensures { port.new.lock ≡ die.now }
{
    match (asked.is_burst, asked.at) {
        (false, None) => as_heard(port.ask(rt, die, ops)),
        (true, None) => as_heard(port.ask_all(rt, die, ops)),
        (false, Some(at)) => as_heard_at(port.ask_at(rt, die, ops, at)),
        (true, Some(at)) => as_heard_at(port.ask_all_at(rt, die, ops, at)),
    }
}

/// What the port of this task is.
fn hears<N: Nand, R: Wait>(
    rt: &R,
    die: &SharedPlannedDie<N>,
    ports: &mut Ports<N>,
    task: Task,
    asked: Asked,
    ops: &[Op],
) -> Heard
    requires clock { ports.old.clock.lock ≡ die.now }
    requires first { ports.old.first.lock ≡ die.now }
    requires second { ports.old.second.lock ≡ die.now }
    ensures clock { ports.new.clock.lock ≡ die.now }
    ensures first { ports.new.first.lock ≡ die.now }
    ensures second { ports.new.second.lock ≡ die.now }
{
    match task {
        Task::First => answered(rt, die, &mut ports.first, asked, ops),
        Task::Second => answered(rt, die, &mut ports.second, asked, ops),
    }
}

/// What this port takes.
fn taken<N: Nand, R: Wait>(
    rt: &R,
    die: &SharedPlannedDie<N>,
    port: &mut TaskPort<N>,
) -> Option<Told>
    requires { port.old.lock ≡ die.now }
    ensures { port.new.lock ≡ die.now }
{
    as_told(port.take_outcome(rt, die))
}

/// What the port of this task takes.
fn takes<N: Nand, R: Wait>(
    rt: &R,
    die: &SharedPlannedDie<N>,
    ports: &mut Ports<N>,
    task: Task,
) -> Option<Told>
    requires clock { ports.old.clock.lock ≡ die.now }
    requires first { ports.old.first.lock ≡ die.now }
    requires second { ports.old.second.lock ≡ die.now }
    ensures clock { ports.new.clock.lock ≡ die.now }
    ensures first { ports.new.first.lock ≡ die.now }
    ensures second { ports.new.second.lock ≡ die.now }
{
    match task {
        Task::First => taken(rt, die, &mut ports.first),
        Task::Second => taken(rt, die, &mut ports.second),
    }
}

/// How many outcomes this port has to take, and how many were dropped.
fn counted<N: Nand, R: Wait>(rt: &R, die: &SharedPlannedDie<N>, port: &mut TaskPort<N>) -> [u64; 2]
    requires { port.old.lock ≡ die.now }
    ensures { port.new.lock ≡ die.now }
{
    let kept = port.outcomes(rt, die);
    [kept, port.dropped_outcomes(rt, die)]
}

/// How many outcomes the port of this task has to take, and how many were dropped.
fn counts<N: Nand, R: Wait>(
    rt: &R,
    die: &SharedPlannedDie<N>,
    ports: &mut Ports<N>,
    task: Task,
) -> [u64; 2]
    requires clock { ports.old.clock.lock ≡ die.now }
    requires first { ports.old.first.lock ≡ die.now }
    requires second { ports.old.second.lock ≡ die.now }
    ensures clock { ports.new.clock.lock ≡ die.now }
    ensures first { ports.new.first.lock ≡ die.now }
    ensures second { ports.new.second.lock ≡ die.now }
{
    match task {
        Task::First => counted(rt, die, &mut ports.first),
        Task::Second => counted(rt, die, &mut ports.second),
    }
}

/// Plays a step. It answers whether it went as it says.
fn goes<N: Nand, R: Wait>(
    rt: &R,
    die: &SharedPlannedDie<N>,
    ports: &mut Ports<N>,
    step: &Step,
) -> bool
    requires clock { ports.old.clock.lock ≡ die.now }
    requires first { ports.old.first.lock ≡ die.now }
    requires second { ports.old.second.lock ≡ die.now }
    ensures clock { ports.new.clock.lock ≡ die.now }
    ensures first { ports.new.first.lock ≡ die.now }
    ensures second { ports.new.second.lock ≡ die.now }
{
    match step {
        Step::Asks { task, ops, want } => hears(rt, die, ports, *task, JOB, *ops) == *want,
        Step::AsksAll { task, ops, want } => hears(rt, die, ports, *task, BURST, *ops) == *want,
        Step::AsksAt {
            task,
            ops,
            at,
            want,
        } => hears(rt, die, ports, *task, ahead(JOB, *at), *ops) == *want,
        Step::AsksAllAt {
            task,
            ops,
            at,
            want,
        } => hears(rt, die, ports, *task, ahead(BURST, *at), *ops) == *want,
        Step::Slots { count } => carry(rt, die, &mut ports.clock, *count) == *count,
        Step::Takes { task, want } => takes(rt, die, ports, *task) == *want,
        Step::Counts {
            task,
            kept,
            dropped,
        } => counts(rt, die, ports, *task) == [*kept, *dropped],
    }
}

/// Plays all steps, up to the first that goes otherwise.
fn play<N: Nand, R: Wait>(
    rt: &R,
    die: &SharedPlannedDie<N>,
    ports: &mut Ports<N>,
    steps: &[Step],
) -> Result<(), Wrong>
    requires clock { ports.old.clock.lock ≡ die.now }
    requires first { ports.old.first.lock ≡ die.now }
    requires second { ports.old.second.lock ≡ die.now }
    ensures clock { ports.new.clock.lock ≡ die.now }
    ensures first { ports.new.first.lock ≡ die.now }
    ensures second { ports.new.second.lock ≡ die.now }
{
    let mut place = 0usize;
    for step in steps {
        place = place.saturating_add(1);
        if !goes(rt, die, ports, step) {
            return Err(Wrong::Step { step: place });
        }
    }
    Ok(())
}

/// Opens a die, plays the steps at its ports, and closes it.
pub(crate) fn plays<N: Nand, R: Wait>(
    rt: &R,
    alloc: Global,
    die: Box<OutcomeDie<N>>,
    ranges: &[Option<PageRange>],
    steps: &[Step],
) -> Result<Box<OutcomeDie<N>>, Wrong> {
    let mut shared = open_two(rt, alloc, die, ranges)?;
    let played = play(rt, &shared.die, &mut shared.ports, steps);
    let closed = close_two(rt, alloc, shared);
    played?;
    closed
}
