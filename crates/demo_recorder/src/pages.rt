//! What the pages of a die hold, once it was closed: it is opened again, and read.

ghost use Rattle.std.specs.Prelude.{◌≡◌};

use crate::answers::accepted_in;
use crate::ports::{Shared, closed, opened};
use crate::stops::Stop;
use flash_die::Nand;
use planned_ports::{ClockPort, SharedPlannedDie, TaskPort};
use slot_types::{Op, PageData};
use std::alloc::Global;
use std::sync::Wait;
use task_outcomes::{OutcomeDie, TaskOutcome};

/// A job reads two pages, and is done in as many slots as it may be asked for once.
const SLOTS: u32 = 8;

/// Carries out the slots of a job, as far as the die does.
fn carry<N: Nand, R: Wait>(rt: &R, die: &SharedPlannedDie<N>, timer: &mut ClockPort<N>)
    requires { timer.old.lock ≡ die.now }
    ensures { timer.new.lock ≡ die.now }
{
    for _ in 0..SLOTS {
        let _ = timer.slot(rt, die).is_ok();
    }
}

/// What the two reads of a job gave.
fn given(outcome: &TaskOutcome) -> Option<[PageData; 2]> {
    match (outcome.reads.get(0), outcome.reads.get(1)) {
        (Some(one), Some(other)) => Some([*one, *other]),
        _ => None,
    }
}

/// What the reads gave of the job whose outcome the port takes next.
fn taken<N: Nand, R: Wait>(
    rt: &R,
    die: &SharedPlannedDie<N>,
    port: &mut TaskPort<N>,
) -> Option<[PageData; 2]>
    requires { port.old.lock ≡ die.now }
    ensures { port.new.lock ≡ die.now }
{
    match port.take_outcome(rt, die) {
        Ok(Some(outcome)) => given(&outcome),
        _ => None,
    }
}

/// Asks for two pages, and carries out the slots until they are read. It answers what they hold; none where the job isn't one
/// of the present life, or isn't done.
fn read_two<N: Nand, R: Wait>(
    rt: &R,
    die: &SharedPlannedDie<N>,
    timer: &mut ClockPort<N>,
    port: &mut TaskPort<N>,
    pages: [u32; 2],
) -> Option<[PageData; 2]>
    requires timer { timer.old.lock ≡ die.now }
    requires port { port.old.lock ≡ die.now }
    ensures timer { timer.new.lock ≡ die.now }
    ensures port { port.new.lock ≡ die.now }
{
    let answer = port.ask(rt, die, &[Op::Read(pages[0]), Op::Read(pages[1])]);
    carry(rt, die, timer);
    match accepted_in(answer) {
        Some(accepted) if !accepted.waited => taken(rt, die, port),
        _ => None,
    }
}

/// Opens a die, whose control has taken all its outcomes, reads its six pages through the control's port, which may now use all,
/// and closes it. `NotRead`, where it takes no more jobs, or its life is over before these are done.
pub(crate) fn read_pages<N: Nand, R: Wait>(
    rt: &R,
    alloc: Global,
    die: Box<OutcomeDie<N>>,
) -> Result<[[PageData; 2]; 3], Stop> {
    let Shared {
        die,
        mut ports,
        list,
    } = opened(rt, alloc, die, &[])?;
    let one = read_two(rt, &die, &mut ports.timer, &mut ports.control, [0, 1]);
    let two = read_two(rt, &die, &mut ports.timer, &mut ports.control, [2, 3]);
    let three = read_two(rt, &die, &mut ports.timer, &mut ports.control, [4, 5]);
    let _ = closed(rt, alloc, Shared { die, ports, list })?;
    match (one, two, three) {
        (Some(one), Some(two), Some(three)) => Ok([one, two, three]),
        _ => Err(Stop::NotRead),
    }
}
