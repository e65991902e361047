//! A task that asks as fast as it can.

ghost use Rattle.std.specs.Prelude.{◌≡◌};

use crate::answers::{Answers, NONE_YET};
use flash_die::Nand;
use planned_ports::{SharedPlannedDie, TaskPort};
use slot_types::Op;
use std::sync::Wait;
use std::sync::atomic::{AtomicBool, Ordering};
use std::thread;

/// All that it may ask for in 32 slots.
const READ: [Op; 1] = [Op::Read(0)];

/// Asks once, and looks at nothing that it is answered.
fn ask_once<N: Nand, R: Wait>(
    rt: &R,
    die: &SharedPlannedDie<N>,
    port: &mut TaskPort<N>,
    answers: &mut Answers,
)
    requires { port.old.lock ≡ die.now }
    ensures { port.new.lock ≡ die.now }
{
    let answer = port.ask(rt, die, &READ);
    answers.note(&answer);
    // Else, where there are fewer processors than threads, it would mostly be suspended while it has the die.
    thread::yield_now();
}

/// The babbler's thread: it asks until all others have ended, and then twice more, or until the die takes no more. The
/// second of those asks comes in the slot of the first one, and so too soon.
pub(crate) fn run_babbler<N: Nand, R: Wait>(
    rt: &R,
    die: &SharedPlannedDie<N>,
    port: TaskPort<N>,
    is_last: &AtomicBool,
) -> (TaskPort<N>, Answers)
    requires { port.lock ≡ die.now }
    ensures { result.0.lock ≡ die.now }
{
    let (mut port, mut answers) = (port, NONE_YET);
    for _ in 0..u64::MAX {
        let is_over = is_last.load(Ordering::SeqCst);
        ask_once(rt, die, &mut port, &mut answers);
        ask_once(rt, die, &mut port, &mut answers);
        if is_over || answers.end.is_some() {
            break;
        }
    }
    (port, answers)
}
