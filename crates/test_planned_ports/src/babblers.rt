//! The babbler: it asks as fast as it can, for as much as it may have in a period and for more than it ever may.

ghost use Rattle.std.specs.Prelude.{◌≡◌};

use crate::plans::Plan;
use flash_die::Nand;
use ongoing_die::{AskRefusal, AskStop, Taken};
use planned_ports::{AskRefused, SharedPlannedDie, TaskPort};
use std::sync::Wait;
use std::sync::atomic::{AtomicBool, Ordering};

/// How often the babbler was answered how.
#[derive(Clone, Copy, PartialEq, Eq, Debug, Drop)]
pub(crate) struct Babble {
    pub(crate) granted: u32,
    pub(crate) too_soon: u32,
    /// An ask of it waited for the next life already.
    pub(crate) waits_already: u32,
    /// Any other refusal of what it may ask for now and then.
    pub(crate) other: u32,
    /// What is more than it ever may was answered otherwise than `TooManyOps`.
    pub(crate) odd: u32,
}

pub(crate) const SILENCE: Babble = Babble {
    granted: 0,
    too_soon: 0,
    waits_already: 0,
    other: 0,
    odd: 0,
};

impl Babble {
    fn note_all(&mut self, answer: Result<Taken, AskRefused>) {
        match answer {
            Ok(_) => self.granted = self.granted.saturating_add(1),
            Err(AskRefused::Die(AskStop::Plan(AskRefusal::TooSoon { .. }))) => {
                self.too_soon = self.too_soon.saturating_add(1)
            }
            Err(AskRefused::Die(AskStop::WaitsAlready)) => {
                self.waits_already = self.waits_already.saturating_add(1)
            }
            Err(_) => self.other = self.other.saturating_add(1),
        }
    }

    fn note_more(&mut self, answer: Result<Taken, AskRefused>) {
        match answer {
            Err(AskRefused::Die(AskStop::Plan(AskRefusal::TooManyOps { .. }))) => {}
            _ => self.odd = self.odd.saturating_add(1),
        }
    }
}

/// Asks for too much, as one job and as a burst, and then for a burst of all that it may have.
pub(crate) fn babble_once<N: Nand, R: Wait>(
    rt: &R,
    die: &SharedPlannedDie<N>,
    port: &mut TaskPort<N>,
    plan: &Plan,
    babble: &mut Babble,
)
    requires { port.old.lock ≡ die.now }
    ensures { port.new.lock ≡ die.now }
{
    babble.note_more(port.ask(rt, die, plan.more));
    babble.note_more(port.ask_all(rt, die, plan.more));
    babble.note_all(port.ask_all(rt, die, plan.all));
}

/// Asks until it is told to stop.
pub(crate) fn babble_on<N: Nand, R: Wait>(
    rt: &R,
    die: &SharedPlannedDie<N>,
    port: TaskPort<N>,
    plan: &Plan,
    stop: &AtomicBool,
) -> (TaskPort<N>, Babble)
    requires { port.lock ≡ die.now }
    ensures { result.0.lock ≡ die.now }
{
    let (mut port, mut babble) = (port, SILENCE);
    for _ in 0..u64::MAX {
        if stop.load(Ordering::SeqCst) {
            break;
        }
        babble_once(rt, die, &mut port, plan, &mut babble);
    }
    (port, babble)
}
