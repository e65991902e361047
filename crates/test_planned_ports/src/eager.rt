//! A task that asks as soon as its plan lets it, and looks at the clock meanwhile. It waits for nobody, and nobody for it.

ghost use Rattle.std.specs.Prelude.{◌≡◌};

use crate::plans::Plan;
use demand_rules::TaskTerms;
use flash_die::Nand;
use ongoing_die::Taken;
use planned_ports::{AskRefused, SharedPlannedDie, TaskPort};
use slot_types::Op;
use std::sync::Wait;
use std::thread;

/// What such a task may ask for, and does: once in each period, `asks` times.
#[derive(Clone, Copy, Drop)]
pub(crate) struct Eager {
    pub(crate) terms: TaskTerms,
    pub(crate) ops: &'static [Op],
    pub(crate) asks: u32,
}

/// How often it was answered how.
#[derive(Clone, Copy, PartialEq, Eq, Debug, Drop)]
pub(crate) struct Answered {
    /// As the rules say: the ask is taken, and due as many slots after its release as the plan says.
    pub(crate) in_time: u32,
    pub(crate) otherwise: u32,
}

const NOTHING: Answered = Answered {
    in_time: 0,
    otherwise: 0,
};

/// When a job was released that was asked for in this slot or later, and is due `deadline` slots after its release, as
/// the rules say: at once, where that is in the life, or else in the first slot of the next one.
fn release_of(
    answer: Result<Taken, AskRefused>,
    slot: u64,
    plan: &Plan,
    own: &Eager,
) -> Option<u64> {
    let deadline = u64::from(own.terms.deadline);
    let (release, due, fits) = match answer {
        Ok(Taken::Enters { release, due, .. }) => {
            let end = plan.slot_in_life(release).saturating_add(deadline);
            (release, due, end <= u64::from(plan.life))
        }
        Ok(Taken::Waits { release, due }) => (release, due, plan.slot_in_life(release) == 0),
        Err(_) => return None,
    };
    if fits && slot <= release && due == release.saturating_add(deadline) {
        Some(release)
    } else {
        None
    }
}

impl Answered {
    /// Notes an answer to an ask that was made in this slot or later. It answers when the task may ask again.
    fn note(
        &mut self,
        answer: Result<Taken, AskRefused>,
        slot: u64,
        plan: &Plan,
        own: &Eager,
    ) -> u64 {
        match release_of(answer, slot, plan, own) {
            Some(release) => {
                self.in_time = self.in_time.saturating_add(1);
                release.saturating_add(u64::from(own.terms.period))
            }
            None => {
                self.otherwise = self.otherwise.saturating_add(1);
                slot
            }
        }
    }
}

/// Asks, where the clock has come to this slot. It answers from which one on the task may ask then.
fn ask_from<N: Nand, R: Wait>(
    rt: &R,
    die: &SharedPlannedDie<N>,
    port: &mut TaskPort<N>,
    plan: &Plan,
    own: &Eager,
    from: u64,
    answered: &mut Answered,
) -> u64
    requires { port.old.lock ≡ die.now }
    ensures { port.new.lock ≡ die.now }
{
    match port.clock(rt, die) {
        Some(slot) if slot < from => {
            thread::yield_now();
            from
        }
        Some(slot) => {
            let answer = port.ask_all(rt, die, own.ops);
            answered.note(answer, slot, plan, own)
        }
        None => {
            answered.otherwise = answered.otherwise.saturating_add(1);
            from
        }
    }
}

/// Asks as often as it is to.
pub(crate) fn ask_eagerly<N: Nand, R: Wait>(
    rt: &R,
    die: &SharedPlannedDie<N>,
    port: TaskPort<N>,
    plan: &Plan,
    own: &Eager,
) -> (TaskPort<N>, Answered)
    requires { port.lock ≡ die.now }
    ensures { result.0.lock ≡ die.now }
{
    let (mut port, mut answered) = (port, NOTHING);
    let mut from = 0u64;
    for _ in 0..u64::MAX {
        if answered.in_time.saturating_add(answered.otherwise) >= own.asks {
            break;
        }
        from = ask_from(rt, die, &mut port, plan, own, from, &mut answered);
    }
    (port, answered)
}
