//! A die that its ports give back.

ghost use Rattle.std.specs.Prelude.{◌≡◌, [], All, IfOk, IfErr};
ghost use Rattle.planned_ports.specs.Ports.{IsSameClock};
ghost use Rattle.planned_ports.specs.Closing.{IsGivenBack, StaysShared, HaveJoined};

use crate::book::PlannedBook;
use crate::ports::{ClockPort, SharedPlannedDie, TaskPort};
use flash_die::Nand;
use slot_types::Refusal;
use std::sync::Wait;
use task_outcomes::OutcomeDie;
use turn_lock::{Closing, Pass};

/// What a refused [`close`] hands back: the die, and the ports that it was given.
#[derive(Drop)]
pub struct StillOpen<N: Nand> {
    pub die: SharedPlannedDie<N>,
    pub clock: ClockPort<N>,
    pub tasks: Vec<TaskPort<N>>,
    /// `PassesOut`, with how many of its ports are missing.
    pub refusal: Refusal,
}

/// Joins the tasks' passes into the clock's.
fn join_all<N: Nand>(
    die: &SharedPlannedDie<N>,
    pass: &mut Pass<PlannedBook<N>>,
    tasks: &mut Vec<TaskPort<N>>,
)
    requires own { pass.old.lock ≡ die.now }
    requires tasks { All (λ port. port.lock ≡ die.now) tasks.old.items }
    ensures joined { HaveJoined pass.old tasks.old.items pass.new }
    ensures none { tasks.new.items ≡ [] }
{
    let Some(port) = tasks.pop() else {
        return;
    };
    let TaskPort {
        pass: other,
        task: _,
        pages: _,
    } = port;
    die.turned.join_pass(pass, other);
    join_all(die, pass, tasks);
}

/// Ends the sharing of a die, and gives it back as its ports have left it: with what waits for its next life, so that it
/// goes on, and may be opened again. It takes the clock's port and that of each task. May wait for the turn.
///
/// `PassesOut` where ports are missing, with how many: the die and all that was given are handed back. (The ports that are
/// given are joined into the clock's once they are as many as are out. Were one missing still, `tasks` would be empty, and
/// the clock's port stand for them. None is, since `open` alone makes ports; but that isn't proved.)
pub fn close<N: Nand, R: Wait>(
    rt: &R,
    die: SharedPlannedDie<N>,
    clock: ClockPort<N>,
    tasks: Vec<TaskPort<N>>,
) -> Result<OutcomeDie<N>, StillOpen<N>>
    requires clock { clock.lock ≡ die }
    requires tasks { All (λ port. port.lock ≡ die) tasks.items }
    ensures closed { IfOk result (IsGivenBack clock.view tasks.items) }
    ensures back { IfErr result (λ kept. kept.die ≡ die) }
    ensures same { IfErr result (λ kept. IsSameClock clock kept.clock) }
    ensures refused { IfErr result (λ kept.
        StaysShared clock.view tasks.items kept.refusal kept.clock.view kept.tasks.items) }
{
    let ClockPort { mut pass } = clock;
    let mut tasks = tasks;
    // It says, here and below, that no other pass has taken this one in.
    let _ = pass.number();
    let out = die.turned.out(rt, &mut pass);
    if tasks.len() < out as usize {
        let missing = out - tasks.len() as u32;
        return Err(StillOpen {
            die,
            clock: ClockPort { pass },
            tasks,
            refusal: Refusal::PassesOut { out: missing },
        });
    }
    join_all(&die, &mut pass, &mut tasks);
    let _ = pass.number();
    let SharedPlannedDie { turned } = die;
    match turned.close(rt, pass) {
        Ok(book) => Ok(book.into_die()),
        Err(
            Closing {
                lock,
                pass,
                refusal,
            },
        ) => Err(StillOpen {
            die: SharedPlannedDie { turned: lock },
            clock: ClockPort { pass },
            tasks,
            refusal,
        }),
    }
}
