//! Asks of the die of the present life.

ghost use Rattle.std.specs.Prelude.{◌≡◌, false};
ghost use Rattle.die_log.specs.Model.Lives.{Lives};
ghost use Rattle.planned_die.specs.Planned.{HasLived};
ghost use Rattle.ongoing_die.specs.DieAsks.{IsDieAsk, refusal_of, while_waiting};

use crate::refusals::AskStop;
use flash_die::Nand;
use planned_die::{Burst, PlannedDie};
use planned_log::{AskKind, AskRefusal};
use slot_types::{Op, TaskNo};
use std::alloc::Global;

/// Asks for a job or for a burst.
pub(crate) fn ask_die<N: Nand>(
    die: &mut PlannedDie<N>,
    alloc: Global,
    caller: u32,
    kind: AskKind,
    task: TaskNo,
    ops: &[Op],
) -> Result<Burst, AskRefusal>
    ensures ask { (earlier : Lives) → HasLived die.old earlier
        → IsDieAsk kind caller task ops.now earlier result die.old die.new }
    ensures lived { (earlier : Lives) → HasLived die.old earlier → HasLived die.new earlier }
{
    match kind {
        AskKind::Job => match die.ask(alloc, caller, task, ops) {
            Ok(first) => Ok(Burst { first, jobs: 1 }),
            Err(refusal) => Err(refusal),
        },
        AskKind::Burst => die.ask_all(alloc, caller, task, ops),
    }
}

/// Why an ask of the task is refused while one of it waits already.
pub(crate) fn why_not<N: Nand>(
    die: &mut PlannedDie<N>,
    kind: AskKind,
    task: TaskNo,
    ops: &[Op],
) -> AskStop
    requires runs { die.old.core.stopped ≡ false }
    ensures why { (earlier : Lives) → HasLived die.old earlier
        → result ≡ while_waiting (refusal_of kind die.old earlier task ops.now) }
    ensures unchanged { die.new ≡ die.old }
{
    let now = u64::from(die.now());
    match die.refusal_at(kind, task, ops, now) {
        None => AskStop::WaitsAlready,
        Some(AskRefusal::LifeEnd) => AskStop::WaitsAlready,
        Some(refusal) => AskStop::Plan(refusal),
    }
}
