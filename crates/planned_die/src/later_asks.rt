//! What the plan would say of an ask in a later slot.

ghost use Rattle.std.specs.Prelude.{◌≡◌, ◌≤◌};
ghost use Rattle.die_log.specs.Model.Log.{now};
ghost use Rattle.die_log.specs.Model.Lives.{Lives};
ghost use Rattle.planned_die.specs.Remembered.{said_later};
ghost use Rattle.planned_die.specs.Planned.{HasLived};
ghost use Rattle.planned_die.specs.PlannedCalls.{IsRefusalAt};

use crate::planned_die::PlannedDie;
use crate::rooms::why_refused;
use crate::terms::terms_at;
use flash_die::Nand;
use planned_log::{AskKind, AskRefusal};
use slot_types::{Op, TaskNo};

/// What the plan says of an ask as in slot `slot`, where it says `now` of it in the present one, and a job of the task has
/// `deadline` slots.
fn say_later(now: Option<AskRefusal>, life: u32, deadline: u32, slot: u64) -> Option<AskRefusal>
    ensures { result ≡ said_later life deadline slot now }
{
    match now {
        None => {}
        Some(AskRefusal::LifeEnd) => {}
        Some(AskRefusal::TooSoon { next }) if next <= slot => {}
        Some(refusal) => return Some(refusal),
    }
    if u128::from(slot) + u128::from(deadline) > u128::from(life) {
        return Some(AskRefusal::LifeEnd);
    }
    None
}

impl<N: Nand> PlannedDie<N> {
    /// Why an ask of the task, for a job or for a burst, would be refused in slot `slot`, the present one or a later one, if the
    /// task asked for nothing else before; nothing, if it wouldn't. Slots count from the start of the present life, and `slot` may
    /// also lie in a later one, where `LifeEnd` is the cause if no other is. So `TooSoon` has the first slot, after that one, in
    /// which there is room. `DieStopped`, if a fault has stopped the die.
    ///
    /// It changes nothing, and takes no memory.
    pub fn refusal_at(
        &mut self,
        kind: AskKind,
        task: TaskNo,
        ops: &[Op],
        slot: u64,
    ) -> Option<AskRefusal>
        requires later { now self.old.core.log ≤ slot }
        ensures refusal { (earlier : Lives) → HasLived self.old earlier
            → IsRefusalAt kind slot task ops.now earlier result self.old }
        ensures unchanged { self.new ≡ self.old }
    {
        if self.core.is_stopped() {
            return Some(AskRefusal::DieStopped);
        }
        let now = self.core.now();
        let refused = why_refused(
            self.core.plan(),
            &self.terms,
            self.life,
            self.first,
            now,
            &mut self.asked,
            kind,
            task,
            ops,
        );
        let deadline = terms_at(&self.terms, task.0 as usize).deadline;
        say_later(refused, self.life, deadline, slot)
    }
}
