//! The next life.

ghost use Rattle.std.specs.Prelude.{◌≡◌, ◌+◌, ◌∷◌, OnOk, OnErr, IfErr};
ghost use Rattle.die_log.specs.Model.Log.{now};
ghost use Rattle.die_log.specs.Model.Lives.{Lives};
ghost use Rattle.slot_core.specs.Renewals.{MayBeRenewed, renewed_core};
ghost use Rattle.planned_die.specs.Planned.{HasLived};
ghost use Rattle.planned_die.specs.PlannedCalls.{RefusesLife};

use crate::planned_die::PlannedDie;
use crate::refusals::LifeRefusal;
use flash_die::Nand;
use slot_core::RenewalRefusal;

/// The last slot of the clock in which a life may begin: 2 to the power of 61.
const LAST_BEGINNING: u64 = 2_305_843_009_213_693_952;

impl<N: Nand> PlannedDie<N> {
    /// Begins the next life at the end of this one, as [`DieCore::renew`](slot_core::DieCore::renew) does: `now` is 0
    /// again, and numbers begin at 0. All that was accepted is done or was waived by then, so it is never refused for
    /// that. What became of the jobs is to be asked before. What tasks asked for counts on in it, on the clock of all
    /// lives.
    ///
    /// Refused with the first cause that stands, as [`LifeRefusal`] lists them; nothing changes then.
    pub fn renew(&mut self) -> Result<(), LifeRefusal>
        ensures ok { OnOk result (self.new ≡ record self.old {
          core = renewed_core self.old.core;
          entered = 0;
          first = self.old.first + now self.old.core.log;
        }) }
        ensures lived { OnOk result ((earlier : Lives) → HasLived self.old earlier
            → HasLived self.new (self.old.core.log ∷ earlier)) }
        ensures ended { OnOk result (now self.old.core.log ≡ self.old.life) }
        ensures may { OnOk result (MayBeRenewed self.old.core) }
        ensures refused { IfErr result (RefusesLife self.old) }
        ensures unchanged { OnErr result (self.new ≡ self.old) }
    {
        if self.core.is_stopped() {
            return Err(LifeRefusal::DieStopped);
        }
        let now = self.core.now();
        if now < self.life {
            return Err(LifeRefusal::NotEnded {
                left: self.life - now,
            });
        }
        let next = self.first + u64::from(now);
        if next > LAST_BEGINNING {
            return Err(LifeRefusal::ClockEnd);
        }
        match self.core.renew() {
            Ok(()) => {
                self.entered = 0;
                self.quiet = 0;
                self.first = next;
                Ok(())
            }
            Err(RenewalRefusal::WornOut { block }) => Err(LifeRefusal::WornOut { block }),
            Err(RenewalRefusal::NotQuiet { .. }) => unreachable!(),
            Err(RenewalRefusal::DieStopped) => unreachable!(),
        }
    }
}
