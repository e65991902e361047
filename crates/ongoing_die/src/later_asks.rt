//! Asks for a later slot, in a slot that has begun.

ghost use Rattle.std.specs.Prelude.{◌≡◌, ◌+◌, ◌-◌, ◌<◌, min, false};
ghost use Rattle.die_log.specs.Model.Log.{now};
ghost use Rattle.die_log.specs.Model.Start.{Start};
ghost use Rattle.die_log.specs.Model.Lives.{Lives};
ghost use Rattle.planned_die.specs.Planned.{HasLived};
ghost use Rattle.planned_die.specs.PlannedCalls.{refusal_at};
ghost use Rattle.ongoing_log.specs.Ongoing.{Ongoing};
ghost use Rattle.ongoing_die.specs.Standing.{NoneIsDue, StandsAs};
ghost use Rattle.ongoing_die.specs.AsksAhead.{of_ask, release_by};
ghost use Rattle.ongoing_die.specs.OngoingCalls.{IsOngoingAskAt, HaveOnePlan};

use crate::answers::Taken;
use crate::lengths::{deadline_of, period_of};
use crate::ongoing_die::OngoingDie;
use crate::refusals::{AskAtStop, AskStop};
use crate::waiting::{is_waiting, keep_waiting};
use flash_die::Nand;
use ongoing_log::a_die_goes_on_by_itself;
use planned_die::PlannedDie;
use planned_log::{AskKind, AskRefusal};
use slot_types::{Op, TaskNo};

/// What an ask for the present slot is answered, where it is asked for as one for a slot of the clock.
pub(crate) fn of_ask(answer: Result<Taken, AskStop>) -> Result<Taken, AskAtStop>
    ensures { result ≡ of_ask answer }
{
    match answer {
        Ok(taken) => Ok(taken),
        Err(AskStop::Ended(stop)) => Err(AskAtStop::Ended(stop)),
        Err(AskStop::Plan(refusal)) => Err(AskAtStop::Plan(refusal)),
        Err(AskStop::WaitsAlready) => Err(AskAtStop::WaitsAlready),
    }
}

/// In which slot of the clock the jobs of an ask for the later slot `at` would be released: in that, or where the present life
/// ends; or why the plan refuses it.
fn release_at<N: Nand>(
    die: &mut PlannedDie<N>,
    kind: AskKind,
    task: TaskNo,
    ops: &[Op],
    at: u64,
) -> Result<u64, AskRefusal>
    requires runs { die.old.core.stopped ≡ false }
    requires later { die.old.first + now die.old.core.log < at }
    ensures release { (earlier : Lives) → HasLived die.old earlier
        → result ≡ release_by at (die.old.first + die.old.life)
        (refusal_at kind die.old earlier (at - die.old.first) task ops.now) }
    ensures unchanged { die.new ≡ die.old }
{
    let slot = at - die.first();
    match die.refusal_at(kind, task, ops, slot) {
        None => Ok(at),
        Some(AskRefusal::LifeEnd) => Ok(die.first() + u64::from(die.life())),
        Some(refusal) => Err(refusal),
    }
}

/// The last slot of the clock for which a task may ask, where a life ends in slot `end`.
fn last_slot(clock: u64, period: u32, end: u64) -> u64
    requires early { clock < 4611686018427387904 }
    ensures { result ≡ min (clock + period - 1) end }
{
    (clock + u64::from(period)).saturating_sub(1).min(end)
}

impl<N: Nand> OngoingDie<N> {
    /// Asks for a job or for a burst that is released in the later slot `at`. The present slot has begun.
    pub(crate) fn ask_later(
        &mut self,
        caller: u32,
        kind: AskKind,
        task: TaskNo,
        ops: &[Op],
        at: u64,
    ) -> Result<Taken, AskAtStop>
        requires runs { self.old.die.core.stopped ≡ false }
        requires early { now self.old.die.core.log < self.old.die.life }
        requires none_due { NoneIsDue (self.old.die.first + now self.old.die.core.log) self.old.waiting }
        requires later { self.old.die.first + now self.old.die.core.log < at }
        ensures ask { (first : Start) (d : Ongoing) → StandsAs first d self.old
            → IsOngoingAskAt kind caller task ops.now at first d result self.old self.new }
        ensures plan { HaveOnePlan self.old self.new }
    {
        a_die_goes_on_by_itself();
        let release = match release_at(&mut self.die, kind, task, ops, at) {
            Ok(release) => release,
            Err(refusal) => return Err(AskAtStop::Plan(refusal)),
        };
        let own = task.0 as usize;
        let end = self.die.first() + u64::from(self.die.life());
        let clock = self.die.first() + u64::from(self.die.now());
        let last = last_slot(clock, period_of(self.die.terms(), own), end);
        if at > last {
            return Err(AskAtStop::TooFarAhead { last });
        }
        if is_waiting(&self.waiting, own) {
            return Err(AskAtStop::WaitsAlready);
        }
        keep_waiting(&mut self.waiting, own, caller, ops, release);
        // The next slot looks at what waits.
        self.quiet = 0;
        Ok(Taken::Waits {
            release,
            due: release + u64::from(deadline_of(self.die.terms(), own)),
        })
    }
}
