//! Dies that a run owns.

ghost use Rattle.std.specs.Prelude.{◌≡◌, ◌≤◌, ◌∷◌, ◌++◌, [], IfOk, OnErr, OnOk};
ghost use Rattle.std.specs.Box.{box_value};
ghost use Rattle.slot_types.specs.Arrivals.{arrival_of};
ghost use Rattle.slot_types.specs.Refusal.{FailsForMemory};
ghost use Rattle.die_service.specs.OwnRuns.{HasRunOn, fresh_run};

use crate::courses::Course;
use crate::drivers::Driver;
use crate::ends::RefusedEvent;
use crate::owned_dies::OwnedDie;
use flash_die::Nand;
use slot_core::DieCore;
use slot_types::{JobHead, LentOps, Refusal};
use std::alloc::Global;
use std::marker::Model;

/// A die that a run owns, out of every lock: one thread at a time calls it, part by part. The events that come next are
/// added; then it is run up to a slot. Contracts see the die, the clock, the events that are still to come, and of those
/// that came since they were last cleared how many there are and which were refused.
#[derive(Drop)]
pub struct RunDie<N: Nand> {
    driver: Driver<OwnedDie<N>>,
    clock: u32,
}

impl<N: Nand> Model for RunDie<N> {
    ghost use Rattle.std.specs.Prelude.{◌≡◌, None};
    ghost use Rattle.die_service.specs.OwnRuns as own;
    ghost use Rattle.die_service.specs.Drives.{first_state};

    ghost Value = { own.DieRun N };

    ghost view = { λ r. record { die = r.driver.work; clock = r.clock; course = r.driver.course } };

    ghost invariant = { λ r. r.driver ≡ first_state r.driver.work r.driver.course };
}

impl<N: Nand> RunDie<N> {
    /// A run of a die, which nobody else calls meanwhile, from its present slot on. It takes no memory.
    pub fn new(alloc: Global, die: Box<DieCore<N>>) -> RunDie<N>
        ensures { result ≡ fresh_run (box_value die) }
    {
        let clock = die.now();
        let driver = Driver::new(OwnedDie::new(alloc, die), Course::empty(alloc));
        RunDie { driver, clock }
    }

    /// The present slot.
    pub fn clock(&self) -> u32
        ensures { result ≡ self.now.clock }
    {
        self.clock
    }

    /// Adds an event that comes before slot `at`, after all others: a job of these operations, which are lent, or a
    /// collection, which leaves them aside. Refused with `NoMemory`, the run stays as it was.
    #[inline(always)]
    pub fn add(&mut self, at: u32, head: JobHead, ops: &LentOps) -> Result<(), Refusal>
        ensures ok { OnOk result (self.new ≡ record self.old {
          course = record self.old.course {
            rest = self.old.course.rest ++ record { at = at; event = arrival_of head ops.now } ∷ [];
          };
        }) }
        ensures refused { FailsForMemory result }
        ensures err { OnErr result (self.new ≡ self.old) }
    {
        self.driver.course.add(at, head, ops)
    }

    /// Runs the die up to before slot `until`, or asks for no slot where that isn't above the clock. Before each slot the
    /// events that come by it are asked for, in their order, and after the last slot those that come by the clock then. A
    /// refused event ends nothing. It takes no memory but what the die takes.
    ///
    /// Refused as the first slot that is refused, after which no event is asked for: the run isn't to go on then.
    pub fn run(&mut self, until: u32) -> Result<(), Refusal>
        ensures { HasRunOn N.ends N.failures N.never_fails until self.old result self.new }
    {
        let slots = until.saturating_sub(self.clock);
        self.driver.run(0, self.clock, slots);
        self.clock = self.clock.max(until);
        let stop = self.driver.stop();
        self.driver.forget();
        match stop {
            Some(refused) => Err(refused.refusal),
            None => Ok(()),
        }
    }

    /// The events that were refused, in their order, by their places among those that came since they were last cleared.
    pub fn refused(&self) -> &[RefusedEvent]
        ensures { result.now ≡ self.now.course.refused }
    {
        self.driver.course.refused()
    }

    /// Forgets the events that came, and takes those away that are still to come. Their memory stays, for the next ones.
    pub fn clear(&mut self)
        ensures die { self.new.die ≡ self.old.die }
        ensures clock { self.new.clock ≡ self.old.clock }
        ensures none { self.new.course ≡ (fresh_run self.old.die).course }
    {
        self.driver.course.clear();
    }

    /// The die. The events that are still to come are given up.
    pub fn into_die(self) -> Box<DieCore<N>>
        ensures { box_value result ≡ self.die }
    {
        let (_, owned) = self.driver.into_end();
        owned.into_core()
    }
}
