//! A slot in two halves, for an owner who makes the device's calls himself.

ghost use Rattle.std.specs.Prelude.{◌≡◌, ◌<◌, true, false, OnOk, OnErr, IfOk, IfErr};
ghost use Rattle.die_log.specs.Model.Log.{now};
ghost use Rattle.die_log.specs.Model.Lives.{Lives};
ghost use Rattle.slot_core.specs.NextSlot.{next_slot};
ghost use Rattle.planned_die.specs.Planned.{HasLived};
ghost use Rattle.planned_die.specs.BegunSlots.{HasEnteredAll, HasNoSlot};

use crate::collections::enter_rest;
use crate::planned_die::PlannedDie;
use flash_die::Nand;
use slot_core::NextSlot;
use slot_types::Refusal;
use std::alloc::Global;

impl<N: Nand> PlannedDie<N> {
    /// Enters the collections that the plan has in the present slot, all of them, and doesn't carry out the slot: the first
    /// half of [`slot`](PlannedDie::slot), which enters none that have come. An ask that comes after them is a job of this slot,
    /// too.
    ///
    /// `DieStopped`; else `ClockEnd`, where the life has ended. These change nothing, and there is no other refusal: it takes
    /// no memory.
    pub fn enter_collections(&mut self, alloc: Global, caller: u32) -> Result<(), Refusal>
        ensures entered { OnOk result (HasEnteredAll caller self.old self.new) }
        ensures refused { IfErr result (HasNoSlot self.old) }
        ensures unchanged { OnErr result (self.new ≡ self.old) }
        ensures lived { (earlier : Lives) → HasLived self.old earlier → HasLived self.new earlier }
    {
        if self.core.is_stopped() {
            return Err(Refusal::DieStopped);
        }
        if self.core.now() >= self.life {
            return Err(Refusal::ClockEnd);
        }
        enter_rest(
            &mut self.core,
            &self.terms,
            alloc,
            caller,
            self.life,
            self.quiet,
            &mut self.entered,
        );
        Ok(())
    }

    /// What the present slot needs, by the log so far: where the slot's collections have come, what
    /// [`slot`](PlannedDie::slot) will do in it, if no ask comes between.
    ///
    /// `DieStopped`; else `ClockEnd`, where the life has ended. There is no other refusal.
    pub fn next_call(&mut self, alloc: Global) -> Result<NextSlot, Refusal>
        ensures next { IfOk result (λ next. next ≡ next_slot self.old.core.start self.old.core.log) }
        ensures runs { OnOk result ((self.old.core.stopped ≡ false) × (now self.old.core.log < self.old.life)) }
        ensures refused { IfErr result (HasNoSlot self.old) }
        ensures unchanged { self.new ≡ self.old }
    {
        if self.core.is_stopped() {
            return Err(Refusal::DieStopped);
        }
        if self.core.now() >= self.life {
            return Err(Refusal::ClockEnd);
        }
        self.core.next_call(alloc)
    }

    /// Stops the die, as a fault of its device does: the call of the device that the present slot needs has failed, and the
    /// slot isn't carried out.
    pub fn stop(&mut self)
        ensures stops { self.new ≡ record self.old { core = record self.old.core { stopped = true } } }
        ensures lived { (earlier : Lives) → HasLived self.old earlier → HasLived self.new earlier }
    {
        self.core.stop();
    }
}
