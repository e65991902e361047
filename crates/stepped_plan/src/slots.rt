//! Slots that are begun and ended.

ghost use Rattle.std.specs.Prelude.{◌≡◌, Some, Err, false};
ghost use Rattle.stepped_plan.specs.Stages.{IsAsked, IsSteppedPlan};
ghost use Rattle.stepped_plan.specs.Calls.{BeginsAt, EndsAt, HasCarriedOut, HoldsBack, IsBeginning, IsEnd, part_after};

use crate::plan::SteppedPlan;
use crate::refusals::PlanSlotStop;
use crate::stage::Stage;
use ongoing_die::{BegunDie, CarriedSlot, LifeStop, NotBegun, SlotStop};
use slot_types::{PageData, SlotReply};
use std::alloc::Global;
use stepped_die::{Begun, MirrorNand, Part, is_done, reported_by, serial_after};

/// What the driver is to do in a slot that has begun.
fn asked(die: &mut BegunDie<MirrorNand>, alloc: Global) -> Begun
    ensures asked { IsAsked die.new result }
    ensures unchanged { die.new ≡ die.old }
{
    let next = die.next_call(alloc);
    let slot = die.die().now();
    let call = reported_by(die.die().core().device(), &next);
    Begun {
        caller: die.caller(),
        slot,
        call,
        runs: next.ran,
    }
}

/// The same once more.
fn copy_of(begun: &Begun) -> Begun
    ensures { result ≡ begun.now }
{
    Begun {
        caller: begun.caller,
        slot: begun.slot,
        call: begun.call,
        runs: begun.runs,
    }
}

/// The stage once the slot is begun, and what was answered.
fn begun(stage: Stage, alloc: Global, caller: u32) -> (Stage, Result<Begun, PlanSlotStop>)
    requires asked { IsSteppedPlan (Some stage) }
    ensures begun { BeginsAt caller result.1 (Some stage) (Some result.0) }
    ensures asked { IsSteppedPlan (Some result.0) }
{
    match stage {
        Stage::Between { die } => match die.begin(alloc, caller) {
            Ok(mut die) => {
                let begun = asked(&mut die, alloc);
                let said = copy_of(&begun);
                (Stage::Within { die, begun }, Ok(said))
            }
            Err(NotBegun { die, stop }) => (
                Stage::Between { die },
                Err(PlanSlotStop::Slot(SlotStop::Ended(stop))),
            ),
        },
        Stage::Within { die, begun } => (Stage::Within { die, begun }, Err(PlanSlotStop::Begun)),
    }
}

/// The stage once a slot was carried out whose call was made.
fn carried(die: BegunDie<MirrorNand>, alloc: Global) -> (Stage, Result<SlotReply, PlanSlotStop>)
    ensures carried { HasCarriedOut die result.1 result.0 }
{
    let CarriedSlot { die, said } = die.carry_out(alloc);
    match said {
        Ok(reply) => (Stage::Between { die }, Ok(reply)),
        // A mirror has no fault.
        Err(_) => unreachable!(),
    }
}

/// The stage once the slot is ended, and what was answered.
fn ended(
    stage: Stage,
    alloc: Global,
    ok: bool,
    bytes: PageData,
) -> (Stage, Result<SlotReply, PlanSlotStop>)
    requires asked { IsSteppedPlan (Some stage) }
    ensures ended { EndsAt ok bytes result.1 (Some stage) (Some result.0) }
    ensures asked { IsSteppedPlan (Some result.0) }
{
    match stage {
        Stage::Between { die } => {
            if die.die().core().is_stopped() {
                let stop = SlotStop::Ended(LifeStop::DieStopped);
                (Stage::Between { die }, Err(PlanSlotStop::Slot(stop)))
            } else {
                (Stage::Between { die }, Err(PlanSlotStop::NotBegun))
            }
        }
        Stage::Within { die, begun } => {
            if is_done(begun.call, ok, bytes) {
                carried(die, alloc)
            } else {
                (
                    Stage::Between { die: die.give_up() },
                    Err(PlanSlotStop::Slot(SlotStop::DeviceFault)),
                )
            }
        }
    }
}

/// What is known of the part once the slot is ended that had begun so, or isn't.
fn part_after(said: &Result<SlotReply, PlanSlotStop>, begun: Option<Begun>, part: Part) -> Part
    ensures { result ≡ part_after said.now begun part }
{
    match said {
        Ok(_) => match begun {
            Some(begun) => Part {
                aside: part.aside,
                serial: serial_after(begun.call, part.serial),
                stands: part.stands,
            },
            None => part,
        },
        Err(_) => part,
    }
}

impl SteppedPlan {
    /// Begins the present slot: where a life has ended the next one begins, with what waited for it; the collections come that
    /// the plan has in the slot; and what the slot needs is answered: the one call of the device, or the page that it trims, and
    /// for whom. The slot isn't in the log before it has ended.
    ///
    /// Refused, where nothing changes, with `Begun`, where a slot has begun; else `CheckpointStands`, where the die was resumed from
    /// a checkpoint and its owner hasn't said that it is void ([`checkpoint_void`](SteppedPlan::checkpoint_void)), whatever the slot
    /// would need: the collections that come in a slot can't be taken back; else `Slot`, where the whole die carries out no slot
    /// (`Ended`). There is no other refusal: it is never refused for memory.
    pub fn begin(&mut self, alloc: Global, caller: u32) -> Result<Begun, PlanSlotStop>
        ensures begun { IsBeginning caller result self.old self.new }
    {
        if self.part.stands {
            return Err(self.held());
        }
        match self.stage.take() {
            Some(stage) => {
                let (stage, said) = begun(stage, alloc, caller);
                self.stage = Some(stage);
                said
            }
            None => unreachable!(),
        }
    }

    /// Why no slot begins while a checkpoint stands.
    fn held(&self) -> PlanSlotStop
        ensures { HoldsBack (Err result) self.now.stage self.now.stage }
    {
        match &self.stage {
            Some(Stage::Within { .. }) => PlanSlotStop::Begun,
            Some(Stage::Between { .. }) => PlanSlotStop::CheckpointStands,
            None => unreachable!(),
        }
    }

    /// Its owner says that the checkpoint from which the die was resumed is void: it will be resumed from no more. From then on
    /// slots may begin. Where none stands nothing changes.
    pub fn checkpoint_void(&mut self)
        ensures { self.new ≡ record self.old { part = record self.old.part { stands = false } } }
    {
        self.part.stands = false;
    }

    /// Ends the slot that has begun: whether the driver did what it was asked, and the bytes that were read, if a cell was. A read
    /// that gave other bytes than its cell was programmed with is a fault. Beginning and end are together just a slot of
    /// [`OngoingDie`](ongoing_die::OngoingDie::slot).
    ///
    /// Refused with `Ended`, where a fault has stopped the die, and `NotBegun`, where no slot has begun; these change nothing.
    /// `DeviceFault` where it wasn't done, or a read gave other bytes: the die is stopped from then on, and its log stays, without
    /// this slot and with its collections. There is no other refusal, out of memory neither.
    pub fn end(
        &mut self,
        alloc: Global,
        ok: bool,
        bytes: PageData,
    ) -> Result<SlotReply, PlanSlotStop>
        ensures ended { IsEnd ok bytes result self.old self.new }
    {
        let begun = self.begun();
        match self.stage.take() {
            Some(stage) => {
                let (stage, said) = ended(stage, alloc, ok, bytes);
                self.stage = Some(stage);
                self.part = part_after(&said, begun, self.part);
                said
            }
            None => unreachable!(),
        }
    }
}
