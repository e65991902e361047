//! A die whose slots are begun and ended.

ghost use Rattle.std.specs.Prelude.{◌≡◌, ◌≢◌, ◌⊎◌, ◌↔◌, ◌<◌, ◌≤◌, [], true, false, None, IsSome, IsOk, IfOk, IfErr, OnOk, OnErr};
ghost use Rattle.slot_types.specs.declared.refusals.Refusal.{Refusal};
ghost use Rattle.slot_types.specs.declared.events.Event.TheVariants as events;
ghost use Rattle.slot_types.specs.declared.limits.TheConstants.{MAX_SLOT};
ghost use Rattle.slot_types.specs.Refusal.{FailsForMemory};
ghost use Rattle.plan_rules.specs.Bound.{MeetsBound};
ghost use Rattle.die_log.specs.Model.Log.{now};
ghost use Rattle.slot_core.specs.Calls.{HasEntered};
ghost use Rattle.slot_core.specs.WithinSlot.{idle_reply};
ghost use Rattle.slot_core.specs.Overdues.{overdue_of};
ghost use Rattle.slot_core.specs.Renewals.{MayBeRenewed, renewed_core};
ghost use Rattle.power_loss.specs.Aside.{on_part};
ghost use Rattle.stepped_die.specs.Steps.{HoldsBack, WouldSpend};
ghost use Rattle.slot_core.specs.Core.{nothing_reserved, with_slots, with_arrivals};
ghost use Rattle.stepped_die.specs.DeviceCalls.{IsDone, call_reported, reported_by};

use crate::calls::{Begun, Call};
use crate::mirror::MirrorNand;
use crate::part::{Part, on_part, serial_after, spends};
use crate::refusals::{StepRefusal, StepRenewalRefusal};
use flash_die::NandCall;
use plan_rules::bound;
use slot_core::{DieCore, NextAct, NextSlot, Overdue, RenewalRefusal};
use slot_types::{DiePlan, JobNo, Op, PageData, Refusal, SlotReply, TaskNo};
use std::alloc::Global;
use std::marker::Model;

/// A die whose slots are begun and ended. It keeps a mirror of the names of its pages, which says what a cell was
/// programmed with. A slot that has begun isn't in the log before it has ended, nor is one that failed.
///
/// Contracts see the die, and the slot that has begun.
#[derive(Drop)]
pub struct SteppedDie {
    pub(crate) core: DieCore<MirrorNand>,
    pub(crate) begun: Option<Begun>,
    pub(crate) part: Part,
}

impl Model for SteppedDie {
    ghost use Rattle.stepped_die.specs.Stepped.{Stepped, IsStepped};

    ghost Value = { Stepped };

    ghost view = { λ d. record { core = d.core; begun = d.begun; part = d.part } };

    ghost invariant = { λ d. IsStepped (record { core = d.core; begun = d.begun; part = d.part }) };
}

impl SteppedDie {
    ghost use Rattle.stepped_die.specs.Steps.{IsNew, RefusesNewDie, HasBegun, HasEnded, HasFailed, RefusesArrival, RefusesBeginning, RefusesRenewing};

    /// A die on which nothing was done, over a device that is erased.
    ///
    /// `BadShape` where the plan's shape is out of its limits; else `BadPlan` where the plan does not meet its bound;
    /// else `NoMemory`.
    pub fn new(alloc: Global, plan: DiePlan) -> Result<SteppedDie, Refusal>
        ensures ok { IfOk result (IsNew plan) }
        ensures bound { OnOk result (MeetsBound plan) }
        ensures cause { IfErr result (RefusesNewDie plan) }
        ensures memory { result ≡ Err Refusal.NoMemory → MeetsBound plan }
    {
        bound(&plan)?;
        let mirror = MirrorNand::new(alloc, plan.shape)?;
        let part = Part::fresh(&plan);
        Ok(SteppedDie {
            core: DieCore::new(alloc, plan, mirror)?,
            begun: None,
            part,
        })
    }

    /// Whether a slot has begun that isn't below the release.
    fn holds_back(&self, release: u32) -> bool
        ensures { (result ≡ true) ↔ HoldsBack release self.now.begun }
    {
        match self.begun {
            Some(begun) => release <= begun.slot,
            None => false,
        }
    }

    /// Accepts a job, as [`DieCore::submit_lent`]; also while a slot has begun, where its release is above that slot:
    /// it is answered by the log without that slot, and stands before it.
    ///
    /// Refused with `DieStopped` where a fault has stopped the die; else `Begun` where a slot has begun that isn't
    /// below the release; else as the die refuses it. Every refusal changes nothing.
    #[inline(always)]
    pub fn submit(
        &mut self,
        alloc: Global,
        caller: u32,
        task: TaskNo,
        release: u32,
        due: u32,
        ops: &[Op],
    ) -> Result<JobNo, StepRefusal>
        ensures stopped { (result ≡ Err (StepRefusal.Die Refusal.DieStopped))
            ↔ (self.old.core.stopped ≡ true) }
        ensures held { self.old.core.stopped ≡ false
            → ((result ≡ Err StepRefusal.Begun) ↔ HoldsBack release self.old.begun) }
        ensures taken { IfOk result (λ number.
            HasEntered caller (events.Submit task release due ops.now) number self.old.core
            self.new.core) }
        ensures begun { self.new.begun ≡ self.old.begun }
        ensures part { self.new.part ≡ self.old.part }
        ensures cause { IfErr result
            (RefusesArrival release (events.Submit task release due ops.now) self.old self.new) }
        ensures refused { OnErr result (self.new ≡ self.old) }
    {
        if self.core.is_stopped() {
            return Err(StepRefusal::Die(Refusal::DieStopped));
        }
        if self.holds_back(release) {
            return Err(StepRefusal::Begun);
        }
        self.core.promises();
        match self
            .core
            .submit_lent(alloc, caller, task, release, due, ops)
        {
            Ok(number) => Ok(number),
            Err(refusal) => Err(StepRefusal::Die(refusal)),
        }
    }

    /// Accepts a collection, as [`DieCore::collect`]; also while a slot has begun, where its release is above that
    /// slot: it is answered by the log without that slot, and stands before it.
    ///
    /// Refused with `DieStopped` where a fault has stopped the die; else `Begun` where a slot has begun that isn't
    /// below the release; else as the die refuses it. Every refusal changes nothing.
    pub fn collect(
        &mut self,
        alloc: Global,
        caller: u32,
        task: TaskNo,
        release: u32,
        due: u32,
    ) -> Result<JobNo, StepRefusal>
        ensures stopped { (result ≡ Err (StepRefusal.Die Refusal.DieStopped))
            ↔ (self.old.core.stopped ≡ true) }
        ensures held { self.old.core.stopped ≡ false
            → ((result ≡ Err StepRefusal.Begun) ↔ HoldsBack release self.old.begun) }
        ensures taken { IfOk result (λ number.
            HasEntered caller (events.Collect task release due) number self.old.core
            self.new.core) }
        ensures begun { self.new.begun ≡ self.old.begun }
        ensures part { self.new.part ≡ self.old.part }
        ensures cause { IfErr result
            (RefusesArrival release (events.Collect task release due) self.old self.new) }
        ensures refused { OnErr result (self.new ≡ self.old) }
    {
        if self.core.is_stopped() {
            return Err(StepRefusal::Die(Refusal::DieStopped));
        }
        if self.holds_back(release) {
            return Err(StepRefusal::Begun);
        }
        self.core.promises();
        match self.core.collect(alloc, caller, task, release, due) {
            Ok(number) => Ok(number),
            Err(refusal) => Err(StepRefusal::Die(refusal)),
        }
    }

    /// Begins the present slot, and answers the one call of the device that it needs, or the page that it trims, and for whom. Nothing is entered
    /// into the log; memory is reserved for the slot, so that its end needs none.
    ///
    /// Refused, where nothing changes, with `DieStopped` where a fault has stopped the die; `Begun` where a slot has
    /// begun; `ClockEnd` where the present slot is 1,048,576; `CheckpointStands` where the slot would spend a checkpoint
    /// from which the die was resumed, by a program, a slot of an erase or a trim, and its owner hasn't said that it is
    /// void ([`checkpoint_void`](SteppedDie::checkpoint_void)); `NoMemory`, never while slots are reserved.
    pub fn begin(&mut self, alloc: Global, caller: u32) -> Result<Begun, StepRefusal>
        ensures stopped { (result ≡ Err (StepRefusal.Die Refusal.DieStopped))
            ↔ (self.old.core.stopped ≡ true) }
        ensures twice { self.old.core.stopped ≡ false
            → ((result ≡ Err StepRefusal.Begun) ↔ IsSome self.old.begun) }
        ensures end { self.old.core.stopped ≡ false → self.old.begun ≡ None
            → ((result ≡ Err (StepRefusal.Die Refusal.ClockEnd))
            ↔ (MAX_SLOT ≤ now self.old.core.log)) }
        ensures stands { self.old.core.stopped ≡ false → self.old.begun ≡ None
            → now self.old.core.log < MAX_SLOT
            → ((result ≡ Err StepRefusal.CheckpointStands) ↔ WouldSpend self.old) }
        ensures begun { IfOk result (λ begun. HasBegun caller begun self.old self.new) }
        ensures refused { OnErr result (self.new ≡ self.old) }
        ensures cause { IfErr result (RefusesBeginning self.old) }
    {
        if self.core.is_stopped() {
            return Err(StepRefusal::Die(Refusal::DieStopped));
        }
        if self.begun.is_some() {
            return Err(StepRefusal::Begun);
        }
        let slot = self.core.now();
        let next = match self.core.next_call(alloc) {
            Ok(next) => next,
            Err(refusal) => return Err(StepRefusal::Die(refusal)),
        };
        let call = reported_by(self.core.device(), &next);
        if self.part.stands && spends(call) {
            return Err(StepRefusal::CheckpointStands);
        }
        match self.core.reserve(1) {
            Ok(()) => {}
            Err(refusal) => return Err(StepRefusal::Die(refusal)),
        }
        self.begun = Some(begun_by(caller, slot, call, next.ran));
        Ok(begun_by(caller, slot, call, next.ran))
    }

    /// Its owner says that the checkpoint from which the die was resumed is void: it will be resumed from no more. From
    /// then on each slot may begin. Where none stands nothing changes.
    pub fn checkpoint_void(&mut self)
        ensures { self.new
            ≡ record self.old { part = record self.old.part { stands = false } } }
    {
        self.part.stands = false;
    }

    /// Ends the slot that has begun: whether the driver did what it was asked, and the bytes that were read, if a cell
    /// was. A read that gave other bytes than its cell was programmed with is a fault. What the slot did goes into a
    /// reply as [`new_reply`](slot_core::new_reply) makes it; where the slot is refused the reply is of no use any more.
    ///
    /// Refused with `DieStopped` where a fault has stopped the die, and `NotBegun` where no slot has begun; these
    /// change nothing. `DeviceFault` where it wasn't done, or a read gave other bytes: the die is stopped from then
    /// on, and its log stays, without this slot and its waivers. There is no other refusal, out of memory neither.
    pub fn end(
        &mut self,
        ok: bool,
        bytes: PageData,
        reply: &mut SlotReply,
    ) -> Result<(), StepRefusal>
        requires unfilled { reply.old ≡ idle_reply 0 [] }
        ensures stopped { (result ≡ Err (StepRefusal.Die Refusal.DieStopped))
            ↔ (self.old.core.stopped ≡ true) }
        ensures idle { self.old.core.stopped ≡ false
            → ((result ≡ Err StepRefusal.NotBegun) ↔ (self.old.begun ≡ None)) }
        ensures ended { OnOk result (HasEnded ok bytes reply.new self.old self.new) }
        ensures failed { result ≡ Err (StepRefusal.Die Refusal.DeviceFault)
            → HasFailed ok bytes self.old self.new }
        ensures refused { IfErr result (λ refusal. (refusal ≡ StepRefusal.Die Refusal.DeviceFault)
            ⊎ (((refusal ≡ StepRefusal.Die Refusal.DieStopped) ⊎ (refusal ≡ StepRefusal.NotBegun))
            × (self.new ≡ self.old))) }
    {
        if self.core.is_stopped() {
            return Err(StepRefusal::Die(Refusal::DieStopped));
        }
        let begun = match self.begun {
            Some(begun) => begun,
            None => return Err(StepRefusal::NotBegun),
        };
        if is_done(begun.call, ok, bytes) {
            match self.core.fill_slot(begun.caller, reply) {
                Ok(()) => {
                    self.begun = None;
                    self.part.serial = serial_after(begun.call, self.part.serial);
                    Ok(())
                }
                Err(_) => unreachable!(),
            }
        } else {
            self.core.stop();
            self.begun = None;
            Err(StepRefusal::Die(Refusal::DeviceFault))
        }
    }

    /// Takes the memory for `slots` later slots, as [`DieCore::reserve`]. A slot that has begun is the first of them.
    /// Each [renewal](SteppedDie::renew) reserves as many again.
    pub fn reserve(&mut self, slots: u32) -> Result<(), Refusal>
        ensures ok { OnOk result (self.new
            ≡ record self.old { core = with_slots slots self.old.core }) }
        ensures refused { FailsForMemory result }
        ensures succeeds { slots ≤ self.old.core.reserved.slots → IsOk result }
        ensures unchanged { OnErr result (self.new ≡ self.old) }
    {
        self.core.reserve(slots)
    }

    /// Takes the memory for `arrivals` later jobs and collections with `operations` operations in all, as
    /// [`DieCore::reserve_arrivals`].
    pub fn reserve_arrivals(&mut self, arrivals: u32, operations: u32) -> Result<(), Refusal>
        ensures ok { OnOk result (self.new
            ≡ record self.old { core = with_arrivals arrivals operations self.old.core }) }
        ensures refused { FailsForMemory result }
        ensures succeeds { arrivals ≤ self.old.core.reserved.arrivals
            → operations ≤ self.old.core.reserved.operations → IsOk result }
        ensures unchanged { OnErr result (self.new ≡ self.old) }
    {
        self.core.reserve_arrivals(arrivals, operations)
    }

    /// Whether neither a fault has stopped the die nor a slot has begun, and else why the log isn't started anew.
    fn may_renew(&self) -> Result<(), StepRenewalRefusal>
        ensures runs { OnOk result (self.now.core.stopped ≡ false) }
        ensures idle { OnOk result (self.now.begun ≡ None) }
        ensures begun { self.now.core.stopped ≡ false
            → ((result ≡ Err StepRenewalRefusal.Begun) ↔ IsSome self.now.begun) }
        ensures cause { IfErr result (RefusesRenewing self.now) }
    {
        if self.core.is_stopped() {
            return Err(StepRenewalRefusal::Die(RenewalRefusal::DieStopped));
        }
        if self.begun.is_some() {
            return Err(StepRenewalRefusal::Begun);
        }
        Ok(())
    }

    /// Starts the log anew at a quiet moment, as [`DieCore::renew`]: what ever was reserved is reserved again.
    /// `DieStopped` where a fault has stopped the die; else `Begun` where a slot has begun. Every refusal changes nothing.
    pub fn renew(&mut self) -> Result<(), StepRenewalRefusal>
        ensures begun { self.old.core.stopped ≡ false
            → ((result ≡ Err StepRenewalRefusal.Begun) ↔ IsSome self.old.begun) }
        ensures ok { OnOk result ((self.new ≡ record self.old { core = renewed_core self.old.core })
            × MayBeRenewed self.old.core) }
        ensures cause { IfErr result (RefusesRenewing self.old) }
        ensures unchanged { OnErr result (self.new ≡ self.old) }
    {
        self.may_renew()?;
        match self.core.renew() {
            Ok(()) => Ok(()),
            Err(refusal) => Err(StepRenewalRefusal::Die(refusal)),
        }
    }

    /// As [`renew`](SteppedDie::renew), and gives back the memory of the log so far, that which is reserved too.
    pub fn renew_giving_back(&mut self, alloc: Global) -> Result<(), StepRenewalRefusal>
        ensures begun { self.old.core.stopped ≡ false
            → ((result ≡ Err StepRenewalRefusal.Begun) ↔ IsSome self.old.begun) }
        ensures ok { OnOk result ((self.new ≡ record self.old {
          core = record (renewed_core self.old.core) {
            reserved = nothing_reserved;
            lasting = nothing_reserved;
          };
        }) × MayBeRenewed self.old.core) }
        ensures cause { IfErr result (RefusesRenewing self.old) }
        ensures unchanged { OnErr result (self.new ≡ self.old) }
    {
        self.may_renew()?;
        match self.core.renew_giving_back(alloc) {
            Ok(()) => Ok(()),
            Err(refusal) => Err(StepRenewalRefusal::Die(refusal)),
        }
    }

    /// The slot that has begun, if one has.
    pub fn begun(&self) -> Option<Begun>
        ensures { result ≡ self.now.begun }
    {
        self.begun
    }

    /// The number that the part gives a block of the die. A die that wasn't mounted has the part's own numbers.
    pub fn part_block(&self, block: u32) -> u32
        ensures { result
            ≡ on_part self.now.core.start.plan.shape.blocks self.now.part.aside block }
    {
        on_part(self.core.plan().shape.blocks, self.part.aside, block)
    }

    /// What is known of the part: the block that stands aside, and the serial of the next program, within a slot that
    /// has begun, too. It rises by one with each program, up to 2^64 - 1. A fresh die begins with 1. And whether a
    /// checkpoint stands from which the die was resumed.
    pub fn part(&self) -> Part
        ensures { result ≡ self.now.part }
    {
        self.part
    }

    /// The work that is overdue, as [`DieCore::overdue`]: by the log, in which a slot that has begun isn't. A die that a
    /// fault has stopped answers none.
    pub fn overdue(&mut self) -> Option<Overdue>
        ensures overdue { self.old.core.stopped ≡ false
            → result ≡ overdue_of self.old.core.start.plan self.old.core.log }
        ensures stopped { self.old.core.stopped ≡ true → result ≡ None }
        ensures unchanged { self.new ≡ self.old }
    {
        self.core.overdue()
    }

    /// The die, for questions. They are answered by the log, in which a slot that has begun, or has failed, isn't.
    pub fn core(&self) -> &DieCore<MirrorNand>
        ensures { result.now ≡ self.now.core }
    {
        &self.core
    }
}

/// What a driver is asked to do in a slot.
pub fn reported_by(device: &MirrorNand, next: &NextSlot) -> Option<Call>
    ensures { result ≡ reported_by device.now.memory next.now }
{
    match next.ran {
        Some((_, NextAct::Trim { page })) => Some(Call::Trim { page }),
        _ => call_reported(device, next.call),
    }
}

/// What a driver is reported of the call that a slot needs.
fn call_reported(device: &MirrorNand, call: Option<NandCall>) -> Option<Call>
    ensures { result ≡ call_reported device.now.memory call }
{
    match call {
        None => None,
        Some(NandCall::Read(place)) => {
            let bytes = device.cell(place);
            Some(Call::Read { place, bytes })
        }
        Some(NandCall::Program(place, _, bytes)) => {
            let erases = device.erases(place.block);
            Some(Call::Program {
                place,
                bytes,
                erases,
            })
        }
        Some(NandCall::EraseSlot(block)) => {
            let last = device.ends_erase(block);
            Some(Call::Erase { block, last })
        }
    }
}

/// A slot that has begun.
fn begun_by(caller: u32, slot: u32, call: Option<Call>, runs: Option<(JobNo, NextAct)>) -> Begun
    ensures { result ≡ record { caller = caller; slot = slot; call = call; runs = runs } }
{
    Begun {
        caller,
        slot,
        call,
        runs,
    }
}

/// Whether the driver did what it was asked, and a read gave the bytes that the cell was programmed with.
pub fn is_done(call: Option<Call>, ok: bool, bytes: PageData) -> bool
    ensures { (result ≡ true) ↔ IsDone call ok bytes }
{
    match call {
        None => true,
        Some(
            Call::Read {
                bytes: programmed,
                ..
            },
        ) => ok && bytes == programmed,
        Some(_) => ok,
    }
}
