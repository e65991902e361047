//! The present slot begins with the first call in it: the next life begins, if one has ended, and what waits for the slot
//! enters.

ghost use Rattle.std.specs.Prelude.{◌≡◌, ◌≤◌, ◌<◌, ◌+◌, ℕ, List, Option, true, false, length, map, vec_capacity, slice_index_or, OnOk, OnErr, IfErr};
ghost use Rattle.die_log.specs.Model.Log.{now};
ghost use Rattle.die_log.specs.Model.Start.{Start};
ghost use Rattle.die_log.specs.Model.Lives.{Lives};
ghost use Rattle.planned_log.specs.Moves.{after_moves};
ghost use Rattle.ongoing_log.specs.Ongoing.{Ongoing, WaitingAsk, asks_of, due_at, left_at};
ghost use Rattle.planned_die.specs.Planned.{HasLived};
ghost use Rattle.ongoing_die.specs.declared.waiting.Waiting.{Waiting};
ghost use Rattle.ongoing_die.specs.Standing.{ask_in, NoneIsDue, StandsAs};
ghost use Rattle.ongoing_die.specs.OngoingCalls.{HasStopped, HasBegun, HaveOnePlan};
ghost use Rattle.ongoing_die.specs.Entering.{HasLivedOn, after_one, IsSameDie};

use crate::die_asks::ask_die;
use crate::ongoing_die::OngoingDie;
use crate::refusals::LifeStop;
use crate::waiting::{Waiting, first_release};
use flash_die::Nand;
use planned_die::{LifeRefusal, PlannedDie};
use planned_log::AskKind;
use slot_types::TaskNo;
use std::alloc::Global;

/// Begins the next life, if the present one has ended. Nothing that waits is entered.
fn live_on<N: Nand>(die: &mut PlannedDie<N>) -> Result<(), LifeStop>
    ensures ok { OnOk result (HasLivedOn die.old die.new) }
    ensures ran { OnOk result (die.old.core.stopped ≡ false) }
    ensures stopped { IfErr result (λ stop. (waiting : List (Option WaitingAsk))
        → HasStopped (record { die = die.old; waiting = waiting }) stop) }
    ensures unchanged { OnErr result (die.new ≡ die.old) }
{
    match die.renew() {
        Ok(()) => Ok(()),
        Err(LifeRefusal::NotEnded { .. }) => Ok(()),
        Err(LifeRefusal::DieStopped) => Err(LifeStop::DieStopped),
        Err(LifeRefusal::ClockEnd) => Err(LifeStop::ClockEnd),
        Err(LifeRefusal::WornOut { block }) => Err(LifeStop::WornOut { block }),
    }
}

/// Enters the ask of a task, if one waits for slot `clock`: a burst, of one job where it was asked for as one.
fn enter_one<N: Nand>(
    die: &mut PlannedDie<N>,
    alloc: Global,
    clock: u64,
    task: u32,
    waiting: &mut Waiting,
)
    requires runs { die.old.core.stopped ≡ false }
    ensures log { (earlier : Lives) → HasLived die.old earlier
        → die.new.core.log ≡ after_one die.old.core.start die.old.terms earlier die.old.life die.old.core.log task
        (due_at clock (ask_in waiting.old)) }
    ensures lived { (earlier : Lives) → HasLived die.old earlier → HasLived die.new earlier }
    ensures same { IsSameDie die.old die.new }
    ensures left { ask_in waiting.new ≡ left_at clock (ask_in waiting.old) }
    ensures room { vec_capacity waiting.new.ops ≡ vec_capacity waiting.old.ops }
{
    die.keeps_plan();
    if !waiting.waits || waiting.until != clock {
        return;
    }
    waiting.waits = false;
    // It is never refused, as it was tested when it was asked for.
    let _ = ask_die(
        die,
        alloc,
        waiting.caller,
        AskKind::Burst,
        TaskNo(task),
        waiting.ops.as_slice(),
    );
}

/// Enters what waits for slot `clock`, task by task.
fn enter_waiting<N: Nand>(
    die: &mut PlannedDie<N>,
    alloc: Global,
    clock: u64,
    waiting: &mut Vec<Waiting>,
)
    requires runs { die.old.core.stopped ≡ false }
    requires few { length waiting.old.items ≤ 16 }
    ensures log { (earlier : Lives) → HasLived die.old earlier
        → die.new.core.log ≡ after_moves die.old.core.start die.old.terms earlier die.old.life die.old.core.log
        (asks_of 0 (map (due_at clock) (map ask_in waiting.old.items))) }
    ensures lived { (earlier : Lives) → HasLived die.old earlier → HasLived die.new earlier }
    ensures same { IsSameDie die.old die.new }
    ensures left { map ask_in waiting.new.items ≡ map (left_at clock) (map ask_in waiting.old.items) }
    ensures room { (task : ℕ) (d : Waiting) → vec_capacity (slice_index_or waiting.new.items task d).ops
        ≡ vec_capacity (slice_index_or waiting.old.items task d).ops }
{
    for task in 0..waiting.len() {
        enter_one(die, alloc, clock, task as u32, &mut waiting[task]);
    }
}

impl<N: Nand> OngoingDie<N> {
    /// Whether the present slot begins with nothing.
    #[inline(always)]
    fn is_quiet(&self) -> bool
        ensures runs { result ≡ true → self.now.die.core.stopped ≡ false }
        ensures early { result ≡ true → now self.now.die.core.log < self.now.die.life }
        ensures none_due { result ≡ true → NoneIsDue (self.now.die.first + now self.now.die.core.log) self.now.waiting }
    {
        !self.die.core().is_stopped() && self.die.first() + u64::from(self.die.now()) < self.quiet
    }

    /// The next life begins, if the present one has ended, and what waits for the present slot enters.
    fn enter_slot(&mut self, alloc: Global) -> Result<(), LifeStop>
        ensures ok { OnOk result ((first : Start) (d : Ongoing) → StandsAs first d self.old
            → HasBegun first d self.old self.new) }
        ensures plan { OnOk result (HaveOnePlan self.old self.new) }
        ensures runs { OnOk result (self.new.die.core.stopped ≡ false) }
        ensures early { OnOk result (now self.new.die.core.log < self.new.die.life) }
        ensures none_due { OnOk result (NoneIsDue (self.new.die.first + now self.new.die.core.log) self.new.waiting) }
        ensures stopped { IfErr result (HasStopped self.old) }
        ensures unchanged { OnErr result (self.new ≡ self.old) }
    {
        match live_on(&mut self.die) {
            Ok(()) => {}
            Err(stop) => return Err(stop),
        }
        let clock = self.die.first() + u64::from(self.die.now());
        enter_waiting(&mut self.die, alloc, clock, &mut self.waiting);
        self.quiet = 0;
        Ok(())
    }

    /// Looks up to which slot there is nothing to do as a slot begins.
    fn look_ahead(&mut self)
        ensures unchanged { self.new ≡ self.old }
    {
        let end = self.die.first() + u64::from(self.die.life());
        let quiet = first_release(&self.waiting, end);
        self.quiet = quiet;
    }

    /// Begins the present slot, and looks up to which one nothing is to be done.
    #[inline(never)]
    fn begin_slot(&mut self, alloc: Global) -> Result<(), LifeStop>
        ensures ok { OnOk result ((first : Start) (d : Ongoing) → StandsAs first d self.old
            → HasBegun first d self.old self.new) }
        ensures plan { OnOk result (HaveOnePlan self.old self.new) }
        ensures runs { OnOk result (self.new.die.core.stopped ≡ false) }
        ensures early { OnOk result (now self.new.die.core.log < self.new.die.life) }
        ensures none_due { OnOk result (NoneIsDue (self.new.die.first + now self.new.die.core.log) self.new.waiting) }
        ensures stopped { IfErr result (HasStopped self.old) }
        ensures unchanged { OnErr result (self.new ≡ self.old) }
    {
        match self.enter_slot(alloc) {
            Ok(()) => {}
            Err(stop) => return Err(stop),
        }
        self.look_ahead();
        Ok(())
    }

    /// Begins the present slot, if that hasn't been done. Up to the end of the life, or the first slot for which something
    /// waits, there is nothing to do, and what waits isn't looked at.
    #[inline(always)]
    pub(crate) fn go_on(&mut self, alloc: Global) -> Result<(), LifeStop>
        ensures ok { OnOk result ((first : Start) (d : Ongoing) → StandsAs first d self.old
            → HasBegun first d self.old self.new) }
        ensures plan { OnOk result (HaveOnePlan self.old self.new) }
        ensures runs { OnOk result (self.new.die.core.stopped ≡ false) }
        ensures early { OnOk result (now self.new.die.core.log < self.new.die.life) }
        ensures none_due { OnOk result (NoneIsDue (self.new.die.first + now self.new.die.core.log) self.new.waiting) }
        ensures stopped { IfErr result (HasStopped self.old) }
        ensures unchanged { OnErr result (self.new ≡ self.old) }
    {
        if self.is_quiet() {
            return Ok(());
        }
        self.begin_slot(alloc)
    }
}
