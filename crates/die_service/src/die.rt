//! A die, as its passes use it. The condition of each call: the pass is of this die.

ghost use Rattle.std.specs.Prelude.{◌≡◌, [], length, IfOk, IfErr};
ghost use Rattle.die_log.specs.Model.Log.{now};
ghost use Rattle.die_log.specs.Model.Answers.{IsAccepted};
ghost use Rattle.slot_core.specs.Outcomes.{worst_of};
ghost use Rattle.turn_lock.specs.Log.{calls_by};
ghost use Rattle.turn_lock.specs.Views.{IsLive, IsSamePass};
ghost use Rattle.turn_lock.specs.Passes.{Parts, IsFull, IsJoined, IsOut};
ghost use Rattle.die_service.specs.Replies.{HasExactLog};
ghost use Rattle.die_service.specs.Answers.{SaysOutcome, SaysCertificate};
ghost use Rattle.die_service.specs.Passes.{HasGrown, AddsEntry, AddsNone, Sees, IsTakenReply, IsSlotReply};

use crate::book::DieBook;
use crate::queries::{Answer, Query};
use crate::refused::RefusedAt;
use flash_die::Nand;
use late_cert::Certificate;
use slot_core::{Outcome, Worst};
use slot_types::{Event, JobNo, OpList, Refusal, Reply, SlotReply, TaskNo};
use std::marker::Model;
use std::sync::Wait;
use turn_lock::{Pass, Turned};

/// A caller's number on a die, and what it has seen of the die's calls.
pub type DiePass<N> = Pass<DieBook<N>>;

/// A die that one pass at a time uses. Contracts see which lock it has.
#[derive(Drop)]
pub struct Die<N: Nand> {
    pub(crate) turned: Turned<DieBook<N>>,
}

impl<N: Nand> Model for Die<N> {
    ghost use Rattle.atomic_table.specs.Seated.{TableId};

    ghost Value = { TableId };

    ghost view = { λ d. d.turned };
}

/// The number under which a job or collection was taken.
fn taken_number(reply: &Reply) -> JobNo
    requires { IsTakenReply reply.now }
    ensures { reply.now ≡ Reply.Taken result }
{
    match reply {
        Reply::Taken(number) => *number,
        _ => unreachable!(),
    }
}

/// What was done in a slot.
fn slot_reply(reply: Reply) -> SlotReply
    requires { IsSlotReply reply }
    ensures { reply ≡ Reply.Slot result }
{
    match reply {
        Reply::Slot(slot) => slot,
        _ => unreachable!(),
    }
}

impl<N: Nand> Die<N> {
    /// Carries out an event for the pass.
    pub(crate) fn apply<R: Wait>(
        &self,
        rt: &R,
        pass: &mut DiePass<N>,
        event: Event,
    ) -> Result<Reply, RefusedAt>
        requires { pass.old.lock ≡ self.now }
        ensures same { IsSamePass pass.old pass.new }
        ensures accepted { IfOk result IsAccepted }
        ensures added { IfOk result (λ reply. AddsEntry pass.old.view event reply pass.new.view) }
        ensures refused { IfErr result (λ refused.
            AddsNone N.never_fails pass.old.view event refused pass.new.view) }
    {
        self.turned.apply(rt, pass, event)
    }

    /// Accepts a job of the task, to run from slot `release` on, with the deadline `due`, and answers its number. May
    /// wait for the turn.
    ///
    /// The refusals, of which the first that stands is answered, and no entry is made: `DieStopped`; `UnknownTask`;
    /// `EmptyJob`; `TooManyOps`, above 64; `BadPage`, with the first page that the die doesn't have; `ReleasePast`,
    /// where the release is below the present slot; `BadDue`, where the deadline isn't above the release or is above
    /// 1,048,576; `JobsFull`, where 65,536 were accepted; `NoTokens`, where the task's balance is below the job's
    /// writes; `NoMemory`. The operations are given up then.
    pub fn submit<R: Wait>(
        &self,
        rt: &R,
        pass: &mut DiePass<N>,
        task: TaskNo,
        release: u32,
        due: u32,
        ops: OpList,
    ) -> Result<JobNo, RefusedAt>
        requires { pass.old.lock ≡ self.now }
        ensures same { IsSamePass pass.old pass.new }
        ensures taken { IfOk result (λ number.
            AddsEntry pass.old.view (Event.Submit task release due ops) (Reply.Taken number)
            pass.new.view) }
        ensures refused { IfErr result (λ refused.
            AddsNone N.never_fails pass.old.view (Event.Submit task release due ops) refused
            pass.new.view) }
    {
        let event = Event::Submit {
            task,
            release,
            due,
            ops,
        };
        match self.apply(rt, pass, event) {
            Ok(reply) => Ok(taken_number(&reply)),
            Err(refused) => Err(refused),
        }
    }

    /// Accepts a collection for the task, to run from slot `release` on, with the deadline `due`, and answers its
    /// number. May wait for the turn.
    ///
    /// The refusals, of which the first that stands is answered, and no entry is made: `DieStopped`; `UnknownTask`;
    /// `ReleasePast`, where the release is below the present slot; `BadDue`, where the deadline isn't above the release
    /// or is above 1,048,576; `CollectorBusy`, where the task has a collection that is neither done nor waived;
    /// `JobsFull`, where 65,536 were accepted; `NoMemory`.
    pub fn collect<R: Wait>(
        &self,
        rt: &R,
        pass: &mut DiePass<N>,
        task: TaskNo,
        release: u32,
        due: u32,
    ) -> Result<JobNo, RefusedAt>
        requires { pass.old.lock ≡ self.now }
        ensures same { IsSamePass pass.old pass.new }
        ensures taken { IfOk result (λ number.
            AddsEntry pass.old.view (Event.Collect task release due) (Reply.Taken number)
            pass.new.view) }
        ensures refused { IfErr result (λ refused.
            AddsNone N.never_fails pass.old.view (Event.Collect task release due) refused
            pass.new.view) }
    {
        match self.apply(rt, pass, Event::Collect { task, release, due }) {
            Ok(reply) => Ok(taken_number(&reply)),
            Err(refused) => Err(refused),
        }
    }

    /// Carries out the present slot. May wait for the turn.
    ///
    /// The refusals, in this order, none of which makes an entry: `DieStopped`, where a fault has stopped the die;
    /// `ClockEnd`, where the present slot is 1,048,576; `NoMemory`; `DeviceFault`, where the device failed: the die is
    /// stopped from then on.
    pub fn slot<R: Wait>(&self, rt: &R, pass: &mut DiePass<N>) -> Result<SlotReply, RefusedAt>
        requires { pass.old.lock ≡ self.now }
        ensures same { IsSamePass pass.old pass.new }
        ensures answered { IfOk result (λ reply.
            AddsEntry pass.old.view Event.Slot (Reply.Slot reply) pass.new.view) }
        ensures refused { IfErr result (λ refused.
            AddsNone N.never_fails pass.old.view Event.Slot refused pass.new.view) }
    {
        match self.apply(rt, pass, Event::Slot) {
            Ok(reply) => Ok(slot_reply(reply)),
            Err(refused) => Err(refused),
        }
    }

    /// What became of the job or collection of a number. May wait for the turn.
    ///
    /// `UnknownJob` where the log has none of that number; else `NoMemory` where it is done and memory is refused for
    /// what its reads gave. Where no read gave anything, no memory is taken.
    pub fn outcome<R: Wait>(
        &self,
        rt: &R,
        pass: &mut DiePass<N>,
        job: JobNo,
    ) -> Result<Outcome, Refusal>
        requires { pass.old.lock ≡ self.now }
        ensures same { IsSamePass pass.old pass.new }
        ensures outcome { Sees pass.old.view pass.new.view (λ start log.
            SaysOutcome start log job result) }
    {
        match self.turned.ask(rt, pass, Query::Outcome(job)) {
            Answer::Outcome(result) => result,
            _ => unreachable!(),
        }
    }

    /// The done job or collection with the greatest lateness, of equal ones the one completed first, or none where
    /// nothing is done. May wait for the turn.
    pub fn worst<R: Wait>(&self, rt: &R, pass: &mut DiePass<N>) -> Option<Worst>
        requires { pass.old.lock ≡ self.now }
        ensures same { IsSamePass pass.old pass.new }
        ensures worst { Sees pass.old.view pass.new.view (λ start log.
            result ≡ worst_of start.plan log) }
    {
        match self.turned.ask(rt, pass, Query::Worst) {
            Answer::Worst(worst) => worst,
            _ => unreachable!(),
        }
    }

    /// The certificate of the worst job or collection, or none where nothing is done. The only refusal is out of
    /// memory; where nothing is done, none is taken. May wait for the turn.
    pub fn certificate<R: Wait>(
        &self,
        rt: &R,
        pass: &mut DiePass<N>,
    ) -> Result<Option<Certificate>, Refusal>
        requires { pass.old.lock ≡ self.now }
        ensures same { IsSamePass pass.old pass.new }
        ensures certificate { Sees pass.old.view pass.new.view (λ start log.
            SaysCertificate start log result) }
    {
        match self.turned.ask(rt, pass, Query::Certificate) {
            Answer::Certificate(result) => result,
            _ => unreachable!(),
        }
    }

    /// The present slot: how many slots were carried out. May wait for the turn.
    pub fn now<R: Wait>(&self, rt: &R, pass: &mut DiePass<N>) -> u32
        requires { pass.old.lock ≡ self.now }
        ensures same { IsSamePass pass.old pass.new }
        ensures now { Sees pass.old.view pass.new.view (λ start log. result ≡ now log) }
    {
        match self.turned.ask(rt, pass, Query::Now) {
            Answer::Now(slot) => slot,
            _ => unreachable!(),
        }
    }

    /// How many entries the die's log has, also while a pass has the turn: this pass has then seen them all.
    pub fn look(&self, pass: &mut DiePass<N>) -> u64
        requires { pass.old.lock ≡ self.now }
        ensures same { IsSamePass pass.old pass.new }
        ensures grown { HasGrown pass.old.view pass.new.view }
        ensures length { result ≡ length pass.new.view.seen }
        ensures own { calls_by pass.old.view.number pass.new.view.seen
            ≡ calls_by pass.old.view.number pass.old.view.seen }
    {
        self.turned.look(pass)
    }

    /// A pass with a number that no pass of this die had, which has seen what this one then has. May wait for the turn.
    ///
    /// `PassesFull` exactly where 65,536 passes were made for the die already, whether or not they were joined since.
    pub fn split_pass<R: Wait>(&self, rt: &R, pass: &mut DiePass<N>) -> Result<DiePass<N>, Refusal>
        requires { pass.old.lock ≡ self.now }
        ensures same { IsSamePass pass.old pass.new }
        ensures own { IfOk result (λ made. made.lock ≡ pass.old.lock) }
        ensures parts { IfOk result (λ made.
            Parts HasExactLog pass.old.view pass.new.view made.view) }
        ensures live { IfOk result (λ made. IsLive pass.new.view × IsLive made.view) }
        // no entry is by the new number
        ensures unused { IfOk result (λ made. calls_by made.view.number made.view.seen ≡ []) }
        ensures refused { IfErr result (λ refusal. refusal ≡ Refusal.PassesFull) }
        ensures full { IfErr result (λ _. IsFull HasExactLog pass.old.view pass.new.view) }
    {
        self.turned.split_pass(rt, pass)
    }

    /// Joins another pass of this die into this one, which keeps its number and the longer of what both had seen. The
    /// calls by each number of either pass are then those that it had seen before.
    pub fn join_pass(&self, pass: &mut DiePass<N>, other: DiePass<N>)
        requires own { pass.old.lock ≡ self.now }
        requires other { other.lock ≡ self.now }
        ensures same { pass.new.lock ≡ pass.old.lock }
        ensures joined { IsJoined pass.old.view other.view pass.new.view }
    {
        self.turned.join_pass(pass, other)
    }

    /// How many of the passes made for the die are neither this one nor joined into it. May wait for the turn.
    pub fn out<R: Wait>(&self, rt: &R, pass: &mut DiePass<N>) -> u32
        requires { pass.old.lock ≡ self.now }
        ensures same { IsSamePass pass.old pass.new }
        ensures out { IsOut HasExactLog pass.old.view result pass.new.view }
    {
        self.turned.out(rt, pass)
    }
}
