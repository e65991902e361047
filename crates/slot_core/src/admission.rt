//! Jobs and collections that arrive at a die.

ghost use Rattle.std.specs.Prelude.{◌≡◌, ◌∷◌, ◌+◌, ◌^◌, ◌<◌, ◌≤◌, true, false, length, IsOk, IfOk, OnOk, OnErr};
ghost use Rattle.std.specs.Prelude.{[], if◌then◌else◌};
ghost use Rattle.std.specs.Result.{result_err};
ghost use Rattle.slot_types.specs.Refusal.{FailsForMemory};
ghost use Rattle.slot_types.specs.declared.replies.Reply.{Reply};
ghost use Rattle.job_table.specs.Table.{with_job};
ghost use Rattle.job_table.specs.Entering.{MayEnter, job_of};
ghost use Rattle.job_table.specs.Reserves.{Covers};
ghost use Rattle.slot_core.specs.Entering.{arrival_deed};
ghost use Rattle.die_log.specs.Model.Work.{is_collecting as collecting};
ghost use Rattle.die_log.specs.Model.Answers.{refusal_of};
ghost use Rattle.slot_core.specs.Calls.{IsCall, reply_as};

use crate::die_core::DieCore;
use event_log::{Deed, EventLog};
use flash_die::Nand;
use job_table::{CountedOps, JobTable};
use slot_types::{
    Event, JobHead, JobNo, LentOps, MAX_JOBS, MAX_OPS, MAX_SLOT, Op, OpList, Refusal, TaskNo,
};
use std::alloc::Global;

/// What the log notes of a job or a collection that was accepted under a number.
fn deed_of_arrival(collects: bool, number: JobNo) -> Deed
    ensures { result ≡ arrival_deed collects number }
{
    if collects {
        Deed::Collect { number }
    } else {
        Deed::Submit { number }
    }
}

/// For how many waivers room is reserved with a job or a collection, so that no slot takes memory for them: a task has
/// one collection at a time.
fn waivers_with(collects: bool, table: &JobTable) -> usize
    ensures { result ≡ (if collects then table.now.tasks else 0) }
{
    if collects { table.tasks() } else { 0 }
}

/// Enters an accepted job or collection into the table and the log, or finds no memory and changes neither. The log
/// keeps room for `slots` slots, and for what else is reserved.
fn enter(
    table: &mut JobTable,
    events: &mut EventLog,
    caller: u32,
    head: JobHead,
    ops: &CountedOps,
    slots: u32,
) -> Result<JobNo, Refusal>
    requires running { table.old.ended ≡ false }
    requires few { length table.old.jobs < MAX_JOBS }
    requires few_events { length events.old.notes + 1 < 2 ^ 32 }
    requires reserved { slots + table.old.reserve.arrivals ≤ events.old.room }
    requires few_ops { length ops.now ≤ MAX_OPS }
    requires collection { MayEnter table.old head ops.now }
    ensures table { OnOk result (table.new ≡ with_job table.old (job_of head ops.now)) }
    ensures number { IfOk result (λ number. number ≡ length table.old.jobs) }
    ensures logged { IfOk result (λ number.
        events.new.notes
        ≡ record { caller = caller; deed = arrival_deed head.collects number; waived = [] }
        ∷ events.old.notes) }
    ensures refused { FailsForMemory result }
    ensures table_stays { OnErr result (table.new ≡ table.old) }
    ensures log_stays { OnErr result (events.new.notes ≡ events.old.notes) }
    ensures marked { events.new.marked ≡ events.old.marked }
    ensures reserved { slots + table.new.reserve.arrivals ≤ events.new.room }
    ensures succeeds { Covers table.old.reserve (length ops.now) → IsOk result }
    ensures waiver_room { OnOk result (table.old.reserve.arrivals ≡ 0
        → (if head.collects then table.old.tasks else 0) ≤ events.new.waiver_room) }
    ensures waiver_room_stays { events.old.waiver_room ≤ events.new.waiver_room }
    ensures memory { events.old.memory ≤ events.new.memory }
    ensures waiver_memory { events.old.waiver_memory ≤ events.new.waiver_memory }
{
    let collects = head.collects;
    let arrivals = table.reserved_arrivals();
    // With a reserved arrival its entry and its waiver are.
    let waivers = if arrivals == 0 {
        waivers_with(collects, table)
    } else {
        0
    };
    events.reserve(slots as usize + arrivals.max(1) as usize, waivers)?;
    let number = table.add(head, ops)?;
    events.push_reserved(caller, deed_of_arrival(collects, number), &[]);
    Ok(number)
}

impl<N: Nand> DieCore<N> {
    /// The operations of a job, counted, or why a die that isn't stopped refuses it.
    fn checked_ops<'a>(
        &self,
        task: TaskNo,
        release: u32,
        due: u32,
        ops: &LentOps<'a>,
    ) -> Result<CountedOps<'a>, Refusal>
        requires { self.now.stopped ≡ false }
        ensures refusal { result_err result
            ≡ refusal_of self.now.start self.now.log (Event.Submit task release due ops.now) }
        ensures ops { IfOk result (λ counted. counted ≡ ops.now) }
    {
        let plan = self.volume.plan();
        if task.0 as usize >= plan.caps.len() {
            return Err(Refusal::UnknownTask);
        }
        if ops.len() == 0 {
            return Err(Refusal::EmptyJob);
        }
        if ops.len() > MAX_OPS as usize {
            return Err(Refusal::TooManyOps);
        }
        let counted = match CountedOps::count(ops, plan.logical) {
            Ok(counted) => counted,
            Err(page) => return Err(Refusal::BadPage { page }),
        };
        if release < self.present {
            return Err(Refusal::ReleasePast { now: self.present });
        }
        if due <= release || due > MAX_SLOT {
            return Err(Refusal::BadDue);
        }
        if self.table.len() >= MAX_JOBS {
            return Err(Refusal::JobsFull);
        }
        let have = self.volume.balance(task);
        let need = counted.writes() as u32;
        if have < need {
            return Err(Refusal::NoTokens { have, need });
        }
        Ok(counted)
    }

    /// Accepts a job of the task, to run from slot `release` on, with the deadline `due`, and answers its number. It
    /// does its operations in order, one a slot: a read; a write, which takes a token of the task; a trim, which takes
    /// none and calls no device.
    ///
    /// The refusals, of which the first that stands is answered and nothing is changed: `DieStopped`; `UnknownTask`;
    /// `EmptyJob`; `TooManyOps`, above 64; `BadPage`, with the first page that the die doesn't have; `ReleasePast`,
    /// where the release is below the present slot; `BadDue`, where the deadline isn't above the release or is above
    /// 1,048,576; `JobsFull`, where 65,536 were accepted; `NoTokens`, where the task's balance is below the job's
    /// writes; `NoMemory`. The operations are given up then.
    pub fn submit(
        &mut self,
        alloc: Global,
        caller: u32,
        task: TaskNo,
        release: u32,
        due: u32,
        ops: OpList,
    ) -> Result<JobNo, Refusal>
        ensures { IsCall N.ends N.failures N.never_fails caller (Event.Submit task release due ops)
            (reply_as Reply.Taken result) self.old
            self.new }
    {
        self.submit_lent(alloc, caller, task, release, due, ops.as_slice())
    }

    /// As `submit`, of operations that the caller keeps.
    pub fn submit_lent(
        &mut self,
        alloc: Global,
        caller: u32,
        task: TaskNo,
        release: u32,
        due: u32,
        ops: &[Op],
    ) -> Result<JobNo, Refusal>
        ensures { IsCall N.ends N.failures N.never_fails caller
            (Event.Submit task release due ops.now) (reply_as Reply.Taken result) self.old
            self.new }
    {
        self.submit_ops(alloc, caller, task, release, due, &LentOps::list(ops))
    }

    /// As `submit`, of operations that the caller keeps, in whichever form.
    pub(crate) fn submit_ops(
        &mut self,
        _alloc: Global,
        caller: u32,
        task: TaskNo,
        release: u32,
        due: u32,
        ops: &LentOps,
    ) -> Result<JobNo, Refusal>
        ensures { IsCall N.ends N.failures N.never_fails caller
            (Event.Submit task release due ops.now) (reply_as Reply.Taken result) self.old
            self.new }
    {
        if self.volume.failed() {
            return Err(Refusal::DieStopped);
        }
        let counted = match self.checked_ops(task, release, due, ops) {
            Ok(counted) => counted,
            Err(refusal) => return Err(refusal),
        };
        let head = JobHead {
            collects: false,
            task,
            release,
            due,
        };
        match enter(
            &mut self.table,
            &mut self.events,
            caller,
            head,
            &counted,
            self.reserved,
        ) {
            Err(refusal) => Err(refusal),
            Ok(number) => {
                // The tokens are there, so this isn't refused.
                let _ = self.volume.admit(task, counted.writes() as u32);
                Ok(number)
            }
        }
    }

    /// Whether the task has a collection that is neither done nor waived, on a die that isn't stopped.
    fn is_collecting(&self, task: TaskNo) -> bool
        requires running { self.now.stopped ≡ false }
        requires task { task < length self.now.start.plan.caps }
        ensures { result ≡ collecting self.now.start.plan self.now.log task }
    {
        self.table.is_collecting(task)
    }

    /// Why a collection is refused by a die that isn't stopped, if it is.
    fn collect_refusal(&self, task: TaskNo, release: u32, due: u32) -> Option<Refusal>
        requires { self.now.stopped ≡ false }
        ensures { result ≡ refusal_of self.now.start self.now.log (Event.Collect task release due) }
    {
        if task.0 as usize >= self.volume.plan().caps.len() {
            return Some(Refusal::UnknownTask);
        }
        if release < self.present {
            return Some(Refusal::ReleasePast { now: self.present });
        }
        if due <= release || due > MAX_SLOT {
            return Some(Refusal::BadDue);
        }
        if self.is_collecting(task) {
            return Some(Refusal::CollectorBusy);
        }
        if self.table.len() >= MAX_JOBS {
            return Some(Refusal::JobsFull);
        }
        None
    }

    /// Accepts a collection for the task, to run from slot `release` on, with the deadline `due`, and answers its
    /// number.
    ///
    /// The refusals, of which the first that stands is answered and nothing is changed: `DieStopped`; `UnknownTask`;
    /// `ReleasePast`, where the release is below the present slot; `BadDue`, where the deadline isn't above the release
    /// or is above 1,048,576; `CollectorBusy`, where the task has a collection that is neither done nor waived;
    /// `JobsFull`, where 65,536 were accepted; `NoMemory`.
    pub fn collect(
        &mut self,
        _alloc: Global,
        caller: u32,
        task: TaskNo,
        release: u32,
        due: u32,
    ) -> Result<JobNo, Refusal>
        ensures { IsCall N.ends N.failures N.never_fails caller (Event.Collect task release due)
            (reply_as Reply.Taken result) self.old
            self.new }
    {
        if self.volume.failed() {
            return Err(Refusal::DieStopped);
        }
        match self.collect_refusal(task, release, due) {
            Some(refusal) => return Err(refusal),
            None => {}
        }
        let head = JobHead {
            collects: true,
            task,
            release,
            due,
        };
        enter(
            &mut self.table,
            &mut self.events,
            caller,
            head,
            &CountedOps::none(),
            self.reserved,
        )
    }
}
