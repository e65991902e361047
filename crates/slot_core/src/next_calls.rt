//! Which call of the device the next slot will make.

ghost use Rattle.std.specs.Prelude.{◌≡◌, ◌<◌, ◌≤◌, ◌↔◌, ◌⊎◌, [], true, false, length, slice_index, IfSome, IfOk, IfErr, OnErr};
ghost use Rattle.slot_types.specs.Operations.{is_write, page_of};
ghost use Rattle.die_log.specs.Model.Log.{Log, now};
ghost use Rattle.die_log.specs.Model.NeededCalls.{needed_call};
ghost use Rattle.die_log.specs.Model.Start.{Start, over};
ghost use Rattle.slot_core.specs.Device.{flash_of};
ghost use Rattle.slot_core.specs.HeadSlots.{IsHeadSlot, IsFirstSlot};
ghost use Rattle.slot_core.specs.Agreement.{AgreeWithLog};
ghost use Rattle.slot_core.specs.NextSlot.{kind_of_op, kind_of_step, next_slot};
ghost use Rattle.slot_core.specs.NextHeadSteps.{op_call};
ghost use Rattle.slot_core.specs.TableLog.{log_of};
ghost use Rattle.slot_core.specs.HeadSteps.{is_fresh, HeadFits};

use crate::die_core::DieCore;
use crate::next_slot::{NextAct, NextSlot};
use event_log::EventLog;
use flash_die::{Nand, NandCall};
use flash_volume::{CollectStep, Volume};
use job_table::{Job, JobTable};
use log_start::LogStart;
use slot_types::{JobNo, MAX_SLOT, Op, Refusal, TaskNo, Waived, WaivedList};
use std::alloc::Global;

/// What an operation will be, without its bytes.
fn kind_of_op(op: Op) -> NextAct
    ensures { result ≡ kind_of_op op }
{
    match op {
        Op::Read(page) => NextAct::Read { page },
        Op::Write(page, _) => NextAct::Write { page },
        Op::Trim(page) => NextAct::Trim { page },
    }
}

/// What a step of a collection will be, without its bytes.
fn kind_of_step(step: CollectStep) -> NextAct
    ensures { result ≡ kind_of_step step }
{
    match step {
        CollectStep::Read { page, .. } => NextAct::CopyRead { page },
        CollectStep::Program { page, .. } => NextAct::CopyProgram { page },
        CollectStep::Erase { block } => NextAct::Erase { block },
    }
}

/// The call that an operation of a job of the task needs.
fn op_call<N: Nand>(volume: &Volume<N>, task: TaskNo, op: Op) -> Option<NandCall>
    requires alive { volume.now.failed ≡ false }
    requires task { task < length volume.now.accounts.plan.caps }
    requires page { page_of op < length volume.now.pages }
    requires held { is_write op ≡ true → 0 < slice_index volume.now.accounts.holds task }
    ensures { result ≡ op_call N.blocks volume.now op }
{
    match op {
        Op::Read(page) => match volume.place(page) {
            Some(place) => Some(NandCall::Read(place)),
            None => None,
        },
        Op::Write(page, bytes) => Some(NandCall::Program(
            volume.next_place(task),
            Some(page),
            bytes,
        )),
        Op::Trim(_) => None,
    }
}

/// What a head will do that is a job, or a collection that has begun.
#[inline(always)]
fn next_head_slot<N: Nand>(volume: &Volume<N>, number: JobNo, job: &Job) -> NextSlot
    requires alive { volume.now.failed ≡ false }
    requires fits { HeadFits N.blocks volume.now job.now }
    ensures { IsHeadSlot N.blocks volume.now job.now number result }
{
    if job.collects() {
        run_slot(volume, number, job)
    } else {
        op_slot(volume, number, job)
    }
}

/// The next step of a collection.
fn run_slot<N: Nand>(volume: &Volume<N>, number: JobNo, job: &Job) -> NextSlot
    requires alive { volume.now.failed ≡ false }
    requires collects { job.now.collects ≡ true }
    requires fits { HeadFits N.blocks volume.now job.now }
    ensures { IsHeadSlot N.blocks volume.now job.now number result }
{
    let step = volume.next_step(job.task());
    NextSlot {
        ran: Some((number, kind_of_step(step))),
        call: Some(step.call()),
    }
}

/// The next operation of a job.
#[inline(always)]
fn op_slot<N: Nand>(volume: &Volume<N>, number: JobNo, job: &Job) -> NextSlot
    requires alive { volume.now.failed ≡ false }
    requires plain { job.now.collects ≡ false }
    requires fits { HeadFits N.blocks volume.now job.now }
    ensures { IsHeadSlot N.blocks volume.now job.now number result }
{
    let Some(op) = job.next_op() else {
        unreachable!()
    };
    NextSlot {
        ran: Some((number, kind_of_op(op))),
        call: op_call(volume, job.task(), op),
    }
}

/// What a head will do that is a collection which begins.
fn first_head_slot<N: Nand>(volume: &Volume<N>, number: JobNo) -> NextSlot
    requires { volume.now.failed ≡ false }
    ensures { IsFirstSlot N.blocks volume.now number result }
{
    match volume.first_step() {
        Some(step) => NextSlot {
            ran: Some((number, kind_of_step(step))),
            call: Some(step.call()),
        },
        None => NextSlot {
            ran: None,
            call: None,
        },
    }
}

/// Whether it is a collection that has not begun.
fn is_fresh(job: &Job) -> bool
    ensures { result ≡ is_fresh job.now }
{
    job.collects() && job.work() == 0
}

/// Looks at the head of the present slot of a die that isn't stopped, and answers what the slot will carry, unless the head is
/// a collection that has not begun. It takes no memory, and changes nothing.
fn look_at_head<N: Nand>(
    volume: &Volume<N>,
    table: &mut JobTable,
    present: u32,
    _events: &EventLog,
    _start: &LogStart,
) -> Option<NextSlot>
    ghost from: { Start × Log }
    requires alive { volume.now.failed ≡ false }
    requires few { present < MAX_SLOT }
    requires clock { table.old.clock ≤ present }
    requires kept { AgreeWithLog (over volume.now.accounts.plan from.0) from.1 present table.old
        volume.now.failed (flash_of N.blocks volume.now) }
    ensures next { IfSome result (λ next.
        next ≡ next_slot (over volume.now.accounts.plan from.0) from.1) }
    ensures table { table.new ≡ record table.old { clock = present } }
{
    let Some(number) = table.head(present) else {
        return Some(NextSlot {
            ran: None,
            call: None,
        });
    };
    match table.job(number) {
        None => unreachable!(),
        Some(job) => {
            if is_fresh(&job) {
                return None;
            }
            Some(next_head_slot(volume, number, &job))
        }
    }
}

/// Looks ahead at the present slot of a die that isn't stopped: passes over the collections that it will waive, and
/// answers what its head will do. It takes no memory, and changes nothing.
#[inline(never)]
fn look_ahead<N: Nand>(
    volume: &Volume<N>,
    table: &mut JobTable,
    said: &mut WaivedList,
    present: u32,
    _events: &EventLog,
    _start: &LogStart,
) -> NextSlot
    ghost from: { Start × Log }
    requires alive { volume.now.failed ≡ false }
    requires unsaid { said.old ≡ [] }
    requires few { present < MAX_SLOT }
    requires clock { table.old.clock ≤ present }
    requires kept { AgreeWithLog (over volume.now.accounts.plan from.0) from.1 present table.old
        volume.now.failed (flash_of N.blocks volume.now) }
    ensures next { result ≡ next_slot (over volume.now.accounts.plan from.0) from.1 }
    ensures table { table.new ≡ record table.old { clock = present } }
{
    let mut spare = volume.spare();
    loop {
        let Some(number) = table.head_after(present, said.as_slice()) else {
            return NextSlot {
                ran: None,
                call: None,
            };
        };
        match table.job(number) {
            None => unreachable!(),
            Some(job) => {
                if !is_fresh(&job) {
                    return next_head_slot(volume, number, &job);
                }
                if spare < volume.plan().alpha {
                    return first_head_slot(volume, number);
                }
                let given = volume.given(job.task());
                said.push_within(Waived { number, given });
                spare -= given;
            }
        }
    }
}

impl<N: Nand> DieCore<N> {
    /// What the next slot will carry, and the one call of the device that it will make, if it makes one. It takes no
    /// memory, and changes nothing. Where the head is a job it takes constant time, except for what is released by
    /// then; each collection that is waived before the head costs some steps more.
    ///
    /// The refusals, in this order: `DieStopped`, where a fault has stopped the die; `ClockEnd`, where the present slot
    /// is 1,048,576.
    pub fn next_call(&mut self, alloc: Global) -> Result<NextSlot, Refusal>
        ensures stopped { (result ≡ Err Refusal.DieStopped) ↔ (self.old.stopped ≡ true) }
        ensures end { self.old.stopped ≡ false
            → ((result ≡ Err Refusal.ClockEnd) ↔ (MAX_SLOT ≤ now self.old.log)) }
        ensures next { IfOk result (λ next. next ≡ next_slot self.old.start self.old.log) }
        ensures needed { IfOk result (λ next. next.call ≡ needed_call self.old.start self.old.log) }
        ensures refused { IfErr result (λ refusal.
            (refusal ≡ Refusal.DieStopped) ⊎ (refusal ≡ Refusal.ClockEnd)) }
        ensures unchanged { self.new ≡ self.old }
    {
        if self.volume.failed() {
            return Err(Refusal::DieStopped);
        }
        if self.present >= MAX_SLOT {
            return Err(Refusal::ClockEnd);
        }
        // Most slots waive nothing, and need no list of waivers.
        if let Some(next) = look_at_head(
            &self.volume,
            &mut self.table,
            self.present,
            &self.events,
            &self.start,
        ) {
            return Ok(next);
        }
        let mut said = WaivedList::new(alloc);
        let next = look_ahead(
            &self.volume,
            &mut self.table,
            &mut said,
            self.present,
            &self.events,
            &self.start,
        );
        Ok(next)
    }
}
