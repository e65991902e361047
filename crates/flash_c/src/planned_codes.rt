//! The numbers of refusals of a die that keeps its plan.

ghost use Rattle.std.specs.Prelude.{◌≡◌};
ghost use Rattle.flash_c.specs.Planned.{ask_code, ask_why, life_code, plan_code, plan_why, slot_code, task_code, terms_code, unasked};
ghost use Rattle.flash_c.specs.PlannedResuming.{three, unresumed_code, unresumed_why, unwritten_code, unwritten_why};

use crate::codes::{
    ASK_WAITS, BAD_TERMS, BEGUN, CHECKPOINT_STANDS, LIFE_END, NO_LIFE, NO_MEMORY, NOT_BEGUN,
    NOT_STOCKED, OTHER_SHAPE, SHORT_LIFE, TOO_FEW_PAGES, TOO_MANY_WRITES, TOO_MUCH_DEMAND,
    TOO_SOON, WAITS_ALREADY, WORN_OUT, fault_why, no_numbers, of_fault, of_refusal, of_renewal,
    renewal_why,
};
use crate::shapes::{FlashUnasked, FlashUnresumed, FlashWhy};
use demand_rules::{DemandFault, TermsFault};
use planned_die::PlanRefusal;
use slot_core::{CheckpointRefusal, ResumeRefusal};
use slot_types::Refusal;
use stepped_die::StepRenewalRefusal;
use stepped_plan::{
    AskRefusal, AskStop, LifeStop, OngoingCheckpointRefusal, OngoingRefusal, OngoingResumeRefusal,
    PlanAskStop, PlanCheckpointRefusal, PlanResumeRefusal, PlanSlotStop, SlotStop,
};

/// The number of a fault of terms.
fn of_terms(fault: TermsFault) -> u32
    ensures { result ≡ terms_code fault }
{
    match fault {
        TermsFault::Demand(DemandFault::Limits(_)) => BAD_TERMS,
        TermsFault::Demand(_) => TOO_MUCH_DEMAND,
        TermsFault::Supply(_) => TOO_FEW_PAGES,
    }
}

/// The number of why no die is made.
pub(crate) fn of_no_plan(refusal: OngoingRefusal) -> u32
    ensures { result ≡ plan_code refusal }
{
    match refusal {
        OngoingRefusal::Plan(PlanRefusal::Die(refusal)) => of_refusal(refusal),
        OngoingRefusal::Plan(PlanRefusal::Terms(fault)) => of_terms(fault),
        OngoingRefusal::Plan(PlanRefusal::NoLife) => NO_LIFE,
        OngoingRefusal::ShortLife { .. } => SHORT_LIFE,
    }
}

/// The task that it names.
pub(crate) fn no_plan_why(refusal: OngoingRefusal) -> FlashUnasked
    ensures { result ≡ plan_why refusal }
{
    match refusal {
        OngoingRefusal::ShortLife { task } => unasked(0, task),
        _ => unasked(0, 0),
    }
}

pub(crate) fn unasked(next: u64, number: u32) -> FlashUnasked
    ensures { result ≡ unasked next number }
{
    FlashUnasked { next, number }
}

/// The number of why a die takes nothing more.
fn of_life(stop: LifeStop) -> u32
    ensures { result ≡ life_code stop }
{
    match stop {
        LifeStop::DieStopped => of_refusal(Refusal::DieStopped),
        LifeStop::ClockEnd => of_refusal(Refusal::ClockEnd),
        LifeStop::WornOut { .. } => WORN_OUT,
    }
}

/// The number of why an ask is refused.
pub(crate) fn of_ask(stop: PlanAskStop) -> u32
    ensures { result ≡ ask_code stop }
{
    match stop {
        PlanAskStop::Begun => BEGUN,
        PlanAskStop::Ask(AskStop::Ended(stop)) => of_life(stop),
        PlanAskStop::Ask(AskStop::WaitsAlready) => WAITS_ALREADY,
        PlanAskStop::Ask(AskStop::Plan(refusal)) => of_plan(refusal),
    }
}

/// The number of why the plan refuses an ask.
fn of_plan(refusal: AskRefusal) -> u32
    ensures { result ≡ task_code refusal }
{
    match refusal {
        AskRefusal::DieStopped => of_refusal(Refusal::DieStopped),
        AskRefusal::UnknownTask => of_refusal(Refusal::UnknownTask),
        AskRefusal::EmptyJob => of_refusal(Refusal::EmptyJob),
        AskRefusal::TooManyOps { .. } => of_refusal(Refusal::TooManyOps),
        AskRefusal::BadPage { page } => of_refusal(Refusal::BadPage { page }),
        AskRefusal::TooManyWrites { .. } => TOO_MANY_WRITES,
        AskRefusal::TooSoon { .. } => TOO_SOON,
        AskRefusal::LifeEnd => LIFE_END,
    }
}

/// The numbers that a refused ask has.
pub(crate) fn ask_why(stop: PlanAskStop) -> FlashUnasked
    ensures { result ≡ ask_why stop }
{
    match stop {
        PlanAskStop::Ask(AskStop::Plan(AskRefusal::TooSoon { next })) => unasked(next, 0),
        PlanAskStop::Ask(AskStop::Plan(AskRefusal::TooManyOps { most })) => unasked(0, most),
        PlanAskStop::Ask(AskStop::Plan(AskRefusal::BadPage { page })) => unasked(0, page),
        PlanAskStop::Ask(AskStop::Plan(AskRefusal::TooManyWrites { most })) => unasked(0, most),
        PlanAskStop::Ask(AskStop::Ended(LifeStop::WornOut { block })) => unasked(0, block),
        _ => unasked(0, 0),
    }
}

/// The number of why no slot is begun, or ended.
pub(crate) fn of_slot(stop: PlanSlotStop) -> u32
    ensures { result ≡ slot_code stop }
{
    match stop {
        PlanSlotStop::Begun => BEGUN,
        PlanSlotStop::NotBegun => NOT_BEGUN,
        PlanSlotStop::CheckpointStands => CHECKPOINT_STANDS,
        PlanSlotStop::Slot(SlotStop::DeviceFault) => of_refusal(Refusal::DeviceFault),
        PlanSlotStop::Slot(SlotStop::Ended(stop)) => of_life(stop),
    }
}

/// The number of why no checkpoint is taken.
pub(crate) fn of_unwritten(refusal: PlanCheckpointRefusal) -> u32
    ensures { result ≡ unwritten_code refusal }
{
    match refusal {
        PlanCheckpointRefusal::Begun => BEGUN,
        PlanCheckpointRefusal::Die(OngoingCheckpointRefusal::AskWaits { .. }) => ASK_WAITS,
        PlanCheckpointRefusal::Die(OngoingCheckpointRefusal::Die(CheckpointRefusal::NoMemory)) => {
            NO_MEMORY
        }
        PlanCheckpointRefusal::Die(
            OngoingCheckpointRefusal::Die(CheckpointRefusal::NotRenewable { why }),
        ) => of_renewal(StepRenewalRefusal::Die(why)),
    }
}

/// The job, block or task that it has.
pub(crate) fn unwritten_why(refusal: PlanCheckpointRefusal) -> FlashWhy
    ensures { result ≡ unwritten_why refusal }
{
    match refusal {
        PlanCheckpointRefusal::Die(OngoingCheckpointRefusal::AskWaits { task }) => FlashWhy {
            first: task,
            second: 0,
        },
        PlanCheckpointRefusal::Die(
            OngoingCheckpointRefusal::Die(CheckpointRefusal::NotRenewable { why }),
        ) => renewal_why(StepRenewalRefusal::Die(why)),
        _ => no_numbers(),
    }
}

pub(crate) fn three(first: u32, second: u32, third: u32) -> FlashUnresumed
    ensures { result ≡ three first second third }
{
    FlashUnresumed {
        first,
        second,
        third,
    }
}

/// The number of why no die goes on from a checkpoint, or where a mount ended.
pub(crate) fn of_unresumed(refusal: OngoingResumeRefusal) -> u32
    ensures { result ≡ unresumed_code refusal }
{
    match refusal {
        OngoingResumeRefusal::Plan(PlanResumeRefusal::Die(ResumeRefusal::OtherDevice)) => {
            OTHER_SHAPE
        }
        OngoingResumeRefusal::Plan(PlanResumeRefusal::Die(ResumeRefusal::Unfit { fault })) => {
            of_fault(fault)
        }
        OngoingResumeRefusal::Plan(PlanResumeRefusal::Terms(fault)) => of_terms(fault),
        OngoingResumeRefusal::Plan(PlanResumeRefusal::NoLife) => NO_LIFE,
        OngoingResumeRefusal::Plan(PlanResumeRefusal::NotStocked(_)) => NOT_STOCKED,
        OngoingResumeRefusal::ShortLife { .. } => SHORT_LIFE,
    }
}

/// What it names.
pub(crate) fn unresumed_why(refusal: OngoingResumeRefusal) -> FlashUnresumed
    ensures { result ≡ unresumed_why refusal }
{
    match refusal {
        OngoingResumeRefusal::Plan(PlanResumeRefusal::Die(ResumeRefusal::Unfit { fault })) => {
            let why = fault_why(fault);
            three(why.first, why.second, 0)
        }
        OngoingResumeRefusal::Plan(PlanResumeRefusal::NotStocked(short)) => {
            three(short.task, short.have, short.need)
        }
        OngoingResumeRefusal::ShortLife { task } => three(task, 0, 0),
        _ => three(0, 0, 0),
    }
}
