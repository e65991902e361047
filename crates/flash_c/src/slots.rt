//! Calls of the device and replies as C has them.

ghost use Rattle.std.specs.Prelude.{◌≡◌, IfSome};
ghost use Rattle.flash_c.specs.Slots.{act_shown, job_in, shown_of, reply_of, waived_of, next_act, next_job, next_page, call_of};

use crate::counts::{count_of, flag};
use crate::names::{NO_NAME, name_of};
use crate::shapes::{FlashCall, FlashName, FlashReply, FlashWaived};
use slot_core::NextAct;
use slot_types::{Act, JobNo, SlotReply, Waived};
use stepped_die::{Begun, Call};

/// An act: its number, its page or block, and the name that it read or wrote.
#[derive(Clone, Copy, Drop)]
pub(crate) struct Shown {
    act: u32,
    page: u32,
    name: FlashName,
}

fn act_shown(act: Act) -> Shown
    ensures { result ≡ act_shown act }
{
    let (act, page, name) = match act {
        Act::Read { page, bytes } => (1, page, name_of(bytes)),
        Act::Write { page, bytes } => (2, page, name_of(bytes)),
        Act::Trim { page } => (3, page, NO_NAME),
        Act::CopyRead { page } => (4, page, NO_NAME),
        Act::CopyProgram { page } => (5, page, NO_NAME),
        Act::Erase { block } => (6, block, NO_NAME),
    };
    Shown { act, page, name }
}

/// What a slot did; nothing where it was idle.
fn shown_of(ran: Option<(JobNo, Act)>) -> Shown
    ensures { result ≡ shown_of ran }
{
    match ran {
        Some((_, act)) => act_shown(act),
        None => Shown {
            act: 0,
            page: 0,
            name: NO_NAME,
        },
    }
}

/// The job or collection that had a slot, or 0.
fn job_in(ran: Option<(JobNo, Act)>) -> u32
    ensures { result ≡ job_in ran }
{
    match ran {
        Some((job, _)) => job.0,
        None => 0,
    }
}

pub(crate) fn waived_of(waived: Waived) -> FlashWaived
    ensures { result ≡ waived_of waived }
{
    FlashWaived {
        job: waived.number.0,
        given: waived.given,
    }
}

pub(crate) fn reply_of(caller: u32, reply: &SlotReply) -> FlashReply
    ensures { result ≡ reply_of caller reply.now }
{
    let did = shown_of(reply.ran);
    FlashReply {
        slot: reply.slot,
        act: did.act,
        job: job_in(reply.ran),
        page: did.page,
        finished: flag(reply.finished.is_some()),
        waived: count_of(reply.waived.len()),
        caller,
        name: did.name,
    }
}

/// Who began a slot, or 0 where none has begun.
pub(crate) fn caller_of(begun: Option<Begun>) -> u32
    ensures { IfSome begun (λ begun. result ≡ begun.caller) }
{
    match begun {
        Some(begun) => begun.caller,
        None => 0,
    }
}

/// The number of the act that a slot will do; 0 where it is idle.
fn next_act(runs: Option<(JobNo, NextAct)>) -> u32
    ensures { result ≡ next_act runs }
{
    match runs {
        None => 0,
        Some((_, NextAct::Read { .. })) => 1,
        Some((_, NextAct::Write { .. })) => 2,
        Some((_, NextAct::Trim { .. })) => 3,
        Some((_, NextAct::CopyRead { .. })) => 4,
        Some((_, NextAct::CopyProgram { .. })) => 5,
        Some((_, NextAct::Erase { .. })) => 6,
    }
}

/// The job or collection that will have a slot, or 0.
fn next_job(runs: Option<(JobNo, NextAct)>) -> u32
    ensures { result ≡ next_job runs }
{
    match runs {
        Some((job, _)) => job.0,
        None => 0,
    }
}

/// The logical page of no act.
const NO_PAGE: u32 = u32::MAX;

/// The logical page that a slot will read, write, trim or copy.
fn next_page(runs: Option<(JobNo, NextAct)>) -> u32
    ensures { result ≡ next_page runs }
{
    match runs {
        Some((_, NextAct::Read { page })) => page,
        Some((_, NextAct::Write { page })) => page,
        Some((_, NextAct::Trim { page })) => page,
        Some((_, NextAct::CopyRead { page })) => page,
        Some((_, NextAct::CopyProgram { page })) => page,
        Some((_, NextAct::Erase { .. })) => NO_PAGE,
        None => NO_PAGE,
    }
}

fn made(
    slot: u32,
    act: u32,
    job: u32,
    logical: u32,
    kind: u32,
    block: u32,
    page: u32,
    last: u32,
    name: FlashName,
    erases: u32,
) -> FlashCall
    ensures { result
        ≡ record {
          kind = kind;
          block = block;
          page = page;
          last = last;
          slot = slot;
          act = act;
          job = job;
          logical = logical;
          name = name;
          erases = erases;
        } }
{
    FlashCall {
        kind,
        block,
        page,
        last,
        slot,
        act,
        job,
        logical,
        name,
        erases,
    }
}

pub(crate) fn call_of(begun: Begun) -> FlashCall
    ensures { result ≡ call_of begun }
{
    let slot = begun.slot;
    let act = next_act(begun.runs);
    let job = next_job(begun.runs);
    let logical = next_page(begun.runs);
    match begun.call {
        None => made(slot, act, job, logical, 0, 0, 0, 0, NO_NAME, 0),
        Some(Call::Read { place, bytes }) => {
            made(
                slot,
                act,
                job,
                logical,
                1,
                place.block,
                place.page,
                0,
                name_of(bytes),
                0,
            )
        }
        Some(
            Call::Program {
                place,
                bytes,
                erases,
            },
        ) => {
            made(
                slot,
                act,
                job,
                logical,
                2,
                place.block,
                place.page,
                0,
                name_of(bytes),
                erases,
            )
        }
        Some(Call::Erase { block, last }) => {
            made(slot, act, job, logical, 3, block, 0, flag(last), NO_NAME, 0)
        }
        Some(Call::Trim { .. }) => made(slot, act, job, logical, 4, 0, 0, 0, NO_NAME, 0),
    }
}
