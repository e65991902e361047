//! The calls of a history.

use crate::answers::{
    put_carried, put_certificate, put_outcome, put_overdue, put_renewal, put_row, put_slot,
    put_worst,
};
use crate::checkpoints::checkpoint;
use crate::events::event_in;
use crate::fields::{Fields, UNREAD};
use crate::next_slots::next;
use crate::said::Reported;
use flash_die::Nand;
use late_cert::{Carried, Verdict, build, check};
use plan_rules::{bound, plan_test};
use slot_core::DieCore;
use slot_types::{Event, JobNo, Refusal, SlotReply};
use std::alloc::Global;

fn take<N: Nand>(die: &mut DieCore<N>, alloc: Global, event: Event) -> Result<JobNo, Refusal> {
    match event {
        Event::Submit {
            task,
            release,
            due,
            ops,
        } => die.submit(alloc, 0, task, release, due, ops),
        Event::Collect { task, release, due } => die.collect(alloc, 0, task, release, due),
        Event::Slot => Err(UNREAD),
    }
}

/// A job or a collection arrives.
fn arrive<N: Nand>(
    die: &mut DieCore<N>,
    alloc: Global,
    fields: &Fields,
    said: &mut Reported,
) -> Result<(), Refusal> {
    let event = event_in(alloc, fields)?;
    let number = take(die, alloc, event)?;
    said.number(i64::from(number.0))
}

/// `count` equal jobs arrive. The fields are task, release, due, operations, count. The last job's number is reported.
fn jobs<N: Nand>(
    die: &mut DieCore<N>,
    alloc: Global,
    fields: &Fields,
    said: &mut Reported,
) -> Result<(), Refusal> {
    for _ in 0..fields.number(4)? {
        said.clear();
        arrive(die, alloc, fields, said)?;
    }
    Ok(())
}

/// The next slot is carried out. One that finds no memory is carried out again, where that is to be.
fn carried<N: Nand>(
    die: &mut DieCore<N>,
    alloc: Global,
    said: &mut Reported,
) -> Result<SlotReply, Refusal> {
    match die.slot(alloc, 0) {
        Err(Refusal::NoMemory) if said.asks_again() => {
            said.met_refusal();
            die.slot(alloc, 0)
        }
        answer => answer,
    }
}

fn slot<N: Nand>(die: &mut DieCore<N>, alloc: Global, said: &mut Reported) -> Result<(), Refusal> {
    let reply = carried(die, alloc, said)?;
    put_slot(said, &reply)
}

/// The next slot is carried out, and is never asked for again.
fn at_once<N: Nand>(
    die: &mut DieCore<N>,
    alloc: Global,
    said: &mut Reported,
) -> Result<(), Refusal> {
    let reply = match die.slot(alloc, 0) {
        Ok(reply) => reply,
        Err(refusal) => return said.refused(refusal),
    };
    put_slot(said, &reply)
}

/// `count` slots are carried out, and the number that each carried is reported.
fn slots<N: Nand>(
    die: &mut DieCore<N>,
    alloc: Global,
    count: u32,
    said: &mut Reported,
) -> Result<(), Refusal> {
    for _ in 0..count {
        let reply = carried(die, alloc, said)?;
        put_carried(said, &reply)?;
    }
    Ok(())
}

/// `count` slots are carried out, whatever they do.
fn pass<N: Nand>(
    die: &mut DieCore<N>,
    alloc: Global,
    count: u32,
    said: &mut Reported,
) -> Result<(), Refusal> {
    for _ in 0..count {
        carried(die, alloc, said)?;
    }
    said.words("ok")
}

fn verdict<N: Nand>(die: &DieCore<N>, alloc: Global, said: &mut Reported) -> Result<(), Refusal> {
    let Some(certificate) = die.certificate(alloc)? else {
        return said.words("none");
    };
    let rows = die.rows(alloc)?;
    match check(&rows, &certificate) {
        Verdict::Holds => said.words("holds"),
        _ => said.words("refused"),
    }
}

fn rows<N: Nand>(die: &DieCore<N>, alloc: Global, said: &mut Reported) -> Result<(), Refusal> {
    for row in die.rows(alloc)?.as_slice() {
        put_row(said, row)?;
    }
    Ok(())
}

fn outcome<N: Nand>(
    die: &DieCore<N>,
    alloc: Global,
    number: u32,
    said: &mut Reported,
) -> Result<(), Refusal> {
    let outcome = die.outcome(alloc, JobNo(number))?;
    put_outcome(said, &outcome)
}

fn certificate<N: Nand>(
    die: &DieCore<N>,
    alloc: Global,
    said: &mut Reported,
) -> Result<(), Refusal> {
    let certificate = die.certificate(alloc)?;
    put_certificate(said, &certificate)
}

/// Slots that carried these numbers.
fn carried_by(alloc: Global, numbers: &[JobNo]) -> Result<Carried, Refusal> {
    let mut carried = Carried::new(alloc);
    for number in numbers {
        carried.push(Some(*number))?;
    }
    Ok(carried)
}

/// The certificate of a job that is built where the slots carried these numbers: job, numbers.
fn built<N: Nand>(
    die: &DieCore<N>,
    alloc: Global,
    fields: &Fields,
    said: &mut Reported,
) -> Result<(), Refusal> {
    let job = JobNo(fields.number(0)?);
    let numbers = fields.numbers(alloc, 1)?;
    let carried = carried_by(alloc, numbers.as_slice())?;
    let rows = die.rows(alloc)?;
    let certificate = build(alloc, &rows, &carried, job)?;
    put_certificate(said, &certificate)
}

/// What the test says of the die's plan.
fn load<N: Nand>(die: &DieCore<N>, said: &mut Reported) -> Result<(), Refusal> {
    let plan = die.plan();
    bound(plan)?;
    let load = plan_test(plan)?;
    said.words("demand")?;
    said.count(load.demand)?;
    said.counted("common", i64::from(load.common))
}

/// What is asked of a die that stays as it is, and takes no memory.
fn say<N: Nand>(die: &DieCore<N>, name: &str, said: &mut Reported) -> Result<(), Refusal> {
    match name {
        "worst" => put_worst(said, &die.worst()),
        "entries" => said.count(die.len()),
        "records" => said.count(die.records()),
        "now" => said.count(u64::from(die.now())),
        "reserved" => said.count(u64::from(die.reserved())),
        "load" => load(die, said),
        _ => Err(UNREAD),
    }
}

/// What is asked of a die that stays as it is.
fn ask<N: Nand>(
    die: &DieCore<N>,
    alloc: Global,
    fields: &Fields,
    said: &mut Reported,
) -> Result<(), Refusal> {
    match fields.name {
        "outcome" => outcome(die, alloc, fields.number(0)?, said),
        "certificate" => certificate(die, alloc, said),
        "built" => built(die, alloc, fields, said),
        "verdict" => verdict(die, alloc, said),
        "rows" => rows(die, alloc, said),
        _ => say(die, fields.name, said),
    }
}

/// Memory for `slots` slots is reserved.
fn reserve<N: Nand>(die: &mut DieCore<N>, slots: u32, said: &mut Reported) -> Result<(), Refusal> {
    die.reserve(slots)?;
    said.words("ok")
}

/// Carries out a call, and tells its answer.
pub(crate) fn call<N: Nand>(
    die: &mut DieCore<N>,
    alloc: Global,
    fields: &Fields,
    said: &mut Reported,
) -> Result<(), Refusal> {
    match fields.name {
        "job" | "collect" => arrive(die, alloc, fields, said),
        "jobs" => jobs(die, alloc, fields, said),
        "slot" => slot(die, alloc, said),
        "at-once" => at_once(die, alloc, said),
        "slots" => slots(die, alloc, fields.number(0)?, said),
        "pass" => pass(die, alloc, fields.number(0)?, said),
        "reserve" => reserve(die, fields.number(0)?, said),
        "renew" => put_renewal(said, die.renew()),
        "next" => next(die, alloc, said),
        "checkpoint" => checkpoint(die, alloc, said),
        "overdue" => put_overdue(said, &die.overdue()),
        _ => ask(die, alloc, fields, said),
    }
}
