//! Dies that go on by themselves, on which tables are played. What a die needs in all its lives it has from its birth on:
//! no ask and no slot is made again, whatever allocation is refused.

ghost use Rattle.flash_die.specs.Flash.{IsFresh};

use crate::ongoing_played::play;
use crate::ongoing_steps::Turn;
use crate::plans::{Plan, SHAPE};
use flash_die::{FuseNand, MemoryNand, Nand};
use ongoing_die::{OngoingDie, OngoingRefusal};
use planned_die::PlanRefusal;
use slot_types::Refusal;
use std::alloc::Global;
use std::env::Env;
use std::process::Abort;
use test_memory::Memory;

fn as_die(refusal: Refusal) -> OngoingRefusal {
    OngoingRefusal::Plan(PlanRefusal::Die(refusal))
}

/// Plays a table on a new die with this device.
fn plays_on<N: Nand>(
    rt: &(impl Abort + Env),
    alloc: Global,
    plan: Plan,
    device: N,
    turns: &[Turn],
) -> Result<(), OngoingRefusal>
    requires fresh { IsFresh (N.shape_of device) (N.blocks device) (N.failures device) }
{
    let of_die = match plan.of_die(alloc) {
        Ok(of_die) => of_die,
        Err(refusal) => return Err(as_die(refusal)),
    };
    let terms = match plan.terms(alloc) {
        Ok(terms) => terms,
        Err(refusal) => return Err(as_die(refusal)),
    };
    let mut die = OngoingDie::new(alloc, of_die, terms, plan.longest, device)?;
    play(rt, Memory::of(rt), &mut die, alloc, turns);
    Ok(())
}

/// Plays it on a device that fails after `calls` calls, if it does.
fn plays_once(
    rt: &(impl Abort + Env),
    alloc: Global,
    plan: Plan,
    calls: Option<u64>,
    turns: &[Turn],
) -> Result<(), OngoingRefusal> {
    let device = match MemoryNand::new(alloc, SHAPE) {
        Ok(device) => device,
        Err(refusal) => return Err(as_die(refusal)),
    };
    match calls {
        Some(calls) => plays_on(rt, alloc, plan, FuseNand::new(device, calls), turns),
        None => plays_on(rt, alloc, plan, device, turns),
    }
}

/// Where memory is scarce and is refused for the die, another one is made.
fn plays_again(
    rt: &(impl Abort + Env),
    alloc: Global,
    plan: Plan,
    calls: Option<u64>,
    turns: &[Turn],
) -> Result<(), OngoingRefusal> {
    match plays_once(rt, alloc, plan, calls, turns) {
        Err(OngoingRefusal::Plan(PlanRefusal::Die(Refusal::NoMemory)))
            if Memory::of(rt).asks_again() => plays_once(rt, alloc, plan, calls, turns),
        answer => answer,
    }
}

/// Plays a table on a new die.
pub(crate) fn goes_on(
    rt: &(impl Abort + Env),
    alloc: Global,
    plan: Plan,
    turns: &[Turn],
) -> Result<(), OngoingRefusal> {
    plays_again(rt, alloc, plan, None, turns)
}

/// Plays a table on a new die whose device fails after `calls` calls.
pub(crate) fn goes_on_fused(
    rt: &(impl Abort + Env),
    alloc: Global,
    plan: Plan,
    calls: u64,
    turns: &[Turn],
) -> Result<(), OngoingRefusal> {
    plays_again(rt, alloc, plan, Some(calls), turns)
}
