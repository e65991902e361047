//! New dies, on which tables are played.

ghost use Rattle.flash_die.specs.Flash.{IsFresh};

use crate::plans::{Plan, SHAPE};
use crate::played::play;
use crate::steps::Step;
use flash_die::{FuseNand, MemoryNand, Nand};
use planned_die::{PlanRefusal, PlannedDie};
use slot_types::Refusal;
use std::alloc::Global;
use std::env::Env;
use std::process::Abort;
use test_memory::Memory;

/// Plays a table on a new die with this device.
fn plays_on<N: Nand>(
    rt: &(impl Abort + Env),
    alloc: Global,
    plan: Plan,
    device: N,
    steps: &[Step],
) -> Result<(), PlanRefusal>
    requires fresh { IsFresh (N.shape_of device) (N.blocks device) (N.failures device) }
{
    let of_die = match plan.of_die(alloc) {
        Ok(of_die) => of_die,
        Err(refusal) => return Err(PlanRefusal::Die(refusal)),
    };
    let terms = match plan.terms(alloc) {
        Ok(terms) => terms,
        Err(refusal) => return Err(PlanRefusal::Die(refusal)),
    };
    let mut die = PlannedDie::new(alloc, of_die, terms, plan.longest, device)?;
    play(rt, Memory::of(rt), &mut die, alloc, steps);
    Ok(())
}

/// Plays it on a device that fails after `calls` calls, if it does.
fn plays_once(
    rt: &(impl Abort + Env),
    alloc: Global,
    plan: Plan,
    calls: Option<u64>,
    steps: &[Step],
) -> Result<(), PlanRefusal> {
    let device = match MemoryNand::new(alloc, SHAPE) {
        Ok(device) => device,
        Err(refusal) => return Err(PlanRefusal::Die(refusal)),
    };
    match calls {
        Some(calls) => plays_on(rt, alloc, plan, FuseNand::new(device, calls), steps),
        None => plays_on(rt, alloc, plan, device, steps),
    }
}

/// Where memory is scarce and is refused for the die, another one is made.
fn plays_again(
    rt: &(impl Abort + Env),
    alloc: Global,
    plan: Plan,
    calls: Option<u64>,
    steps: &[Step],
) -> Result<(), PlanRefusal> {
    match plays_once(rt, alloc, plan, calls, steps) {
        Err(PlanRefusal::Die(Refusal::NoMemory)) if Memory::of(rt).asks_again() => plays_once(
            rt, alloc, plan, calls, steps,
        ),
        answer => answer,
    }
}

/// Plays a table on a new die.
pub(crate) fn plays(
    rt: &(impl Abort + Env),
    alloc: Global,
    plan: Plan,
    steps: &[Step],
) -> Result<(), PlanRefusal> {
    plays_again(rt, alloc, plan, None, steps)
}

/// Plays a table on a new die whose device fails after `calls` calls.
pub(crate) fn plays_fused(
    rt: &(impl Abort + Env),
    alloc: Global,
    plan: Plan,
    calls: u64,
    steps: &[Step],
) -> Result<(), PlanRefusal> {
    plays_again(rt, alloc, plan, Some(calls), steps)
}
