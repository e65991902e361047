//! New dies, in memory.

ghost use Rattle.std.specs.Prelude.{◌≡◌, Ok, IfOk};
ghost use Rattle.flash_die.specs.Flash.{IsFresh};

use crate::plans::Plan;
use crate::wrong::Wrong;
use flash_die::{MemoryNand, Nand};
use ongoing_die::{OngoingDie, OngoingRefusal};
use planned_die::PlanRefusal;
use slot_types::Refusal;
use std::alloc::Global;
use task_outcomes::OutcomeDie;

fn as_wrong(refusal: Refusal) -> Wrong {
    Wrong::Die(OngoingRefusal::Plan(PlanRefusal::Die(refusal)))
}

/// What is refused is wrong so. Of any types, since a die that is handed back would be proved through all its parts.
pub(crate) fn or_wrong<T, E: Drop>(answer: Result<T, E>, wrong: Wrong) -> Result<T, Wrong>
    ensures { IfOk result (λ value. answer ≡ Ok value) }
{
    match answer {
        Ok(value) => Ok(value),
        Err(_) => Err(wrong),
    }
}

/// Puts a value of any type into a box.
pub(crate) fn boxed<T: Drop>(alloc: Global, value: T) -> Result<Box<T>, Wrong> {
    match Box::new(alloc, value) {
        Ok(kept) => Ok(kept),
        Err(_) => Err(Wrong::Memory),
    }
}

/// A die with its tasks' outcomes.
fn with_outcomes<N: Nand>(alloc: Global, die: OngoingDie<N>) -> Result<OutcomeDie<N>, Wrong> {
    or_wrong(OutcomeDie::new(alloc, die), Wrong::Memory)
}

/// A die with this device.
fn die_on<N: Nand>(alloc: Global, plan: &Plan, device: N) -> Result<OutcomeDie<N>, Wrong>
    requires { IsFresh (N.shape_of device) (N.blocks device) (N.failures device) }
{
    let of_die = match plan.of_die(alloc) {
        Ok(of_die) => of_die,
        Err(refusal) => return Err(as_wrong(refusal)),
    };
    let terms = match plan.terms(alloc) {
        Ok(terms) => terms,
        Err(refusal) => return Err(as_wrong(refusal)),
    };
    match OngoingDie::new(alloc, of_die, terms, plan.longest, device) {
        Ok(die) => with_outcomes(alloc, die),
        Err(refusal) => Err(Wrong::Die(refusal)),
    }
}

/// A die in memory, for which nothing was asked yet.
pub(crate) fn a_die(alloc: Global, plan: &Plan) -> Result<Box<OutcomeDie<MemoryNand>>, Wrong> {
    match MemoryNand::new(alloc, plan.shape) {
        Ok(device) => boxed(alloc, die_on(alloc, plan, device)?),
        Err(refusal) => Err(as_wrong(refusal)),
    }
}
