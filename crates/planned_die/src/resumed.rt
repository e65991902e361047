//! What a resumed die needs to keep its plan: a life, memory for it, and what its tasks are taken to have asked for.

ghost use Rattle.std.specs.Prelude.{◌≡◌, ◌≤◌, ℕ, length, map, IfOk, IfErr, OnOk};
ghost use Rattle.plan_rules.specs.Bound.{MeetsBound};
ghost use Rattle.demand_rules.specs.Demand.{PassesDemand};
ghost use Rattle.demand_rules.specs.Supply.{PassesSupply};
ghost use Rattle.slot_core.specs.Core.{with_slots, with_arrivals};
ghost use Rattle.slot_core.specs.Resumptions.{no_memory};
ghost use Rattle.planned_die.specs.Planned.{with_life};
ghost use Rattle.planned_die.specs.NewPlans.{IsSomeLife};
ghost use Rattle.planned_die.specs.Remembered.{jobs_of, AreKept, HaveMemory};
ghost use Rattle.planned_die.specs.Resuming.{HaveEnough, lacks_of, RefusesPlanned};

use crate::lacks::{asks_of_lacks, first_shortage};
use crate::life::{life_of, most_arrivals};
use crate::resumptions::PlanResumeRefusal;
use crate::task_asks::TaskAsks;
use demand_rules::{Terms, terms_test};
use die_checkpoint::CheckpointFault;
use flash_die::Nand;
use slot_core::{DieCore, ResumeRefusal};
use slot_types::Refusal;
use std::alloc::Global;

/// How long a life is, and by task what it is taken to have asked for.
#[derive(Drop)]
pub struct Prepared {
    pub(crate) life: u32,
    pub(crate) asked: Vec<TaskAsks>,
}

fn no_memory() -> PlanResumeRefusal
    ensures { result ≡ PlanResumeRefusal.Die no_memory }
{
    PlanResumeRefusal::Die(ResumeRefusal::Unfit {
        fault: CheckpointFault::NoMemory,
    })
}

/// Takes the memory for `slots` slots, and for `most` jobs and collections with as many operations in all.
fn reserve_for<N: Nand>(core: &mut DieCore<N>, slots: u32, most: u32) -> Result<(), Refusal>
    ensures ok { OnOk result (core.new ≡ with_slots slots (with_arrivals most most core.old)) }
    ensures device { core.new.device ≡ core.old.device }
{
    core.reserve_arrivals(most, most)?;
    core.reserve(slots)
}

/// Prepares a die of these balances, which has resumed and did nothing yet, to keep its plan: tests the terms, finds the
/// longest life, sees whether each task has enough, and takes all memory.
pub(crate) fn prepare<N: Nand>(
    alloc: Global,
    core: &mut DieCore<N>,
    terms: &Terms,
    longest: u32,
    balances: &[u32],
) -> Result<Prepared, PlanResumeRefusal>
    requires tasks { length balances.now ≡ length core.old.start.plan.caps }
    requires bound { MeetsBound core.old.start.plan }
    ensures core { IfOk result (λ made. core.new ≡ with_life terms.now made.life core.old) }
    ensures device { core.new.device ≡ core.old.device }
    ensures passes { OnOk result (PassesDemand core.old.start.plan terms.now × PassesSupply core.old.start.plan terms.now) }
    ensures life { IfOk result (λ made. IsSomeLife core.old.start.plan terms.now longest made.life) }
    ensures longer { IfOk result (λ made. (other : ℕ)
        → IsSomeLife core.old.start.plan terms.now longest other → other ≤ made.life) }
    ensures stocked { OnOk result (HaveEnough core.old.start.plan terms.now balances.now) }
    ensures asked { IfOk result (λ made. map jobs_of made.asked.items
        ≡ lacks_of core.old.start.plan balances.now (length core.old.start.plan.caps)) }
    ensures kept { IfOk result (λ made. (clock : ℕ) → AreKept terms.now clock made.asked.items) }
    ensures memory { IfOk result (λ made. HaveMemory terms.now made.asked.items) }
    ensures refused { IfErr result (RefusesPlanned core.old.start.plan terms.now longest balances.now) }
{
    match terms_test(core.plan(), terms) {
        Ok(_) => {}
        Err(fault) => return Err(PlanResumeRefusal::Terms(fault)),
    }
    let life = match life_of(core.plan(), terms, longest) {
        Some(life) => life,
        None => return Err(PlanResumeRefusal::NoLife),
    };
    match first_shortage(core.plan(), terms, balances) {
        Some(shortage) => return Err(PlanResumeRefusal::NotStocked(shortage)),
        None => {}
    }
    let asked = match asks_of_lacks(alloc, core.plan(), terms, balances) {
        Ok(asked) => asked,
        Err(_) => return Err(no_memory()),
    };
    let most = most_arrivals(core.plan(), terms, life);
    match reserve_for(core, life, most) {
        Ok(()) => Ok(Prepared { life, asked }),
        Err(_) => Err(no_memory()),
    }
}
