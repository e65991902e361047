//! Dies as they start.

ghost use Rattle.std.specs.Prelude.{◌≤◌, IfOk};
ghost use Rattle.flashplan_kept_runs.specs.KeptDies.{BeginsBy, HasEmptyLog, kept_of};

use crate::memory_dies::MemoryDie;
use crate::refusals::KeptFault;
use planned_die::PlanRefusal;
use slot_types::Refusal;
use std::alloc::Global;
use terms_texts::DieTerms;

/// Why a die isn't made: a plan that doesn't pass its tests is BadPlan.
fn fault_of(die: u32, refusal: PlanRefusal) -> KeptFault {
    match refusal {
        PlanRefusal::Die(refusal) => KeptFault::Refused(refusal),
        PlanRefusal::Terms(_) => KeptFault::Refused(Refusal::BadPlan),
        PlanRefusal::NoLife => KeptFault::NoLife { die },
    }
}

/// A die in memory on which nothing was done, of a number in its store, that keeps a plan with its terms and may run
/// `slots` slots. BadPlan where the plan doesn't pass its tests, NoLife where it has no life, LongerThanLife where a
/// life has fewer slots; or NoMemory.
pub fn fresh_die(
    alloc: Global,
    number: u32,
    plan: DieTerms,
    slots: u32,
) -> Result<MemoryDie, KeptFault>
    ensures begins { IfOk result (λ die. BeginsBy plan (kept_of die).begun) }
    ensures empty { IfOk result (λ die. HasEmptyLog (kept_of die)) }
    ensures within { IfOk result (λ die. slots ≤ die.life) }
{
    let die = match MemoryDie::new(alloc, plan) {
        Ok(die) => die,
        Err(refusal) => return Err(fault_of(number, refusal)),
    };
    let life = die.life();
    if life < slots {
        return Err(KeptFault::LongerThanLife { die: number, life });
    }
    Ok(die)
}
