//! Dies that are shut down and go on from a checkpoint. Where memory is scarce, a call that is refused for lack of it is
//! made again, once.

ghost use Rattle.std.specs.Prelude.{◌≡◌, IfOk, IfErr};
ghost use Rattle.flash_volume.specs.Checkpoints.{IsAsLeft};

use crate::plans::Plan;
use die_checkpoint::{Checkpoint, CheckpointFault};
use flash_die::Nand;
use ongoing_die::{
    OngoingCheckpointRefusal, OngoingDie, OngoingNotResumed, OngoingResumeRefusal,
    PlanResumeRefusal,
};
use slot_core::{CheckpointRefusal, ResumeRefusal};
use std::alloc::Global;
use test_memory::Memory;

/// A checkpoint of the die, which stays as it is.
pub(crate) fn shut<N: Nand>(
    memory: Memory,
    die: &mut OngoingDie<N>,
    alloc: Global,
) -> Result<Checkpoint, OngoingCheckpointRefusal>
    ensures left { IfOk result (λ taken.
        IsAsLeft taken (N.blocks die.old.die.core.device) (N.failures die.old.die.core.device)) }
    ensures same { die.new ≡ die.old }
{
    match die.checkpoint(alloc) {
        Err(OngoingCheckpointRefusal::Die(CheckpointRefusal::NoMemory)) if memory.asks_again() => {
            die.checkpoint(alloc)
        }
        answer => answer,
    }
}

const NO_MEMORY: OngoingResumeRefusal = OngoingResumeRefusal::Plan(PlanResumeRefusal::Die(
    ResumeRefusal::Unfit {
        fault: CheckpointFault::NoMemory,
    },
));

/// A die of this plan that goes on from a checkpoint.
fn resumed_once<N: Nand>(
    alloc: Global,
    plan: Plan,
    device: N,
    taken: &Checkpoint,
) -> Result<OngoingDie<N>, OngoingNotResumed<N>>
    requires left { IsAsLeft taken.now (N.blocks device) (N.failures device) }
    ensures device { IfErr result (λ no. no.device ≡ device) }
{
    let of_die = match plan.of_die(alloc) {
        Ok(of_die) => of_die,
        Err(_) => {
            return Err(OngoingNotResumed {
                device,
                refusal: NO_MEMORY,
            });
        }
    };
    let terms = match plan.terms(alloc) {
        Ok(terms) => terms,
        Err(_) => {
            return Err(OngoingNotResumed {
                device,
                refusal: NO_MEMORY,
            });
        }
    };
    OngoingDie::resume(alloc, of_die, terms, plan.longest, device, taken)
}

/// The same; the device is handed back where it is refused.
pub(crate) fn resumed<N: Nand>(
    memory: Memory,
    alloc: Global,
    plan: Plan,
    device: N,
    taken: &Checkpoint,
) -> Result<OngoingDie<N>, OngoingNotResumed<N>>
    requires left { IsAsLeft taken.now (N.blocks device) (N.failures device) }
    ensures device { IfErr result (λ no. no.device ≡ device) }
{
    match resumed_once(alloc, plan, device, taken) {
        Ok(die) => Ok(die),
        Err(no) => {
            if no.refusal == NO_MEMORY && memory.asks_again() {
                resumed_once(alloc, plan, no.device, taken)
            } else {
                Err(no)
            }
        }
    }
}
