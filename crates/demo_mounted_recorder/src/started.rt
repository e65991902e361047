//! The die that is started on its part, and keeps its plan.

ghost use Rattle.std.specs.Prelude.{◌≡◌, ◌<◌, [], List, IfOk, None, Ok, Some};
ghost use Rattle.slot_types.specs.declared.pages.PageData.{PageData as Bytes};
ghost use Rattle.flash_die.specs.Flash.{free_block};
ghost use Rattle.flash_volume.specs.Checkpoints.{IsAsLeft};
ghost use Rattle.die_log.specs.Model.Start.{Start};
ghost use Rattle.slot_core.specs.Resumptions.{resumed_start};
ghost use Rattle.labelled_nand.specs.PoweredUp.{IsPoweredUp};
ghost use Rattle.power_loss.specs.Aside.{StandsOnPart, without_aside};
ghost use Rattle.power_loss.specs.Mounted.{all_count};
ghost use Rattle.saving_nand.specs.declared.saved.Saved.{Saved as Stood};
ghost use Rattle.clean_shutdown.specs.Starting.{GoesOnFrom, shown_of};
ghost use Rattle.demo_mounted_recorder.specs.Plan.{die_plan};

use crate::plan::{LONGEST, die_plan, terms};
use crate::stops::Stop;
use clean_shutdown::start_up;
use die_checkpoint::Checkpoint;
use flash_die::Nand;
use labelled_die::BesideNand;
use ongoing_die::{OngoingDie, OngoingNotResumed};
use saving_nand::SavingNand;
use slot_core::{CheckpointRefusal, DieCore};
use std::alloc::Global;

/// A die on all blocks of a part but one.
pub(crate) type Kept<N> = OngoingDie<BesideNand<N>>;

/// What was resumed, or why not. It is of any type, so that the proof takes a die, which is large, as a whole.
fn resumed<D, N: Nand>(made: Result<D, OngoingNotResumed<N>>) -> Result<D, Stop>
    ensures same { IfOk result (λ die. made ≡ Ok die) }
{
    match made {
        Ok(die) => Ok(die),
        Err(no) => Err(Stop::NotResumed(no.refusal)),
    }
}

/// A die that keeps its plan, over a device of which this checkpoint was taken.
fn resume<N: Nand>(
    alloc: Global,
    device: N,
    taken: Result<Checkpoint, CheckpointRefusal>,
) -> Result<OngoingDie<N>, Stop>
    requires left { IfOk taken (λ taken. IsAsLeft taken (N.blocks device) (N.failures device)) }
    ensures start { (start : Start)
        → IfOk taken (λ taken. resumed_start die_plan taken (N.blocks device) ≡ start)
        → IfOk result (λ die. die.die.core.start ≡ start) }
{
    let (plan, terms) = (die_plan(alloc)?, terms(alloc)?);
    match taken {
        Ok(taken) => resumed(OngoingDie::resume(alloc, plan, terms, LONGEST, device, &taken)),
        Err(refusal) => Err(Stop::NoCheckpoint(refusal)),
    }
}

/// A die that keeps its plan, in the place of one of this plan in which nothing has happened yet. It has the same pages.
fn kept<N: Nand>(alloc: Global, core: DieCore<N>) -> Result<OngoingDie<N>, Stop>
    requires plan { core.start.plan ≡ die_plan }
    requires begun { core.log ≡ [] }
    ensures pages { IfOk result (λ die. die.die.core.start.contents ≡ core.start.contents) }
{
    let mut core = core;
    let taken = core.checkpoint(alloc);
    resume(alloc, core.into_device(), taken)
}

/// Starts a die on a part whose power has come, and makes of it one that keeps its plan: it has the pages that were saved,
/// where that fits the plan. Else, where a mount could go on from what the part shows, as it can wherever the power went,
/// it has just the pages that are found.
pub(crate) fn started<N: SavingNand>(alloc: Global, part: N) -> Result<Kept<N>, Stop>
    requires ready { N.saved part ≡ None → IsPoweredUp (N.shape_of part) (N.blocks part)
        (N.labels part) (N.failures part) }
    requires few_failures { N.failures part < 4294967295 }
    ensures goes_on { IfOk result (λ die. (saved : Stood) → N.saved part ≡ Some saved
        → GoesOnFrom die_plan (N.shape_of part) (N.saved part)
        → die.die.core.start.contents ≡ (resumed_start die_plan saved.checkpoint
        (without_aside die_plan.shape.blocks saved.aside free_block (N.blocks part))).contents) }
    ensures mounted { IfOk result (λ die. ¬ GoesOnFrom die_plan (N.shape_of part) (N.saved part)
        → (pages : List Bytes) → StandsOnPart die_plan pages all_count
        (shown_of (N.shape_of part).pages (N.saved part) (N.labels part).blocks)
        → die.die.core.start.contents ≡ pages) }
{
    match start_up(alloc, die_plan(alloc)?, part) {
        Ok(core) => kept(alloc, core),
        Err(no) => Err(Stop::NotStarted(no.refusal)),
    }
}
