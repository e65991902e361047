//! The clean shutdown of a die: its checkpoint is saved on its part.

ghost use Rattle.std.specs.Prelude.{◌≡◌, ◌+◌, Some, IfErr, IfOk, OnOk};
ghost use Rattle.die_log.specs.Model.Opening.{renewed_start};
ghost use Rattle.flash_volume.specs.Checkpoints.{IsAsLeft};
ghost use Rattle.slot_core.specs.Renewals.{MayBeRenewed};
ghost use Rattle.slot_core.specs.Resumptions.{checkpoint_of};
ghost use Rattle.labelled_die.specs.Beside.{blocks_beside};
ghost use Rattle.clean_shutdown.specs.Shutting.{IsSavedOn, IsUnsaved, RefusesShutdown, ResumesAsRenewed};

use crate::refusals::{NotShutDown, Unsaved};
use die_checkpoint::Checkpoint;
use labelled_die::BesideNand;
use saving_nand::{NotSaved, Saved, SavingNand};
use slot_core::DieCore;
use std::alloc::Global;

/// Saves the checkpoint of a die that was given up, on the part on which it was: with the block that stands aside, and
/// the serial that is next. The device is as the checkpoint says.
///
/// Where that isn't saved, the part and what was to be saved are handed back.
pub fn save_on_part<N: SavingNand>(
    alloc: Global,
    device: BesideNand<N>,
    checkpoint: Checkpoint,
) -> Result<N, Unsaved<N>>
    requires left { IsAsLeft checkpoint (blocks_beside N.blocks device)
        (N.failures device.part + device.refused) }
    ensures saved { IfOk result (IsSavedOn N.saved N.shape_of N.blocks N.labels N.failures device
        checkpoint) }
    ensures refused { IfErr result (λ no. IsUnsaved N.failures N.labels device checkpoint no.part
        no.saved no.refusal) }
{
    device.stands_beside();
    let aside = device.aside();
    let mut part = device.into_part();
    let next = part.next_serial();
    let saved = Saved {
        aside,
        next,
        checkpoint,
    };
    match part.save(alloc, saved) {
        Ok(()) => Ok(part),
        Err(NotSaved { saved, refusal }) => Err(Unsaved {
            part,
            saved,
            refusal,
        }),
    }
}

/// Shuts a die down at a quiet moment, one at which all that was accepted is done or was waived: its checkpoint is saved
/// on its part. The part is given back, and nothing more may be done on it but to take its power away, or to start a die
/// on it (`start_up`). What is saved makes the start that [`DieCore::renew`] would have made.
///
/// Refused where and as [`DieCore::checkpoint`] is, and the die is handed back as it was; else where the checkpoint isn't
/// saved, and the die is given up.
pub fn shut_down<N: SavingNand>(
    alloc: Global,
    core: DieCore<BesideNand<N>>,
) -> Result<N, NotShutDown<N>>
    ensures saved { IfOk result (IsSavedOn N.saved N.shape_of N.blocks N.labels N.failures
        core.device (checkpoint_of (renewed_start core.start core.log))) }
    ensures goes_on { OnOk result (ResumesAsRenewed N.blocks core) }
    ensures may { OnOk result (MayBeRenewed core) }
    ensures refused { IfErr result (RefusesShutdown N.failures N.labels core) }
{
    let mut core = core;
    match core.checkpoint(alloc) {
        Ok(checkpoint) => match save_on_part(alloc, core.into_device(), checkpoint) {
            Ok(part) => Ok(part),
            Err(unsaved) => Err(NotShutDown::NotSaved { unsaved }),
        },
        Err(why) => Err(NotShutDown::AtWork { core, why }),
    }
}
