//! A die is written down at a quiet moment, and goes on from there.

ghost use Rattle.std.specs.Prelude.{◌≡◌, [], false, IfOk, IfErr, OnOk};
ghost use Rattle.die_checkpoint.specs.Faults.{HasCheckpointFault};
ghost use Rattle.die_checkpoint.specs.Fits.{Fits};
ghost use Rattle.flash_volume.specs.Checkpoints.{IsAsLeft};
ghost use Rattle.die_log.specs.Model.Opening.{renewed_start};
ghost use Rattle.slot_core.specs.Renewals.{MayBeRenewed};
ghost use Rattle.slot_core.specs.Core.{nothing_reserved};
ghost use Rattle.slot_core.specs.Resumptions.{checkpoint_of, resumed_start, RefusesCheckpoint, RefusesResume};

use crate::die_core::DieCore;
use crate::memory::DieMemory;
use crate::renewals::RenewalRefusal;
use die_checkpoint::{Checkpoint, CheckpointFault};
use flash_die::Nand;
use slot_types::DiePlan;
use std::alloc::Global;

/// Why no checkpoint is taken of a die.
#[derive(Clone, Copy, PartialEq, Eq, Debug, Drop)]
pub enum CheckpointRefusal {
    /// The die can't be renewed either: why.
    NotRenewable { why: RenewalRefusal },
    /// There is no memory for it. The die could be renewed.
    NoMemory,
}

/// Why a die isn't resumed, in the order in which the causes are looked at.
#[derive(Clone, Copy, PartialEq, Eq, Debug, Drop)]
pub enum ResumeRefusal {
    /// The device is of another shape than the plan.
    OtherDevice,
    /// The checkpoint doesn't fit the plan, or there is no memory: the first cause, in the order of
    /// [`CheckpointFault`]. With `NoMemory` all in front of it holds.
    Unfit { fault: CheckpointFault },
}

/// A device on which no die was resumed, and why.
#[derive(Drop)]
pub struct NotResumed<N> {
    pub device: N,
    pub refusal: ResumeRefusal,
}

impl<N: Nand> DieCore<N> {
    /// What stands at a quiet moment, one at which all that was accepted is done or was waived: where each page lies,
    /// by block its programmed pages and its erases, the spare pages, and the balances. The die stays as it is.
    ///
    /// [`resume`](DieCore::resume) goes on from there as [`renew`](DieCore::renew) would have: the checkpoint fits the
    /// plan, the device is as it says, and the start that it makes is that of the renewed log.
    ///
    /// Refused as `renew` is, where and with what it is refused; else with `NoMemory`, where there is none.
    pub fn checkpoint(&mut self, alloc: Global) -> Result<Checkpoint, CheckpointRefusal>
        ensures ok { IfOk result (λ taken.
            taken ≡ checkpoint_of (renewed_start self.old.start self.old.log)) }
        ensures fits { IfOk result (λ taken. Fits self.old.start.plan taken) }
        ensures left { IfOk result (λ taken.
            IsAsLeft taken (N.blocks self.old.device) (N.failures self.old.device)) }
        ensures goes_on { IfOk result (λ taken.
            resumed_start self.old.start.plan taken (N.blocks self.old.device)
            ≡ renewed_start self.old.start self.old.log) }
        ensures may { OnOk result (MayBeRenewed self.old) }
        ensures refused { IfErr result (RefusesCheckpoint self.old) }
        ensures unchanged { self.new ≡ self.old }
    {
        match self.may_renew() {
            Ok(()) => self.take_checkpoint(alloc),
            Err(why) => Err(CheckpointRefusal::NotRenewable { why }),
        }
    }

    /// What stands on a die that may be renewed.
    fn take_checkpoint(&self, alloc: Global) -> Result<Checkpoint, CheckpointRefusal>
        requires may { MayBeRenewed self.now }
        ensures ok { IfOk result (λ taken.
            taken ≡ checkpoint_of (renewed_start self.now.start self.now.log)) }
        ensures fits { IfOk result (λ taken. Fits self.now.start.plan taken) }
        ensures left { IfOk result (λ taken.
            IsAsLeft taken (N.blocks self.now.device) (N.failures self.now.device)) }
        ensures goes_on { IfOk result (λ taken.
            resumed_start self.now.start.plan taken (N.blocks self.now.device)
            ≡ renewed_start self.now.start self.now.log) }
        ensures refused { IfErr result (λ refusal. refusal ≡ CheckpointRefusal.NoMemory) }
    {
        match self.volume.checkpoint(alloc) {
            Ok(taken) => Ok(taken),
            Err(_) => Err(CheckpointRefusal::NoMemory),
        }
    }

    /// The device, given up with all else of the die.
    pub fn into_device(self) -> N
        ensures { result ≡ self.device }
    {
        self.volume.into_device()
    }

    /// A die that goes on from a checkpoint, over a device as it was left: at slot 0, with an empty log. Its pages are
    /// what the device holds where the checkpoint has them; a page that lies nowhere is blank. No call of the device is
    /// made.
    ///
    /// That the device is of the plan's shape is tested, and so is all of the checkpoint. The caller has to know that
    /// the device is as a checkpoint that fits says, since a device can't be asked: each block has as many programmed
    /// pages and was erased as often as the checkpoint says, no block is in erase, and no call has failed. What the
    /// pages hold may be anything.
    ///
    /// Refused with the first cause that stands, as [`ResumeRefusal`] lists them; the device is handed back then, and
    /// the plan is given up.
    pub fn resume(
        alloc: Global,
        plan: DiePlan,
        device: N,
        checkpoint: &Checkpoint,
    ) -> Result<DieCore<N>, NotResumed<N>>
        requires left { N.shape_of device ≡ plan.shape → Fits plan checkpoint.now
            → IsAsLeft checkpoint.now (N.blocks device) (N.failures device) }
        ensures ok { IfOk result (λ core. core ≡ record {
          start = resumed_start plan checkpoint.now (N.blocks device);
          device = device;
          stopped = false;
          reserved = nothing_reserved;
          lasting = nothing_reserved;
          log = [];
        }) }
        ensures fits { OnOk result (Fits plan checkpoint.now) }
        ensures shape { OnOk result (N.shape_of device ≡ plan.shape) }
        ensures refused { IfErr result (λ no.
            RefusesResume plan checkpoint.now (N.shape_of device) no.refusal) }
        ensures device { IfErr result (λ no. no.device ≡ device) }
    {
        if device.shape() != plan.shape {
            let refusal = ResumeRefusal::OtherDevice;
            return Err(NotResumed { device, refusal });
        }
        match memory_for(alloc, plan, checkpoint) {
            Ok(memory) => Ok(memory.resume(device, checkpoint)),
            Err(fault) => {
                let refusal = ResumeRefusal::Unfit { fault };
                Err(NotResumed { device, refusal })
            }
        }
    }
}

/// The memory of a die of a plan that a checkpoint fits. Refused with the checkpoint's first fault.
fn memory_for(
    alloc: Global,
    plan: DiePlan,
    checkpoint: &Checkpoint,
) -> Result<DieMemory, CheckpointFault>
    ensures plan { IfOk result (λ memory. memory ≡ plan) }
    ensures fits { OnOk result (Fits plan checkpoint.now) }
    ensures fault { IfErr result (HasCheckpointFault plan checkpoint.now) }
{
    match checkpoint.check(alloc, &plan) {
        Ok(()) => {}
        Err(fault) => return Err(fault),
    }
    match DieMemory::take(alloc, plan) {
        Ok(memory) => Ok(memory),
        Err(_) => Err(CheckpointFault::NoMemory),
    }
}
