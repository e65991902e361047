//! The memory of a volume, taken before there is a device.

ghost use Rattle.std.specs.Prelude.{◌≡◌, IfOk};
ghost use Rattle.slot_types.specs.Refusal.{FailsForMemory};
ghost use Rattle.plan_rules.specs.Bound.{MeetsBound};
ghost use Rattle.die_checkpoint.specs.Fits.{Fits};
ghost use Rattle.flash_die.specs.Flash.{IsFresh};
ghost use Rattle.flash_volume.specs.Checkpoints.{IsAsLeft, resumed_volume};
ghost use Rattle.flash_volume.specs.State.{fresh_volume};

use crate::array::PageArray;
use crate::collection::Collection;
use crate::tables::Tables;
use crate::volume::Volume;
use die_checkpoint::Checkpoint;
use flash_die::Nand;
use page_ledger::Ledger;
use slot_types::{DiePlan, Refusal};
use std::alloc::Global;
use std::marker::Model;

/// The memory of a volume of a plan: all that a volume takes beside its device, which it begins on later. Contracts see
/// the plan.
#[derive(Drop)]
pub struct VolumeMemory {
    ledger: Ledger,
    tables: Tables,
    running: Vec<Option<Collection>>,
}

impl Model for VolumeMemory {
    ghost use Rattle.slot_types.specs.declared.plans.DiePlan.{DiePlan};
    ghost use Rattle.flash_volume.specs.Memory.{IsUnused};

    ghost Value = { DiePlan };

    ghost view = { λ m. m.ledger.plan };

    ghost invariant = { λ m. IsUnused m.ledger m.tables m.running.items };
}

impl VolumeMemory {
    /// The memory of a volume of a plan that meets its bound. `NoMemory` where memory is refused; the plan is given up
    /// then.
    pub fn take(alloc: Global, plan: DiePlan) -> Result<VolumeMemory, Refusal>
        requires bound { MeetsBound plan }
        ensures ok { IfOk result (λ memory. memory ≡ plan) }
        ensures err { FailsForMemory result }
    {
        let tables = Tables::blank(alloc, plan.shape, plan.logical)?;
        let running = vec![in alloc; None; plan.caps.len()]?;
        Ok(VolumeMemory {
            ledger: Ledger::new(alloc, plan)?,
            tables,
            running,
        })
    }

    /// The plan.
    pub fn plan(&self) -> &DiePlan
        ensures { result.now ≡ self.now }
    {
        self.ledger.plan()
    }

    /// A volume on which nothing was written, on a fresh device of the plan's shape. It takes no memory.
    pub fn begin<N: Nand>(self, device: N) -> Volume<N>
        requires shape { N.shape_of device ≡ self.shape }
        requires fresh { IsFresh (N.shape_of device) (N.blocks device) (N.failures device) }
        ensures { result ≡ fresh_volume self device }
    {
        Volume {
            ledger: self.ledger,
            array: PageArray::over(device, self.tables),
            running: self.running,
        }
    }

    /// A volume that goes on from a checkpoint, over the device that it was taken of. It calls no device, looks at each
    /// block, page and cell once, and takes no memory.
    ///
    /// The checkpoint fits the plan, and the device is of the plan's shape and as the checkpoint says; the last is
    /// trusted, since a device can't be asked.
    pub fn resume<N: Nand>(self, device: N, checkpoint: &Checkpoint) -> Volume<N>
        requires fits { Fits self checkpoint.now }
        requires shape { N.shape_of device ≡ self.shape }
        requires left { IsAsLeft checkpoint.now (N.blocks device) (N.failures device) }
        ensures { result ≡ resumed_volume N.blocks self checkpoint.now device }
    {
        let VolumeMemory {
            mut ledger,
            tables,
            running,
        } = self;
        let tables = tables.resume(ledger.plan(), checkpoint);
        ledger.resume(checkpoint.spare, checkpoint.balances.as_slice());
        Volume {
            ledger,
            array: PageArray::over(device, tables),
            running,
        }
    }
}
