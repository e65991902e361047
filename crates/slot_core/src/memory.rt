//! The memory of a die, taken before there is a device.

ghost use Rattle.std.specs.Prelude.{◌≡◌, [], false, IfOk};
ghost use Rattle.slot_types.specs.Refusal.{FailsForMemory};
ghost use Rattle.plan_rules.specs.Bound.{MeetsBound};
ghost use Rattle.die_checkpoint.specs.Fits.{Fits};
ghost use Rattle.die_log.specs.Model.Start.{Start};
ghost use Rattle.flash_volume.specs.Checkpoints.{IsAsLeft};
ghost use Rattle.slot_core.specs.Core.{nothing_reserved};
ghost use Rattle.slot_core.specs.Resumptions.{resumed_start};

use crate::die_core::DieCore;
use die_checkpoint::Checkpoint;
use event_log::EventLog;
use flash_die::Nand;
use flash_volume::VolumeMemory;
use job_table::JobTable;
use log_start::LogStart;
use slot_types::{DiePlan, Refusal};
use std::alloc::Global;
use std::marker::Model;

/// The memory of a die of a plan: all that a die takes beside its device until jobs and collections come. A die begins
/// on it later, which is never refused. Contracts see the plan.
#[derive(Drop)]
pub struct DieMemory {
    volume: VolumeMemory,
    table: JobTable,
    events: EventLog,
}

impl Model for DieMemory {
    ghost use Rattle.slot_types.specs.declared.plans.DiePlan.{DiePlan};
    ghost use Rattle.slot_core.specs.Memory.{IsUnused};

    ghost Value = { DiePlan };

    ghost view = { λ m. m.volume };

    ghost invariant = { λ m. IsUnused m.volume m.table m.events };
}

/// A mark of the start that the caller picks by these.
fn start_by<N: Nand>(_plan: &DiePlan, _device: &N, _checkpoint: &Checkpoint) -> LogStart
    ghost start: { Start }
    ensures { result ≡ start }
{
    LogStart::at()
}

impl DieMemory {
    /// The memory of a die of a plan that meets its bound (`plan_rules::bound`). `NoMemory` where memory is refused;
    /// the plan is given up then.
    pub fn take(alloc: Global, plan: DiePlan) -> Result<DieMemory, Refusal>
        requires bound { MeetsBound plan }
        ensures ok { IfOk result (λ memory. memory ≡ plan) }
        ensures refused { FailsForMemory result }
    {
        let table = JobTable::new(alloc, plan.caps.len() as u32)?;
        Ok(DieMemory {
            volume: VolumeMemory::take(alloc, plan)?,
            table,
            events: EventLog::new(alloc),
        })
    }

    /// The plan.
    pub fn plan(&self) -> &DiePlan
        ensures { result.now ≡ self.now }
    {
        self.volume.plan()
    }

    /// A die that goes on from a checkpoint, over a device as it was left: at slot 0, with an empty log, as
    /// [`DieCore::resume`] makes it. No call of the device is made, no memory is taken, and nothing is refused.
    ///
    /// The checkpoint fits the plan, and the device is of the plan's shape and as the checkpoint says.
    pub fn resume<N: Nand>(self, device: N, checkpoint: &Checkpoint) -> DieCore<N>
        requires fits { Fits self checkpoint.now }
        requires shape { N.shape_of device ≡ self.shape }
        requires left { IsAsLeft checkpoint.now (N.blocks device) (N.failures device) }
        ensures { result ≡ record {
          start = resumed_start self checkpoint.now (N.blocks device);
          device = device;
          stopped = false;
          reserved = nothing_reserved;
          lasting = nothing_reserved;
          log = [];
        } }
    {
        let start = start_by(self.volume.plan(), &device, checkpoint);
        DieCore {
            volume: self.volume.resume(device, checkpoint),
            table: self.table,
            events: self.events,
            present: 0,
            reserved: 0,
            lasting: 0,
            start,
        }
    }
}
