//! How a mount of a part begins: with what its cells show.

ghost use Rattle.std.specs.Prelude.{◌≡◌, ◌≢◌, false, List, IfErr, IfOk, OnOk};
ghost use Rattle.slot_types.specs.declared.pages.PageData.{PageData as Bytes};
ghost use Rattle.die_mount.specs.Beginning.{HasIdle, IsScanned};
ghost use Rattle.die_mount.specs.Nexts.{BeginsFirst};
ghost use Rattle.die_mount.specs.Mounting.{BeginsWith, calls_left, most_calls};
ghost use Rattle.die_mount.specs.Scanned.{IsScanOf};
ghost use Rattle.labelled_die.specs.Scanning.{IsSamePart, IsUntold};
ghost use Rattle.labelled_nand.specs.PoweredUp.{IsPoweredUp};
ghost use Rattle.power_loss.specs.Aside.{StandsOnPart, part_of};
ghost use Rattle.power_loss.specs.Labels.{FitPlan, Shown};
ghost use Rattle.power_loss.specs.Mounted.{all_count};
ghost use Rattle.part_mount.specs.Going.{GoesBySeen};
ghost use Rattle.part_mount.specs.OnPart.{BeginsToCount};
ghost use Rattle.device_mount.specs.Parts.{BeginsSafely, IsPlanOf};
ghost use Rattle.device_mount.specs.Refusals.{RefusesBegin, RefusesMount};

use crate::memory::MountMemory;
use crate::refusals::{MountRefusal, NotMounted, refusal_of};
use crate::undoing::undo;
use die_mount::{BeginFault, FirstErase, Mount, Scan};
use labelled_die::scan;
use labelled_nand::LabelledNand;
use part_mount::PartMount;
use slot_types::DiePlan;
use std::alloc::Global;

/// A mount that erases an idle block.
fn begin_idle(alloc: Global, plan: DiePlan, scan: Scan) -> Result<Mount, MountRefusal>
    requires whole { scan.told ≡ scan.shape.blocks }
    requires scanned { IsScanned plan scan }
    requires untold { IsUntold scan.erases }
    ensures begins { IfOk result (λ mount. (seen : Shown) → IsScanOf (part_of plan) scan seen
        → FitPlan (part_of plan) seen → BeginsWith plan seen mount) }
    ensures first { IfOk result (BeginsFirst plan) }
    ensures counts { IfOk result BeginsToCount }
    ensures refused { IfErr result (RefusesBegin (HasIdle scan)) }
{
    match Mount::new(alloc, plan, scan) {
        Ok(mount) => Ok(mount),
        Err(BeginFault::NoMemory) => Err(MountRefusal::NoMemory),
        Err(BeginFault::NoIdleBlock) => Err(MountRefusal::NoIdleBlock),
        // The part was scanned with this plan.
        Err(BeginFault::BadPlan) => unreachable!(),
        // No erases were reported.
        Err(BeginFault::WornOut { .. }) => unreachable!(),
    }
}

/// The mount by what the part shows. It changes nothing on the part.
fn mount_of<N: LabelledNand>(
    alloc: Global,
    plan: DiePlan,
    part: &mut N,
) -> Result<Mount, MountRefusal>
    requires powered { IsPoweredUp (N.shape_of part.old) (N.blocks part.old) (N.labels part.old)
        (N.failures part.old) }
    ensures begins { IfOk result (λ mount. FitPlan (part_of plan) (N.labels part.old).blocks
        → BeginsWith plan (N.labels part.old).blocks mount) }
    ensures first { IfOk result (BeginsFirst plan) }
    ensures counts { IfOk result BeginsToCount }
    ensures safe { IfOk result (BeginsSafely plan (N.labels part.old).blocks) }
    ensures of_plan { OnOk result (IsPlanOf plan (N.shape_of part.old)) }
    ensures same { OnOk result (IsSamePart N.shape_of N.failures N.blocks N.labels part.old
        part.new) }
    ensures unchanged { IfErr result (λ refusal. refusal ≢ MountRefusal.DeviceFault
        → IsSamePart N.shape_of N.failures N.blocks N.labels part.old part.new) }
    ensures lasts { N.lasts part.old → N.lasts part.new }
    ensures refused { IfErr result (RefusesMount plan (N.shape_of part.old)
        (N.labels part.old).blocks (N.failures part.new)) }
{
    let before = match scan(alloc, &plan, part) {
        Ok(before) => before,
        Err(fault) => return Err(refusal_of(fault)),
    };
    match before.first_erase() {
        FirstErase::Idle { block: _ } => begin_idle(alloc, plan, before),
        FirstErase::Undo { block } => undo(alloc, plan, part, &before, block),
    }
}

/// A mount that has begun on a part, with the memory for its end.
#[derive(Drop)]
pub struct BegunMount<N: LabelledNand> {
    pub mount: PartMount<N>,
    /// For [`finish`](crate::finish).
    pub memory: MountMemory,
}

/// A mount of a part that was powered up and has one block more than the plan. It looks at each cell once, or twice
/// where a mount before it was cut as it copied, and takes all memory for its calls, for its end, and for the die that
/// begins there. Nothing on the part has changed yet.
///
/// That the part is as a device that was powered up is the caller's to know: each block counts as closed, and a cell
/// with a label holds the label's bytes.
///
/// Refused with the first cause that stands, as [`MountRefusal`] lists them; the part is handed back then, as it was
/// unless it failed, and the plan is given up.
pub fn begin<N: LabelledNand>(
    alloc: Global,
    plan: DiePlan,
    part: N,
) -> Result<BegunMount<N>, NotMounted<N>>
    requires powered { IsPoweredUp (N.shape_of part) (N.blocks part) (N.labels part)
        (N.failures part) }
    ensures goes { IfOk result (λ begun. (pages : List Bytes)
        → StandsOnPart plan pages all_count (N.labels part).blocks
        → GoesBySeen N.labels pages (N.labels part).blocks begun.mount) }
    ensures safe { IfOk result (λ begun.
        BeginsSafely plan (N.labels part).blocks begun.mount.mount) }
    ensures plan { IfOk result (λ begun. begun.mount.mount.plan ≡ plan) }
    ensures memory { IfOk result (λ begun. begun.memory ≡ plan) }
    ensures of_plan { OnOk result (IsPlanOf plan (N.shape_of part)) }
    ensures well { IfOk result (λ begun. begun.mount.failed ≡ false) }
    ensures calls { IfOk result (λ begun. calls_left begun.mount.mount ≡ most_calls plan) }
    ensures same { IfOk result (λ begun.
        IsSamePart N.shape_of N.failures N.blocks N.labels part begun.mount.part) }
    ensures unchanged { IfErr result (λ no. no.refusal ≢ MountRefusal.DeviceFault
        → IsSamePart N.shape_of N.failures N.blocks N.labels part no.part) }
    ensures lasts { IfOk result (λ begun. N.lasts part → N.lasts begun.mount.part) }
    ensures lasts_still { IfErr result (λ no. N.lasts part → N.lasts no.part) }
    ensures refused { IfErr result (λ no. RefusesMount plan (N.shape_of part)
        (N.labels part).blocks (N.failures no.part) no.refusal) }
{
    let mut part = part;
    match prepared(alloc, plan, &mut part) {
        Ok((mount, memory)) => Ok(BegunMount {
            mount: PartMount::new(part, mount),
            memory,
        }),
        Err(refusal) => Err(NotMounted { part, refusal }),
    }
}

/// The mount by what the part shows, and the memory for its end. It changes nothing on the part.
fn prepared<N: LabelledNand>(
    alloc: Global,
    plan: DiePlan,
    part: &mut N,
) -> Result<(Mount, MountMemory), MountRefusal>
    requires powered { IsPoweredUp (N.shape_of part.old) (N.blocks part.old) (N.labels part.old)
        (N.failures part.old) }
    ensures begins { IfOk result (λ begun. FitPlan (part_of plan) (N.labels part.old).blocks
        → BeginsWith plan (N.labels part.old).blocks begun.0) }
    ensures first { IfOk result (λ begun. BeginsFirst plan begun.0) }
    ensures counts { IfOk result (λ begun. BeginsToCount begun.0) }
    ensures safe { IfOk result (λ begun. BeginsSafely plan (N.labels part.old).blocks begun.0) }
    ensures memory { IfOk result (λ begun. begun.1 ≡ plan) }
    ensures of_plan { OnOk result (IsPlanOf plan (N.shape_of part.old)) }
    ensures same { OnOk result (IsSamePart N.shape_of N.failures N.blocks N.labels part.old
        part.new) }
    ensures unchanged { IfErr result (λ refusal. refusal ≢ MountRefusal.DeviceFault
        → IsSamePart N.shape_of N.failures N.blocks N.labels part.old part.new) }
    ensures lasts { N.lasts part.old → N.lasts part.new }
    ensures refused { IfErr result (RefusesMount plan (N.shape_of part.old)
        (N.labels part.old).blocks (N.failures part.new)) }
{
    let mount = mount_of(alloc, plan, part)?;
    match MountMemory::take(alloc, mount.plan()) {
        Ok(memory) => Ok((mount, memory)),
        Err(_) => Err(MountRefusal::NoMemory),
    }
}
