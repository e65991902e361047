//! The die that begins where a mount of its part has ended.

ghost use Rattle.std.specs.Prelude.{◌≡◌, false, List};
ghost use Rattle.slot_types.specs.declared.pages.PageData.{PageData as Bytes};
ghost use Rattle.die_checkpoint.specs.Fits.{Fits};
ghost use Rattle.die_mount.specs.Mounting.{IsAtEnd};
ghost use Rattle.die_mount.specs.SoundMount.{StandsWell};
ghost use Rattle.power_loss.specs.Labels.{Shown};
ghost use Rattle.part_mount.specs.Going.{GoesBySeen};
ghost use Rattle.part_mount.specs.OnPart.{IsSoundOnPart, on_part};
ghost use Rattle.device_mount.specs.Mounted.{BeginsLife, HasBegun, HasEnded};

use crate::memory::MountMemory;
use die_mount::{Mounted, Stage};
use labelled_die::BesideNand;
use labelled_nand::LabelledNand;
use part_mount::{MountParts, PartMount};
use slot_core::{DieCore, DieMemory};

/// The die that begins where a mount has ended, on the part's blocks but the one aside: at slot 0, with an empty log,
/// full accounts, and the serials that go on from the mount's. No call of the part is made, no memory is taken, and
/// nothing is refused.
pub fn finish<N: LabelledNand>(mount: PartMount<N>, memory: MountMemory) -> DieCore<BesideNand<N>>
    requires ended { mount.mount.stage ≡ Stage.Done }
    requires well { mount.failed ≡ false }
    requires memory { memory ≡ mount.mount.plan }
    ensures begun { HasBegun mount.mount.plan result }
    ensures life { (pages : List Bytes) (seen : Shown)
        → GoesBySeen N.labels pages seen mount
        → BeginsLife N.labels mount.mount.plan seen pages result }
    ensures lasts { N.lasts mount.part → N.lasts result.device.part }
{
    let parts = mount.into_parts();
    match parts.mount.next() {
        None => end_of(parts, memory),
        Some(_) => unreachable!(),
    }
}

/// The same, of a mount's parts.
fn end_of<N: LabelledNand>(parts: MountParts<N>, memory: MountMemory) -> DieCore<BesideNand<N>>
    requires sound { IsSoundOnPart N.never_fails N.shape_of N.blocks N.labels N.failures
        (on_part parts.part parts.mount parts.erased parts.held parts.failed) }
    requires well { parts.failed ≡ false }
    requires ended { parts.mount.stage ≡ Stage.Done }
    requires stands { StandsWell parts.mount }
    requires at_end { IsAtEnd parts.mount }
    requires memory { memory ≡ parts.mount.plan }
    ensures begun { HasBegun parts.mount.plan result }
    ensures life { (pages : List Bytes) (seen : Shown)
        → GoesBySeen N.labels pages seen
        (on_part parts.part parts.mount parts.erased parts.held parts.failed)
        → BeginsLife N.labels parts.mount.plan seen pages result }
    ensures lasts { N.lasts parts.part → N.lasts result.device.part }
{
    let MountMemory { end, die } = memory;
    let end = parts.mount.finish_in(end);
    begun(parts, die, &end)
}

/// The die on the part's blocks but the one aside.
fn begun<N: LabelledNand>(
    parts: MountParts<N>,
    memory: DieMemory,
    end: &Mounted,
) -> DieCore<BesideNand<N>>
    requires sound { IsSoundOnPart N.never_fails N.shape_of N.blocks N.labels N.failures
        (on_part parts.part parts.mount parts.erased parts.held parts.failed) }
    requires well { parts.failed ≡ false }
    requires ended { parts.mount.stage ≡ Stage.Done }
    requires plan { memory ≡ parts.mount.plan }
    requires end { HasEnded parts.mount parts.erased end.now }
    requires fits { Fits memory end.now.checkpoint }
    ensures begun { HasBegun memory result }
    ensures life { (pages : List Bytes) (seen : Shown)
        → GoesBySeen N.labels pages seen
        (on_part parts.part parts.mount parts.erased parts.held parts.failed)
        → BeginsLife N.labels memory seen pages result }
    ensures lasts { N.lasts parts.part → N.lasts result.device.part }
{
    let mut part = parts.part;
    part.number_from(end.next);
    memory.resume(BesideNand::new(part, end.aside), &end.checkpoint)
}
