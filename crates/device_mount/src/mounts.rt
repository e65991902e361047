//! A whole mount of a part.

ghost use Rattle.std.specs.Prelude.{◌≡◌, ◌≢◌, List, IfErr, IfOk};
ghost use Rattle.slot_types.specs.declared.pages.PageData.{PageData as Bytes};
ghost use Rattle.labelled_die.specs.Scanning.{IsSamePart};
ghost use Rattle.labelled_nand.specs.PoweredUp.{IsPoweredUp};
ghost use Rattle.power_loss.specs.Aside.{StandsOnPart};
ghost use Rattle.power_loss.specs.Mounted.{all_count};
ghost use Rattle.device_mount.specs.Mounted.{BeginsLife, HasBegun};
ghost use Rattle.device_mount.specs.Refusals.{RefusesMount};

use crate::beginning::{BegunMount, begin};
use crate::ending::finish;
use crate::refusals::{MountRefusal, NotMounted};
use labelled_die::BesideNand;
use labelled_nand::LabelledNand;
use slot_core::DieCore;
use slot_types::DiePlan;
use std::alloc::Global;

/// Mounts a part that was powered up: a die begins on its blocks but the one that stands aside, by what its cells show.
/// It is [`begin`], all steps of the mount, which are at most `most_calls` calls of the part, and [`finish`].
///
/// Where a mount could go on from what the cells show (`StandsOnPart`), as it can wherever the power went, the die's
/// life begins with just the pages that are found. A page that was trimmed since its last write, and since the last loss
/// of power, may be found again, with some earlier write, since a trim leaves no label.
///
/// What lasts of the part (`lasts` of [`LabelledNand`]) does so through the mount: of the die's part, and of one that is
/// handed back.
///
/// Refused with the first cause that stands, as [`MountRefusal`] lists them; the part is handed back then, and the plan is
/// given up. All memory is taken before the first erase. So nothing on the part has changed where it is refused, for
/// memory or else, unless the part failed: then it has to be powered up anew before the next mount.
pub fn mount<N: LabelledNand>(
    alloc: Global,
    plan: DiePlan,
    part: N,
) -> Result<DieCore<BesideNand<N>>, NotMounted<N>>
    requires powered { IsPoweredUp (N.shape_of part) (N.blocks part) (N.labels part)
        (N.failures part) }
    ensures begun { IfOk result (HasBegun plan) }
    ensures life { IfOk result (λ core. (pages : List Bytes)
        → StandsOnPart plan pages all_count (N.labels part).blocks
        → BeginsLife N.labels plan (N.labels part).blocks pages core) }
    ensures refused { IfErr result (λ no. RefusesMount plan (N.shape_of part)
        (N.labels part).blocks (N.failures no.part) no.refusal) }
    ensures unchanged { IfErr result (λ no. no.refusal ≢ MountRefusal.DeviceFault
        → IsSamePart N.shape_of N.failures N.blocks N.labels part no.part) }
    ensures lasts { IfOk result (λ core. N.lasts part → N.lasts core.device.part) }
    ensures lasts_still { IfErr result (λ no. N.lasts part → N.lasts no.part) }
{
    let BegunMount { mut mount, memory } = match begin(alloc, plan, part) {
        Ok(begun) => begun,
        Err(no) => return Err(no),
    };
    if mount.carry_all().is_err() {
        return Err(NotMounted {
            part: mount.into_parts().part,
            refusal: MountRefusal::DeviceFault,
        });
    }
    Ok(finish(mount, memory))
}
