//! What holds of a mount on its device wherever the power goes. The law is a function that does nothing.

ghost use Rattle.std.specs.Prelude.{◌≡◌, false, List};
ghost use Rattle.slot_types.specs.declared.pages.PageData.{PageData as Bytes};
ghost use Rattle.die_mount.specs.Mounting.{IsStep, Mounting, call_at};
ghost use Rattle.die_mount.specs.SoundMount.{StandsWell};
ghost use Rattle.power_loss.specs.Aside.{StandsOnPart};
ghost use Rattle.power_loss.specs.Labels.{Shown};
ghost use Rattle.power_loss.specs.Mounted.{all_count};
ghost use Rattle.part_mount.specs.Cuts.{MayShow};
ghost use Rattle.part_mount.specs.Going.{GoesBySeen};
ghost use Rattle.part_mount.specs.OnPart.{IsSoundOnPart, OnPart};

use die_mount::Stage;
use labelled_nand::LabelledNand;

/// Wherever the power of a part goes during a mount on it, before a call, in one or at the end, what the part shows once
/// it has come again (`MayShow`) has the same pages, and the next mount can go on from it. That each mount stands well is
/// what `Mount::next` says, and that a call is a step what `Mount::done` does.
pub fn a_part_may_be_cut_anywhere<N: LabelledNand>()
    ensures in_calls { (pages : List Bytes) (seen later : Shown) (now : OnPart N) (after : Mounting)
        → StandsWell now.mount
        → IsSoundOnPart N.never_fails N.shape_of N.blocks N.labels N.failures now
        → now.failed ≡ false → GoesBySeen N.labels pages seen now → IsStep now.mount after
        → MayShow (N.blocks now.part) (N.labels now.part) now.held (call_at now.mount.next now.mount.stage) later
        → StandsOnPart now.mount.plan pages all_count later }
    ensures at_end { (pages : List Bytes) (seen later : Shown) (now : OnPart N)
        → StandsWell now.mount
        → IsSoundOnPart N.never_fails N.shape_of N.blocks N.labels N.failures now
        → now.failed ≡ false → GoesBySeen N.labels pages seen now → now.mount.stage ≡ Stage.Done
        → MayShow (N.blocks now.part) (N.labels now.part) now.held (call_at now.mount.next now.mount.stage) later
        → StandsOnPart now.mount.plan pages all_count later }
{}
