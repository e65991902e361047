//! What holds where the blocks of a device have other numbers than before. A law is a function that does nothing.

ghost use Rattle.std.specs.Prelude.{◌≡◌, ◌+◌, ◌<◌, ℕ, List};
ghost use Rattle.slot_types.specs.declared.pages.PageData.{PageData};
ghost use Rattle.slot_types.specs.declared.plans.DiePlan.{DiePlan};
ghost use Rattle.slot_types.specs.declared.plans.Shape.{Shape};
ghost use Rattle.power_loss.specs.Aside.{StandsOnPart};
ghost use Rattle.power_loss.specs.Labels.{Shown};
ghost use Rattle.power_loss.specs.Laws.{From};
ghost use Rattle.spare_blocks.specs.Parts.{PartBlock};
ghost use Rattle.spare_blocks.specs.Powering.{IsPoweredPart, IsPoweredSpared};
ghost use Rattle.spare_blocks.specs.Spares.{Spared, plan_shape};
ghost use Rattle.labelled_spares.specs.Labels.{spared_labels};
ghost use Rattle.labelled_spares.specs.Numbers.{AreRenumbered};
ghost use Rattle.labelled_spares.specs.Shown.{MayShow};

use spare_blocks::LabelledWearing;

/// Which number a block has is nothing to a mount: where a mount could go on from what is seen, with these pages, it can
/// go on from the same labels in blocks with other numbers, and finds the same pages.
pub fn a_mount_goes_on_by_any_numbers()
    ensures { (plan : DiePlan) (pages : List PageData) (from : From) (seen other : Shown)
        → StandsOnPart plan pages from seen → AreRenumbered seen other
        → StandsOnPart plan pages from other }
{}

/// A mount finds the same pages on a device that is made anew (`power_up`) as on the one before, though blocks have other
/// numbers, and one may have been being replaced: where a mount could go on from what is seen of the blocks by their
/// numbers before, and the part shows that so (`MayShow`), it can go on from what the new device shows.
pub fn a_device_made_anew_has_the_same_pages<D: LabelledWearing>()
    ensures { (plan : DiePlan) (pages : List PageData) (from : From) (seen : Shown) (bad : List ℕ) (shown : List PartBlock) (part : Shape) (d : Spared D)
        → StandsOnPart plan pages from seen → MayShow (plan.shape.blocks + 1) bad seen shown
        → IsPoweredPart part shown
        → IsPoweredSpared D.blocks (plan_shape (plan.shape.blocks + 1) part) part shown bad d
        → StandsOnPart plan pages from (spared_labels D.blocks D.next d).blocks }
{}
