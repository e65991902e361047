//! What holds of each mount of a part. Each law is a function that does nothing.

ghost use Rattle.std.specs.Prelude.{◌≡◌, ◌⊎◌, ◌∷◌, [], ℕ, false, List};
ghost use Rattle.slot_types.specs.declared.pages.PageData.{PageData};
ghost use Rattle.slot_types.specs.declared.plans.DiePlan.{DiePlan as Plan};
ghost use Rattle.slot_types.specs.declared.plans.Shape.{Shape};
ghost use Rattle.die_log.specs.Model.Start.{Start, fresh};
ghost use Rattle.labelled_nand.specs.Memory.{device_labels, fresh_marked, powered_up};
ghost use Rattle.power_loss.specs.Aside.{MountsTo, StandsOnPart, part_of};
ghost use Rattle.power_loss.specs.Labels.{Labels, Shown};
ghost use Rattle.power_loss.specs.Losses.{AreLives};
ghost use Rattle.power_loss.specs.Mounted.{all_count};
ghost use Rattle.device_mount.specs.Parts.{IsPlanOf, ShowsNothing};
ghost use Rattle.device_mount.specs.Refusals.{RefusesMount};

use crate::refusals::MountRefusal;

/// Where a mount could go on from what a part shows, as it can wherever the power went, it is not refused for lack of an
/// idle block.
pub fn a_part_that_stands_has_a_block_to_erase()
    ensures { (plan : Plan) (shape : Shape) (pages : List PageData) (seen : Shown) (failures : ℕ)
        → StandsOnPart plan pages all_count seen
        → RefusesMount plan shape seen failures MountRefusal.NoIdleBlock → ⊥ }
{}

/// A part of which no cell shows a label, as one on which nothing was ever programmed, may be mounted: with blank pages,
/// as those of a fresh die. It is refused for memory or for a fault of the part alone. A device in memory that is fresh
/// shows no label once its power has come.
pub fn a_blank_part_stands()
    ensures stands { (plan : Plan) (from : ℕ → ℕ) (seen : Shown) → ShowsNothing plan seen
        → StandsOnPart plan (fresh plan).contents from seen }
    ensures refused { (plan : Plan) (shape : Shape) (seen : Shown) (failures : ℕ) (why : MountRefusal)
        → ShowsNothing plan seen → IsPlanOf plan shape → RefusesMount plan shape seen failures why
        → (why ≡ MountRefusal.NoMemory) ⊎ (why ≡ MountRefusal.DeviceFault) }
    ensures fresh { (plan : Plan) (serial : ℕ) → ShowsNothing plan
        (device_labels (powered_up (fresh_marked (part_of plan).shape serial))).blocks }
{}

/// The life that a mount begins which knows of no trim may be counted as the first of its die's lives. So all laws of
/// `power_loss` hold of it and of those after it, whatever was on the part before, or if nothing was.
pub fn a_mounted_life_may_be_the_first()
    ensures { (plan : Plan) (seen : Shown) (start : Start) (first : Labels)
        → MountsTo plan all_count seen start first
        → AreLives (record { start = start; first = first; from = all_count; log = []; lost = false } ∷ []) }
{}
