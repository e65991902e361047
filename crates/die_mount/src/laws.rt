//! What holds of a mount from its first call to its last one, wherever the power goes.

ghost use Rattle.std.specs.Prelude.{◌≡◌, ◌<◌, ℕ, [], List};
ghost use Rattle.slot_types.specs.declared.acts.Act.{Act};
ghost use Rattle.slot_types.specs.declared.pages.PageData.{PageData};
ghost use Rattle.slot_types.specs.declared.plans.DiePlan.{DiePlan};
ghost use Rattle.plan_rules.specs.Bound.{MeetsBound};
ghost use Rattle.power_loss.specs.Aside.{MountsTo, StandsOnPart, most_rounds_beside};
ghost use Rattle.power_loss.specs.Labels.{Labels, Shown};
ghost use Rattle.power_loss.specs.Mounted.{all_count};
ghost use Rattle.power_loss.specs.Recovery.{FitRounds, IsFreeBlock};
ghost use Rattle.die_mount.specs.Cutting.{GoesBy, MaySeeCut, StartsLog};
ghost use Rattle.die_mount.specs.Ending.{start_beside};
ghost use Rattle.die_mount.specs.Erases.{counted};
ghost use Rattle.die_mount.specs.Mounting.{Mounting, BeginsWith, IsAtEnd, IsMountOf, IsStep, acts_after, calls_left, most_calls};

use crate::stage::Stage;

/// A mount goes by what was seen of the part from its first call on, and by the acts of its calls, one after the other.
pub fn a_mount_goes_by_what_it_saw()
    ensures begins { (plan : DiePlan) (pages : List PageData) (before : Shown) (m : Mounting) → MeetsBound plan
        → plan.shape.blocks < 1024 → StandsOnPart plan pages all_count before → BeginsWith plan before m
        → (erased : ℕ) × (next : ℕ) × GoesBy pages before erased next [] m }
    ensures goes_on { (pages : List PageData) (before : Shown) (erased next : ℕ) (acts : List Act) (old new : Mounting)
        → GoesBy pages before erased next acts old → IsStep old new
        → GoesBy pages before erased next (acts_after old.stage acts) new }
{}

/// Wherever the power goes during a mount, before a call, during one or at its end, what is seen of the part then shows
/// the same pages, and the next mount can go on from it.
pub fn a_mount_may_be_cut_anywhere()
    ensures in_calls { (pages : List PageData) (before : Shown) (erased next : ℕ) (acts : List Act)
        (old new : Mounting) → GoesBy pages before erased next acts old → IsStep old new → (seen : Shown)
        → MaySeeCut pages before erased next acts old seen → StandsOnPart old.plan pages all_count seen }
    ensures at_end { (pages : List PageData) (before : Shown) (erased next : ℕ) (acts : List Act) (m : Mounting)
        → GoesBy pages before erased next acts m → m.stage ≡ Stage.Done → (seen : Shown)
        → MaySeeCut pages before erased next acts m seen → StandsOnPart m.plan pages all_count seen }
{}

/// Where no call comes any longer, a log may start with full accounts and with just the pages that were found, beside a
/// block that is wholly free.
pub fn a_mount_that_ends_starts_a_log()
    ensures { (pages : List PageData) (before : Shown) (erased next : ℕ) (acts : List Act) (m : Mounting)
        → GoesBy pages before erased next acts m → IsAtEnd m → StartsLog pages before erased next acts m }
{}

/// There the mount goes to the die beside any wholly free block, by what it saw: a log may start on that die, with full
/// accounts, with just the pages that were found and with each block's erases before the mount and in it, and the serial
/// of its next program is the mount's.
pub fn a_mount_that_ends_leaves_a_die()
    ensures { (pages : List PageData) (before : Shown) (erased next : ℕ) (acts : List Act) (m : Mounting)
        → GoesBy pages before erased next acts m → IsAtEnd m → (aside : ℕ) → IsFreeBlock m.cells aside
        → (first : Labels) × MountsTo m.plan all_count before (start_beside m.plan aside (counted m.counts m.cells) pages) first
        × (first.next ≡ m.next) }
{}

/// At its start no more calls may come than the plan says. A mount does no more copies, and no more slots of erases
/// apart from those of its first block, than the most rounds have: N free pages for full accounts take N / alpha
/// rounds, rounded up.
pub fn a_mount_is_short()
    ensures calls { (plan : DiePlan) (before : Shown) (m : Mounting) → BeginsWith plan before m
        → calls_left m ≡ most_calls plan }
    ensures acts { (before : Shown) (erased next : ℕ) (acts : List Act) (m : Mounting)
        → IsMountOf before erased next acts m → FitRounds m.plan (most_rounds_beside m.plan) acts }
{}
