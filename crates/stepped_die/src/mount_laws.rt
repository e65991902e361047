//! A die that begins where a mount ended, and the serials of its programs. Each law is a function that does nothing.

ghost use Rattle.std.specs.Prelude.{◌≡◌, ◌+◌, ◌<◌, ◌^◌, ℕ, Bool, false, List};
ghost use Rattle.slot_types.specs.declared.acts.Act.{Act};
ghost use Rattle.slot_types.specs.declared.pages.PageData.{PageData};
ghost use Rattle.slot_types.specs.declared.plans.DiePlan.{DiePlan};
ghost use Rattle.slot_types.specs.declared.replies.SlotReply.{SlotReply};
ghost use Rattle.power_loss.specs.Aside.{MountsTo};
ghost use Rattle.power_loss.specs.Labels.{Labels, Shown, IsLabelled, labels};
ghost use Rattle.power_loss.specs.Mounted.{all_count};
ghost use Rattle.die_checkpoint.specs.declared.checkpoint.Checkpoint.{Checkpoint};
ghost use Rattle.die_mount.specs.declared.mounted.Mounted.{Mounted as Ended};
ghost use Rattle.die_mount.specs.Cutting.{GoesBy};
ghost use Rattle.die_mount.specs.Ending.{IsEndOf};
ghost use Rattle.die_mount.specs.Mounting.{Mounting, IsAtEnd};
ghost use Rattle.slot_core.specs.Renewals.{renewed_core};
ghost use Rattle.stepped_die.specs.Names.{GoesOn};
ghost use Rattle.stepped_die.specs.Numbered.{NamesPages, NumbersPrograms, first_labels};
ghost use Rattle.stepped_die.specs.Stepped.{Stepped, IsStepped};
ghost use Rattle.stepped_die.specs.Steps.{HasEnded, IsNew};

/// A die that begins where a mount ended begins a life after the loss of power: at a start to which the mount goes by
/// what it saw, with full accounts and with just the pages that were found, if the driver gave their names. Its serial
/// is the number of its next program.
pub fn a_mounted_die_begins_a_life()
    ensures { (pages : List PageData) (before : Shown) (erased next : ℕ) (acts : List Act) (m : Mounting) (end : Ended)
        (names : List PageData) (die : Stepped) → GoesBy pages before erased next acts m → IsAtEnd m → IsEndOf m end
        → NamesPages m.cells.places names pages → GoesOn m.plan end.checkpoint names die
        → die.part ≡ record { aside = end.aside; serial = end.next; stands = false }
        → (first : Labels) × MountsTo m.plan all_count before die.core.start first × NumbersPrograms first die }
{}

/// A die's serial is the number of its next program, whatever slots it ends, up to the greatest number that there is;
/// and so it is once its log is renewed, where the labels stay, and of a die that was resumed with it. A fresh die numbers
/// its programs from 1 on.
pub fn serials_number_programs()
    ensures ended { (first : Labels) (ok : Bool) (bytes : PageData) (reply : SlotReply) (before after : Stepped)
        → IsStepped before → HasEnded ok bytes reply before after → before.part.serial + 1 < 2 ^ 64
        → NumbersPrograms first before → NumbersPrograms first after }
    ensures renewed { (first : Labels) (die : Stepped) → NumbersPrograms first die
        → NumbersPrograms (labels die.core.start first die.core.log) (record die { core = renewed_core die.core }) }
    ensures resumed { (first : Labels) (plan : DiePlan) (c : Checkpoint) (names : List PageData) (die : Stepped)
        → GoesOn plan c names die → die.part.serial ≡ first.next → NumbersPrograms first die }
    ensures new { (plan : DiePlan) (die : Stepped) → IsNew plan die
        → IsLabelled die.core.start (first_labels plan) × NumbersPrograms (first_labels plan) die }
{}
