//! The serials of a die's programs, and a die that begins where a mount ended. Each law is a function that does nothing.

ghost use Rattle.std.specs.Prelude.{◌≡◌, ◌≢◌, ◌+◌, ◌<◌, ◌^◌, ℕ, Bool, false, List};
ghost use Rattle.slot_types.specs.declared.acts.Act.{Act};
ghost use Rattle.slot_types.specs.declared.events.Op.{Op};
ghost use Rattle.slot_types.specs.declared.pages.PageData.{PageData};
ghost use Rattle.slot_types.specs.declared.plans.DiePlan.{DiePlan};
ghost use Rattle.slot_types.specs.declared.replies.SlotReply.{SlotReply};
ghost use Rattle.demand_rules.specs.declared.terms.Terms.{Terms};
ghost use Rattle.demand_rules.specs.Demand.{PassesDemand};
ghost use Rattle.demand_rules.specs.Supply.{PassesSupply};
ghost use Rattle.die_checkpoint.specs.Fits.{Fits};
ghost use Rattle.die_log.specs.Model.Start.{Start, fresh};
ghost use Rattle.die_log.specs.Results.DemandedLives.{AreFull};
ghost use Rattle.power_loss.specs.Aside.{MountsTo};
ghost use Rattle.power_loss.specs.Labels.{Labels, Shown, IsLabelled};
ghost use Rattle.power_loss.specs.Mounted.{all_count};
ghost use Rattle.die_mount.specs.declared.mounted.Mounted.{Mounted as Ended};
ghost use Rattle.die_mount.specs.Cutting.{GoesBy};
ghost use Rattle.die_mount.specs.Ending.{IsEndOf};
ghost use Rattle.die_mount.specs.Mounting.{Mounting, IsAtEnd};
ghost use Rattle.planned_log.specs.declared.ask_kinds.AskKind.{AskKind};
ghost use Rattle.planned_log.specs.Moves.{Ask, Slot};
ghost use Rattle.ongoing_log.specs.PastLives.{PastLife};
ghost use Rattle.ongoing_log.specs.Ongoing.{Ongoing, AreLongEnough, begun_after, new_ongoing, ongoing_after_move};
ghost use Rattle.planned_die.specs.NewPlans.{IsSomeLife};
ghost use Rattle.ongoing_die.specs.declared.refusals.OngoingResumeRefusal.{OngoingResumeRefusal};
ghost use Rattle.ongoing_die.specs.BegunSlots.{BegunParts, HasBegunSlot};
ghost use Rattle.ongoing_die.specs.Resuming.{RefusesOngoingResume, out_of_memory};
ghost use Rattle.ongoing_die.specs.Standing.{OngoingParts};
ghost use Rattle.stepped_die.specs.declared.calls.Begun.{Begun};
ghost use Rattle.stepped_die.specs.declared.mirror.MirrorNand.{MirrorNand};
ghost use Rattle.stepped_die.specs.declared.part.Part.{Part};
ghost use Rattle.stepped_die.specs.Numbered.{NamesPages, first_labels};
ghost use Rattle.stepped_die.specs.Parts.{fresh_part, serial_after};
ghost use Rattle.stepped_plan.specs.Calls.{HasEndedIn};
ghost use Rattle.stepped_plan.specs.Numbered.{BeginsWith, NumbersPlanned};
ghost use Rattle.stepped_plan.specs.Resuming.{GoesOnPlanned};
ghost use Rattle.stepped_plan.specs.Stages.{AreParts, IsAsked, Stepping};

use ongoing_die::stocked_checkpoints_go_on;
use planned_die::full_checkpoints_are_stocked;

/// A die's serial is the number of its next program, whatever its tasks ask, and whatever slots it ends, up to the greatest number that
/// there is: where a life ends, the next one begins with the labels that it left. A fresh die numbers its programs from 1 on.
pub fn serials_number_planned_programs()
    ensures new { (plan : DiePlan) → IsLabelled (fresh plan) (first_labels plan)
        × NumbersPlanned (fresh plan) (first_labels plan) (new_ongoing plan) (fresh_part plan) }
    ensures asked { (first : Start) (l : Labels) (d : Ongoing) (part : Part) (terms : Terms) (life : ℕ) (kind : AskKind)
        (caller task : ℕ) (ops : List Op) → NumbersPlanned first l d part
        → NumbersPlanned first l (ongoing_after_move first terms life d (Ask kind caller task ops)) part }
    ensures slots { (first : Start) (l : Labels) (d : Ongoing) (part : Part) (before after : OngoingParts MirrorNand)
        (within : BegunParts MirrorNand) (begun : Begun) (ok : Bool) (bytes : PageData) (reply : SlotReply)
        → HasBegunSlot within.caller first d before within.parts → IsAsked within begun
        → HasEndedIn ok bytes reply within begun after → part.serial + 1 < 2 ^ 64 → NumbersPlanned first l d part
        → (own : Labels) × BeginsWith l after own
        × NumbersPlanned first own (ongoing_after_move first before.die.terms before.die.life d (Slot within.caller))
        (record part { serial = serial_after begun.call part.serial }) }
{}

/// A die that begins where a mount ended begins a life after the loss of power: at a start to which the mount goes by what it saw, with
/// full accounts and with just the pages that were found, if the driver gave their names. Its serial is the number of its next program,
/// after whatever lives it goes on.
pub fn a_mounted_plan_begins_a_life()
    ensures { (pages : List PageData) (before : Shown) (erased next : ℕ) (acts : List Act) (m : Mounting) (end : Ended) (terms : Terms)
        (longest : ℕ) (names : List PageData) (p : Stepping) (die : OngoingParts MirrorNand) → GoesBy pages before erased next acts m
        → IsAtEnd m → IsEndOf m end → NamesPages m.cells.places names pages
        → GoesOnPlanned m.plan terms longest end.checkpoint names p → AreParts p die
        → p.part ≡ record { aside = end.aside; serial = end.next; stands = false }
        → (first : Labels) × MountsTo m.plan all_count before die.die.core.start first × AreFull die.die.core.start
        × ((from : Start) (past : List PastLife) (tasks : ℕ) → NumbersPlanned from first (begun_after past tasks) p.part) }
{}

/// Where a mount has ended, a die that keeps its plan begins with the plan of the mount, unless memory is refused, if the terms pass
/// their tests, and some life that is allowed is long enough for a job of each task: so with those of the die before it.
pub fn mounted_plans_go_on()
    ensures { (m : Mounting) (end : Ended) (terms : Terms) (longest life : ℕ) (why : OngoingResumeRefusal) → IsEndOf m end
        → Fits m.plan end.checkpoint → PassesDemand m.plan terms → PassesSupply m.plan terms → IsSomeLife m.plan terms longest life
        → AreLongEnough terms life → why ≢ out_of_memory
        → ¬ RefusesOngoingResume m.plan terms longest end.checkpoint m.plan.shape why }
{
    full_checkpoints_are_stocked();
    stocked_checkpoints_go_on();
}
