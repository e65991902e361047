//! What stands on the device of a die that keeps labels. Each law is a function that does nothing.

ghost use Rattle.std.specs.Prelude.{◌≡◌, ◌+◌, ◌<◌, ◌^◌, ℕ, List, map};
ghost use Rattle.slot_types.specs.declared.events.Event.{Event};
ghost use Rattle.slot_types.specs.declared.events.Event.TheVariants as events;
ghost use Rattle.slot_types.specs.declared.replies.Reply.{Reply};
ghost use Rattle.flash_die.specs.Flash as device;
ghost use Rattle.die_log.specs.Model.Answers.{answer};
ghost use Rattle.die_log.specs.Model.Flash.{cells, contents, ran_by};
ghost use Rattle.die_log.specs.Model.Log.{Log};
ghost use Rattle.die_log.specs.Model.NeededCalls.{needed_call};
ghost use Rattle.die_log.specs.Model.Start.{Start};
ghost use Rattle.power_loss.specs.Labels.{Labels, labels_after};
ghost use Rattle.slot_core.specs.Calls.{IsCall, HasEntered};
ghost use Rattle.slot_core.specs.Core.{Core};
ghost use Rattle.slot_core.specs.Device.{counts_of};
ghost use Rattle.labelled_die.specs.Labelled.{HasLabels, labels_by};

use labelled_nand::LabelledNand;

/// The call of the device that the log's next slot needs leaves of the labels of its cells what the log's slot leaves
/// of its labels: on a device whose blocks are the log's, while serials have room.
pub fn slots_label_as_the_log()
    ensures { (start : Start) (log : Log) (blocks : List device.Block) (l : Labels)
        → l.next + 1 < 2 ^ 64 → map counts_of blocks ≡ (cells start log).blocks
        → labels_by start.plan.shape.erase_slots blocks (needed_call start log) l
        ≡ labels_after start.plan (cells start log) (contents start log)
        (ran_by (answer start log events.Slot)) l }
{}

/// The labels of a die's device are those that its log gives it, where the log began with the labels that were there:
/// each answered slot keeps that, while serials have room, and so does each job or collection that is entered. That the
/// device has the shape and the blocks of the log is what `DieCore::device` says.
pub fn calls_keep_labels<N: LabelledNand>()
    ensures slot { (first : Labels) (caller : ℕ) (reply : Reply) (before after : Core N)
        → N.shape_of before.device ≡ before.start.plan.shape
        → map counts_of (N.blocks before.device) ≡ (cells before.start before.log).blocks
        → (N.labels before.device).next + 1 < 2 ^ 64
        → IsCall N.ends N.failures N.never_fails caller events.Slot (Ok reply) before after
        → HasLabels N.labels first before → HasLabels N.labels first after }
    ensures arrival { (first : Labels) (caller : ℕ) (event : Event) (number : ℕ) (before after : Core N)
        → HasEntered caller event number before after
        → HasLabels N.labels first before → HasLabels N.labels first after }
{}
