//! What a die is asked. A question changes nothing.

ghost use Rattle.std.specs.Prelude.{◌≡◌, ◌+◌, slice_index_or, option_map, None};
ghost use Rattle.die_log.specs.Model.Log.{now};
ghost use Rattle.ongoing_log.specs.Ongoing.{ops_of};
ghost use Rattle.power_loss.specs.Aside.{on_part};
ghost use Rattle.ongoing_die.specs.Standing.{OngoingParts};
ghost use Rattle.stepped_die.specs.declared.mirror.MirrorNand.{MirrorNand};
ghost use Rattle.stepped_plan.specs.Stages.{AreParts, begun_in};

use crate::plan::SteppedPlan;
use crate::stage::Stage;
use planned_die::PlannedDie;
use slot_types::{Op, TaskNo};
use stepped_die::{Begun, MirrorNand, Part, on_part};

impl SteppedPlan {
    /// The die below, in the life of its log, to be asked what became of its jobs. A slot that has begun isn't in the log, or that
    /// has failed; its collections are.
    pub fn die(&self) -> &PlannedDie<MirrorNand>
        ensures { (parts : OngoingParts MirrorNand) → AreParts self.now parts → result.now ≡ parts.die }
    {
        match &self.stage {
            Some(Stage::Between { die }) => die.die(),
            Some(Stage::Within { die, .. }) => die.die(),
            None => unreachable!(),
        }
    }

    /// The slot that has begun, if one has.
    pub fn begun(&self) -> Option<Begun>
        ensures { result ≡ begun_in self.now }
    {
        match &self.stage {
            Some(Stage::Within { begun, .. }) => Some(*begun),
            _ => None,
        }
    }

    /// The present slot of the clock of all lives.
    pub fn clock(&self) -> u64
        ensures { (parts : OngoingParts MirrorNand) → AreParts self.now parts
            → result ≡ parts.die.first + now parts.die.core.log }
    {
        match &self.stage {
            Some(Stage::Between { die }) => die.clock(),
            Some(Stage::Within { die, .. }) => die.clock(),
            None => unreachable!(),
        }
    }

    /// The operations of the task's ask that waits for the next life, if one does.
    pub fn waiting(&self, task: TaskNo) -> Option<&[Op]>
        ensures { (parts : OngoingParts MirrorNand) → AreParts self.now parts
            → option_map (λ ops. ops.now) result ≡ ops_of (slice_index_or parts.waiting task None) }
    {
        match &self.stage {
            Some(Stage::Between { die }) => die.waiting(task),
            Some(Stage::Within { die, .. }) => die.waiting(task),
            None => unreachable!(),
        }
    }

    /// What is known of the part: the block that stands aside, and the serial of the next program, within a slot that has begun, too.
    /// It rises by one with each program that is ended, up to 2^64 - 1, whichever lives pass. A fresh die begins with 1. And whether
    /// a checkpoint stands from which the die was resumed.
    pub fn part(&self) -> Part
        ensures { result ≡ self.now.part }
    {
        self.part
    }

    /// The number that the part gives a block of the die. A die that wasn't mounted has the part's own numbers.
    pub fn part_block(&self, block: u32) -> u32
        ensures { (parts : OngoingParts MirrorNand) → AreParts self.now parts
            → result ≡ on_part parts.die.core.start.plan.shape.blocks self.now.part.aside block }
    {
        on_part(
            self.die().core().plan().shape.blocks,
            self.part.aside,
            block,
        )
    }
}
