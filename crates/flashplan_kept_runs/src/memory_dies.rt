//! A die in memory that keeps its plan.

ghost use Rattle.std.specs.Prelude.{◌≡◌, ◌==◌, ◌&&◌, ◌<◌, ◌+◌, ◌∷◌, [], IfOk};
ghost use Rattle.std.specs.Result.{result_err};
ghost use Rattle.slot_types.specs.declared.replies.Reply.TheVariants as replies;
ghost use Rattle.slot_core.specs.Core.{with_entry};
ghost use Rattle.die_log.specs.Model.Log.{Log, now};
ghost use Rattle.planned_log.specs.Laws.{AreDoneInTime};
ghost use Rattle.planned_log.specs.Moves.{Slot};
ghost use Rattle.flashplan_kept_runs.specs.KeptDies.{BeginsBy, HasEmptyLog, HasMoved, kept_of};
ghost use Rattle.flashplan_kept_runs.specs.KeptRows.{has_other_times, row_moves, row_refusal};

use crate::refusals::RowRefusal;
use flash_die::MemoryNand;
use planned_die::{PlanRefusal, PlannedDie};
use slot_core::DieCore;
use slot_types::{Event, JobNo, MAX_SLOT, Op, OpList, SlotReply, TaskNo};
use std::alloc::Global;
use std::marker::Model;
use terms_texts::DieTerms;

/// A die in memory that keeps its plan, in its first life. Its device never fails.
#[derive(Drop)]
pub struct MemoryDie {
    die: PlannedDie<MemoryNand>,
}

impl Model for MemoryDie {
    ghost use Rattle.flash_die.specs.Memory.{Memory};
    ghost use Rattle.planned_die.specs.Planned.{Planned};
    ghost use Rattle.flashplan_kept_runs.specs.KeptDies.{RunsInFirstLife};

    ghost Value = { Planned Memory };

    ghost view = { λ d. d.die };

    ghost invariant = { λ d. RunsInFirstLife d.die };
}

/// Whether these are the release and the deadline of a job that comes in slot `now` and is due `deadline` slots later.
fn are_times(now: u32, release: u32, due: u32, deadline: u32) -> bool
    ensures { result ≡ ((release == now) && (due == now + deadline)) }
{
    if due < now {
        return false;
    }
    release == now && due - now == deadline
}

impl MemoryDie {
    /// A die on which nothing was done, with a plan and its terms, and with the longest life that these have. It takes all
    /// memory that it ever needs. It is refused as [`PlannedDie::new`] refuses it.
    pub fn new(alloc: Global, plan: DieTerms) -> Result<MemoryDie, PlanRefusal>
        ensures begins { IfOk result (λ die. BeginsBy plan (kept_of die).begun) }
        ensures empty { IfOk result (λ die. HasEmptyLog (kept_of die)) }
    {
        let nand = match MemoryNand::new(alloc, plan.plan.shape) {
            Ok(nand) => nand,
            Err(refusal) => return Err(PlanRefusal::Die(refusal)),
        };
        let DieTerms { plan, terms } = plan;
        let die = match PlannedDie::new(alloc, plan, terms, MAX_SLOT, nand) {
            Ok(die) => die,
            Err(refusal) => return Err(refusal),
        };
        Ok(MemoryDie { die })
    }

    /// How many slots its life has.
    pub fn life(&self) -> u32
        ensures { result ≡ self.now.life }
    {
        self.die.life()
    }

    /// The present slot.
    pub fn now(&self) -> u32
        ensures { result ≡ now self.now.core.log }
    {
        self.die.now()
    }

    /// The die below, to be asked what became of its jobs.
    pub fn core(&self) -> &DieCore<MemoryNand>
        ensures { result.now ≡ self.now.core }
    {
        self.die.core()
    }

    /// Each accepted job that is due by now is done, and was by its deadline. This computes nothing; its contract is the
    /// promise.
    pub fn keeps_plan(&self)
        ensures { AreDoneInTime self.now.core.start.plan self.now.core.log }
    {
        self.die.keeps_plan();
    }

    /// Carries out the present slot, with the collections that the plan has in it. It is never refused before the end of
    /// the life.
    pub fn slot(&mut self, alloc: Global) -> SlotReply
        requires early { now self.old.core.log < self.old.life }
        ensures moved { HasMoved (Slot 0 ∷ []) (kept_of self.old) (kept_of self.new) }
        ensures counted { now self.new.core.log ≡ now self.old.core.log + 1 }
        ensures reply { (before : Log)
            × (self.new.core.log ≡ with_entry 0 Event.Slot (replies.Slot result) before) }
    {
        match self.die.slot(alloc, 0) {
            Ok(reply) => reply,
            Err(_) => unreachable!(),
        }
    }

    /// Whether the row of a job says other times than the plan gives a job of its task that comes now.
    fn has_other_times(&self, task: TaskNo, release: u32, due: u32) -> bool
        ensures { result
            ≡ has_other_times self.now.terms (now self.now.core.log) task release due }
    {
        let now = self.die.now();
        match self.die.terms().tasks.get(task.0 as usize) {
            None => false,
            Some(own) => !are_times(now, release, due, own.deadline),
        }
    }

    /// Asks for what the row of a job says, and answers its number: a job of its task, released in the present slot, and
    /// done by its deadline. Refused with `OtherTimes` where the row says another release, or another deadline than the
    /// plan gives its task; of a task that isn't there it says none. Then with `Ask`, as [`PlannedDie::ask`] refuses it.
    /// Nothing changes then.
    pub fn ask(
        &mut self,
        alloc: Global,
        task: TaskNo,
        release: u32,
        due: u32,
        ops: &[Op],
    ) -> Result<JobNo, RowRefusal>
        ensures refused { result_err result
            ≡ row_refusal (kept_of self.old) (Event.Submit task release due ops.now) }
        ensures moved { let event = Event.Submit task release due ops.now in
            HasMoved (row_moves self.old.terms (now self.old.core.log) event) (kept_of self.old)
            (kept_of self.new) }
        ensures here { now self.new.core.log ≡ now self.old.core.log }
    {
        if self.has_other_times(task, release, due) {
            return Err(RowRefusal::OtherTimes);
        }
        let number = match self.die.ask(alloc, 0, task, ops) {
            Ok(number) => number,
            Err(refusal) => return Err(RowRefusal::Ask(refusal)),
        };
        Ok(number)
    }
}
