//! Bursts: asks for more operations than a job may have.

ghost use Rattle.std.specs.Prelude.{◌≡◌, ◌≤◌, false, None, length, IfSome, IfNone};
ghost use Rattle.die_log.specs.Model.Lives.{Lives};
ghost use Rattle.planned_die.specs.Planned.{HasLived};
ghost use Rattle.planned_die.specs.PlannedCalls.{burst_refusal_in, RefusesBurst, IsBurst};

use crate::burst_jobs::cut;
use crate::planned_die::PlannedDie;
use crate::rooms::why_refused;
use flash_die::Nand;
use planned_log::{AskKind, AskRefusal};
use slot_types::{JobNo, Op, TaskNo};
use std::alloc::Global;

/// What became of a burst: `jobs` jobs, numbered one after the other.
#[derive(Clone, Copy, PartialEq, Eq, Debug, Drop)]
pub struct Burst {
    /// The number of the first one.
    pub first: JobNo,
    /// How many jobs, from 1 on.
    pub jobs: u32,
}

impl<N: Nand> PlannedDie<N> {
    /// Why a burst is refused, if it is.
    fn refuses_burst(&mut self, task: TaskNo, ops: &[Op]) -> Option<AskRefusal>
        ensures some { IfSome result (λ refusal. (earlier : Lives) → HasLived self.old earlier
            → RefusesBurst task ops.now earlier refusal self.old) }
        ensures none { IfNone result ((earlier : Lives) → HasLived self.old earlier
            → burst_refusal_in self.old earlier task ops.now ≡ None) }
        ensures runs { IfNone result (self.old.core.stopped ≡ false) }
        ensures unchanged { self.new ≡ self.old }
    {
        if self.core.is_stopped() {
            return Some(AskRefusal::DieStopped);
        }
        let now = self.core.now();
        why_refused(
            self.core.plan(),
            &self.terms,
            self.life,
            self.first,
            now,
            &mut self.asked,
            AskKind::Burst,
            task,
            ops,
        )
    }

    /// Accepts a burst of the task: as many jobs as its operations take, in order, of 64 operations each except for the
    /// last one, which may have fewer. All are released in the present slot, due as many slots later as the task's
    /// terms say (`deadline`), and done by then, whatever the other tasks ask. Either all are accepted, or none is. A
    /// burst of at most 64 operations is what [`ask`](PlannedDie::ask) accepts as one job.
    ///
    /// The refusals, of which the first that stands is answered and nothing is changed: `DieStopped`; `UnknownTask`;
    /// `EmptyJob`; `TooManyOps`, above the task's `work`; `BadPage`, with the first page that the die doesn't have;
    /// `TooManyWrites`, above the task's `writes`; `TooSoon`, where with what the task asked for in the last `period` slots
    /// the whole burst would be more than its `work` or its `writes`, with the first slot in which it isn't; `LifeEnd`,
    /// where the jobs would be due after the last slot of the die's life. There is no other: tokens, numbers, deadlines and
    /// memory are never lacking, and it takes no memory.
    pub fn ask_all(
        &mut self,
        alloc: Global,
        caller: u32,
        task: TaskNo,
        ops: &[Op],
    ) -> Result<Burst, AskRefusal>
        ensures ask { (earlier : Lives) → HasLived self.old earlier
            → IsBurst caller task ops.now earlier result self.old self.new }
        ensures lived { (earlier : Lives) → HasLived self.old earlier → HasLived self.new earlier }
    {
        match self.refuses_burst(task, ops) {
            Some(refusal) => return Err(refusal),
            None => {}
        }
        self.keeps_plan();
        let (job, rest) = cut(ops);
        let first = self.enter(alloc, caller, task, job);
        let more = self.enter_rest(alloc, caller, task, rest);
        Ok(Burst {
            first,
            jobs: 1 + more,
        })
    }
}
