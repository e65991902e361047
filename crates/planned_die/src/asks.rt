//! Asks of tasks.

ghost use Rattle.die_log.specs.Model.Lives.{Lives};
ghost use Rattle.planned_die.specs.Planned.{HasLived};
ghost use Rattle.planned_die.specs.PlannedCalls.{IsAsk};

use crate::all_asks::note_job;
use crate::memory::job_of;
use crate::planned_die::PlannedDie;
use crate::rooms::why_refused;
use crate::terms::terms_at;
use flash_die::Nand;
use planned_log::{AskKind, AskRefusal};
use slot_types::{JobNo, Op, TaskNo};
use std::alloc::Global;

impl<N: Nand> PlannedDie<N> {
    /// Accepts a job of the task, released in the present slot and due as many slots later as the task's terms say
    /// (`deadline`), and answers its number. It is done by then, whatever the other tasks ask.
    ///
    /// The refusals, of which the first that stands is answered and nothing is changed: `DieStopped`; `UnknownTask`;
    /// `EmptyJob`; `TooManyOps`, above 64 or the task's `work`; `BadPage`, with the first page that the die doesn't
    /// have; `TooManyWrites`, above the task's `writes`; `TooSoon`, where with what the task asked for in the last
    /// `period` slots it would be more than its `work` or its `writes`, with the first slot in which it isn't; `LifeEnd`,
    /// where the job would be due after the last slot of the die's life. There is no other: tokens, numbers, deadlines
    /// and memory are never lacking, and it takes no memory.
    pub fn ask(
        &mut self,
        alloc: Global,
        caller: u32,
        task: TaskNo,
        ops: &[Op],
    ) -> Result<JobNo, AskRefusal>
        ensures ask { (earlier : Lives) → HasLived self.old earlier
            → IsAsk caller task ops.now earlier result self.old self.new }
        ensures lived { (earlier : Lives) → HasLived self.old earlier → HasLived self.new earlier }
    {
        if self.core.is_stopped() {
            return Err(AskRefusal::DieStopped);
        }
        let now = self.core.now();
        match why_refused(
            self.core.plan(),
            &self.terms,
            self.life,
            self.first,
            now,
            &mut self.asked,
            AskKind::Job,
            task,
            ops,
        ) {
            Some(refusal) => return Err(refusal),
            None => {}
        }
        let own = task.0 as usize;
        let deadline = terms_at(&self.terms, own).deadline;
        let clock = self.first + u64::from(now);
        match self
            .core
            .submit_lent(alloc, caller, task, now, now + deadline, ops)
        {
            Ok(number) => {
                note_job(&mut self.asked, own, job_of(clock, ops));
                Ok(number)
            }
            // What its task's part of the plan allows no plan refuses, and memory is reserved for it.
            Err(_) => unreachable!(),
        }
    }
}
