//! The jobs of a burst.

ghost use Rattle.std.specs.Prelude.{◌≡◌, ◌≤◌, false, None, length, take, drop};
ghost use Rattle.slot_types.specs.declared.limits.TheConstants.{MAX_OPS};
ghost use Rattle.die_log.specs.Model.Log.{jobs};
ghost use Rattle.die_log.specs.Model.Lives.{Lives};
ghost use Rattle.planned_log.specs.Bursts.{jobs_of};
ghost use Rattle.planned_die.specs.Planned.{HasLived};
ghost use Rattle.planned_die.specs.PlannedCalls.{refusal_in, burst_refusal_in, HasAsked, HaveAsked};

use crate::planned_die::PlannedDie;
use flash_die::Nand;
use slot_types::{JobNo, MAX_OPS, Op, TaskNo};
use std::alloc::Global;

/// The operations of the first job of a burst, and those that are left.
pub(crate) fn cut(ops: &[Op]) -> (&[Op], &[Op])
    ensures job { result.0.now ≡ take MAX_OPS ops.now }
    ensures rest { result.1.now ≡ drop MAX_OPS ops.now }
{
    ops.split_at(ops.len().min(MAX_OPS as usize))
}

impl<N: Nand> PlannedDie<N> {
    /// Accepts a job that isn't refused, and answers its number.
    pub(crate) fn enter(&mut self, alloc: Global, caller: u32, task: TaskNo, ops: &[Op]) -> JobNo
        requires runs { self.old.core.stopped ≡ false }
        requires unrefused { (earlier : Lives) × HasLived self.old earlier
            × (refusal_in self.old earlier task ops.now ≡ None) }
        ensures asked { (earlier : Lives) → HasLived self.old earlier
            → HasAsked caller task ops.now earlier result self.old self.new }
        ensures lived { (earlier : Lives) → HasLived self.old earlier → HasLived self.new earlier }
    {
        match self.ask(alloc, caller, task, ops) {
            Ok(number) => number,
            Err(_) => unreachable!(),
        }
    }

    /// Accepts the jobs of what is left of a burst, one after the other, and answers how many they are.
    pub(crate) fn enter_rest(&mut self, alloc: Global, caller: u32, task: TaskNo, ops: &[Op]) -> u32
        requires runs { self.old.core.stopped ≡ false }
        requires unrefused { (earlier : Lives) × HasLived self.old earlier
            × (1 ≤ length ops.now → burst_refusal_in self.old earlier task ops.now ≡ None) }
        ensures asked { (earlier : Lives) → HasLived self.old earlier
            → HaveAsked caller task (jobs_of ops.now) earlier (length (jobs self.old.core.log))
            self.old self.new }
        ensures jobs { result ≡ length (jobs_of ops.now) }
        ensures few { result ≤ length ops.now }
        ensures lived { (earlier : Lives) → HasLived self.old earlier → HasLived self.new earlier }
    {
        let mut left = ops;
        let mut entered = 0;
        while left.len() > 0 {
            let (job, rest) = cut(left);
            let _ = self.enter(alloc, caller, task, job);
            left = rest;
            entered += 1;
        }
        entered
    }
}
