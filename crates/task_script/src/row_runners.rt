//! What a worker of a script's run has: a die, or why its run was refused.

ghost use Rattle.std.specs.Prelude.{IfOk};
ghost use Rattle.slot_types.specs.Refusal.{FailsForMemory};
ghost use Rattle.plan_rules.specs.Bound.{MeetsBound};
ghost use Rattle.task_script.specs.RowRunners.{IsFreshOf};

use crate::row_batches::RowBatch;
use crate::row_dies::RowDie;
use die_service::Runner;
use slot_types::{DiePlan, Refusal};
use std::alloc::Global;

/// A die of a script's run, or why the run of its batches was refused: a row is at fault, or memory ran out. After a
/// refusal batches are taken and not run, and the die is given up.
#[derive(Drop)]
pub struct RowRunner {
    pub die: Result<RowDie, Refusal>,
}

impl RowRunner {
    /// A fresh die of a plan. The only refusal is NoMemory.
    pub fn new(alloc: Global, plan: &DiePlan) -> Result<RowRunner, Refusal>
        requires { MeetsBound plan.now }
        ensures fresh { IfOk result (IsFreshOf plan.now) }
        ensures refused { FailsForMemory result }
    {
        let die = RowDie::new(alloc, plan)?;
        Ok(RowRunner { die: Ok(die) })
    }
}

impl Runner<RowBatch> for RowRunner {
    ghost use Rattle.std.specs.Prelude.{◌≡◌, []};
    ghost use Rattle.task_script.specs.RowRunners.{IsFresh, MayFollow, RunsOn};

    ghost begins = { IsFresh };

    ghost may_follow = { MayFollow };

    ghost runs = { RunsOn };

    ghost is_empty = { λ batch. batch.rows ≡ [] };

    fn run(&mut self, _alloc: Global, batch: &mut RowBatch) {
        let ran = match &mut self.die {
            Ok(die) => die.run(batch),
            Err(_) => Ok(()),
        };
        if let Err(refusal) = ran {
            self.die = Err(refusal);
        }
        batch.rows.clear();
    }
}
