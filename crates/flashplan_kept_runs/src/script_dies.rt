//! Dies that keep their plans and run the rows of a script.

ghost use Rattle.std.specs.Prelude.{◌≡◌, ◌-◌, ◌≤◌, max, IfOk};
ghost use Rattle.slot_types.specs.Arrivals.{IsArrival};
ghost use Rattle.slot_types.specs.Refusal.{FailsForMemory};
ghost use Rattle.die_log.specs.Model.Log.{now};
ghost use Rattle.planned_log.specs.Laws.{AreDoneInTime};
ghost use Rattle.flashplan_kept_runs.specs.KeptDies.{HasMoved};
ghost use Rattle.flashplan_kept_runs.specs.KeptRows.{row_moves, row_refusal, slot_moves};

use crate::memory_dies::MemoryDie;
use crate::refusals::RowRefusal;
use slot_types::{Event, Refusal};
use std::alloc::Global;

/// A die that keeps its plan and runs the rows of a script. Contracts see where it starts, and its log.
pub trait KeptScriptDie: Drop {
    ghost use Rattle.flashplan_kept_runs.specs.KeptDies.{KeptDie};

    ghost kept: { Self → KeptDie };

    /// Carries out slots until this one is the present one.
    fn carry_to(&mut self, alloc: Global, slot: u32)
        requires within { slot ≤ (kept self.old).begun.life }
        ensures carried { HasMoved (slot_moves (slot - now (kept self.old).log)) (kept self.old) (kept self.new) }
        ensures here { now (kept self.new).log ≡ max slot (now (kept self.old).log) }
        ensures in_time { AreDoneInTime (kept self.new).begun.start.plan (kept self.new).log };

    /// Takes a row, and answers why the die refused it, if it did: a job is asked for, and a collection passed over. The
    /// only refusal of this call is NoMemory, where what is noted beside the die finds none.
    fn take(&mut self, alloc: Global, event: Event) -> Result<Option<RowRefusal>, Refusal>
        requires arrival { IsArrival event }
        ensures answered { IfOk result (λ refusal. refusal ≡ row_refusal (kept self.old) event) }
        ensures moved { IfOk result (λ _.
            HasMoved (row_moves (kept self.old).begun.terms (now (kept self.old).log) event)
            (kept self.old) (kept self.new)) }
        ensures here { IfOk result (λ _. now (kept self.new).log ≡ now (kept self.old).log) }
        ensures begun { (kept self.new).begun ≡ (kept self.old).begun }
        ensures refused { FailsForMemory result };
}

impl KeptScriptDie for MemoryDie {
    ghost use Rattle.flashplan_kept_runs.specs.KeptDies.{kept_of};

    ghost kept = { λ die. kept_of die };

    fn carry_to(&mut self, alloc: Global, slot: u32) {
        for _present in self.now()..slot {
            let _ = self.slot(alloc);
        }
        self.keeps_plan();
    }

    fn take(&mut self, alloc: Global, event: Event) -> Result<Option<RowRefusal>, Refusal> {
        match event {
            Event::Submit {
                task,
                release,
                due,
                ops,
            } => match self.ask(alloc, task, release, due, ops.as_slice()) {
                Ok(_) => Ok(None),
                Err(refusal) => Ok(Some(refusal)),
            },
            Event::Collect { .. } => Ok(None),
            Event::Slot => unreachable!(),
        }
    }
}

impl<D: KeptScriptDie> KeptScriptDie for Box<D> {
    ghost use Rattle.std.specs.Box.{box_value};

    ghost kept = { λ die. D.kept (box_value die) };

    fn carry_to(&mut self, alloc: Global, slot: u32) {
        self.as_mut().carry_to(alloc, slot);
    }

    fn take(&mut self, alloc: Global, event: Event) -> Result<Option<RowRefusal>, Refusal> {
        self.as_mut().take(alloc, event)
    }
}
