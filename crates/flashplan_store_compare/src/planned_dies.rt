//! A die that keeps its plan, beside one that takes what comes.

ghost use Rattle.std.specs.Prelude.{◌<◌};
ghost use Rattle.slot_types.specs.Refusal.{FailsForMemory};
ghost use Rattle.die_log.specs.Model.Log.{now};

use crate::figures::End;
use crate::store_dies::Carried;
use flashplan_kept_runs::{KeptFault, MemoryDie, fresh_die};
use slot_core::Outcome;
use slot_types::{Event, JobNo, Refusal};
use std::alloc::Global;
use terms_texts::{DieTerms, StoreTerms};

/// A die that keeps its plan, and what became there of the jobs that are counted.
#[derive(Drop)]
pub(crate) struct PlannedDie {
    die: MemoryDie,
    from: u32,
    pub(crate) carried: Carried,
    /// By job of the load its number, or none where it was refused.
    numbers: Vec<Option<JobNo>>,
}

impl PlannedDie {
    /// A die on which nothing was done, whose slots are counted from this one on.
    fn new(alloc: Global, die: MemoryDie, from: u32) -> PlannedDie {
        PlannedDie {
            die,
            from,
            carried: Carried::NOTHING,
            numbers: Vec::new(alloc),
        }
    }

    /// Carries out the present slot, and counts what it carried.
    fn step(&mut self, alloc: Global)
        requires { now self.old.die.core.log < self.old.die.life }
    {
        let reply = self.die.slot(alloc);
        if reply.slot >= self.from {
            self.carried.add(&reply);
        }
    }

    /// Carries out slots until this one is the present one, but not beyond the end of its life.
    pub(crate) fn carry_to(&mut self, alloc: Global, slot: u32) {
        for _present in self.die.now()..slot {
            if self.die.now() < self.die.life() {
                self.step(alloc);
            }
        }
    }

    /// Asks for what the row of a job says, and answers its number, if it isn't refused. The row of a collection is passed
    /// over.
    pub(crate) fn take(&mut self, alloc: Global, event: &Event) -> Option<JobNo> {
        match event {
            Event::Submit {
                task,
                release,
                due,
                ops,
            } => self
                .die
                .ask(alloc, *task, *release, *due, ops.as_slice())
                .ok(),
            _ => None,
        }
    }

    /// Keeps the number of a job that is counted, or none. The only refusal is NoMemory.
    pub(crate) fn keep(&mut self, number: Option<JobNo>) -> Result<(), Refusal>
        ensures { FailsForMemory result }
    {
        self.numbers.reserve(1)?;
        self.numbers.push_reserved(number);
        Ok(())
    }

    fn end_of(&self, alloc: Global, number: JobNo) -> Result<End, Refusal> {
        match self.die.core().outcome(alloc, number)? {
            Outcome::Done { completion, .. } => Ok(End::Done { completion }),
            _ => Ok(End::Unfinished),
        }
    }

    /// By job of the load what became of it.
    pub(crate) fn ends(&self, alloc: Global) -> Result<Vec<End>, Refusal> {
        let mut ends = Vec::new(alloc);
        for number in self.numbers.as_slice() {
            let end = match number {
                None => End::Refused,
                Some(number) => self.end_of(alloc, *number)?,
            };
            ends.reserve(1)?;
            ends.push_reserved(end);
        }
        Ok(ends)
    }
}

/// A fresh die that keeps its plan for `slots` slots.
fn planned_die(
    alloc: Global,
    number: u32,
    plan: DieTerms,
    slots: u32,
    from: u32,
) -> Result<Box<PlannedDie>, KeptFault> {
    let die = fresh_die(alloc, number, plan, slots)?;
    match Box::new(alloc, PlannedDie::new(alloc, die, from)) {
        Ok(planned) => Ok(planned),
        Err(_) => Err(KeptFault::Refused(Refusal::NoMemory)),
    }
}

/// Fresh dies that keep these plans for `slots` slots, the last one first. Refused where a plan doesn't pass its tests,
/// has no life, or a shorter one.
pub(crate) fn planned_dies(
    alloc: Global,
    plans: StoreTerms,
    slots: u32,
    from: u32,
) -> Result<Vec<Box<PlannedDie>>, KeptFault> {
    let mut dies = Vec::new(alloc);
    for plan in plans.into_vec() {
        let number = u32::try_from(dies.len()).unwrap_or(u32::MAX);
        let die = planned_die(alloc, number, plan, slots, from)?;
        if dies.push(die).is_err() {
            return Err(KeptFault::Refused(Refusal::NoMemory));
        }
    }
    dies.as_mut_slice().reverse();
    Ok(dies)
}
