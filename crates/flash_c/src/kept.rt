//! A die that keeps its plan, as a handle of C has it.

ghost use Rattle.std.specs.Prelude.{◌≡◌, ◌≢◌, ◌⊎◌, ◌≤◌, true, false, length, map, take, vec_capacity, IfOk, IfErr};
ghost use Rattle.ongoing_die.specs.OngoingPlans.{RefusesOngoing};
ghost use Rattle.ongoing_die.specs.Resuming.{RefusesOngoingResume, out_of_memory};
ghost use Rattle.planned_die.specs.declared.lacks.Shortage.{Shortage};
ghost use Rattle.planned_die.specs.declared.resumptions.PlanResumeRefusal.TheVariants as plans;
ghost use Rattle.ongoing_die.specs.declared.refusals.OngoingResumeRefusal.TheVariants as refuses;
ghost use Rattle.stepped_plan.specs.Calls.{IsNewPlan, IsPlanAsk};
ghost use Rattle.stepped_plan.specs.Resuming.{GoesOnPlanned};
ghost use Rattle.flash_c.specs.Names.{op_in};
ghost use Rattle.flash_c.specs.Planned.{HasRoom};

use crate::names::{MOST_OPS, op_in};
use crate::shapes::FlashOp;
use demand_rules::Terms;
use die_checkpoint::{Checkpoint, CheckpointFault};
use die_mount::Mounted;
use planned_die::PlanRefusal;
use slot_core::ResumeRefusal;
use slot_types::{DiePlan, Op, PageData, Refusal, TaskNo};
use std::alloc::Global;
use stepped_die::Part;
use stepped_plan::{
    AskKind, OngoingRefusal, OngoingResumeRefusal, PlanAskStop, PlanResumeRefusal, SteppedPlan,
    Taken,
};

/// A die that keeps its plan, and places for the operations of an ask.
#[derive(Drop)]
pub struct KeptDie {
    pub(crate) plan: SteppedPlan,
    pub(crate) ops: Vec<Op>,
}

/// The most operations that an ask of any task may have, at least as many as a job may have; and one.
fn most_ops(terms: &Terms) -> usize
    ensures room { HasRoom terms.now result }
{
    let mut most = MOST_OPS;
    for task in terms.tasks.as_slice() {
        most = most.max(task.work as usize + 1);
    }
    most
}

impl KeptDie {
    /// A die on which nothing was done, and places for the operations of each ask that a task may make.
    pub(crate) fn new(
        alloc: Global,
        plan: DiePlan,
        terms: Terms,
        longest: u32,
    ) -> Result<KeptDie, OngoingRefusal>
        ensures new { IfOk result (λ kept. IsNewPlan plan terms longest kept.plan) }
        ensures room { IfOk result (λ kept. HasRoom terms (vec_capacity kept.ops)) }
        ensures refused { IfErr result (RefusesOngoing plan terms longest plan.shape) }
    {
        let ops = match Vec::with_capacity(alloc, most_ops(&terms)) {
            Ok(ops) => ops,
            Err(_) => return Err(OngoingRefusal::Plan(PlanRefusal::Die(Refusal::NoMemory))),
        };
        match SteppedPlan::new(alloc, plan, terms, longest) {
            Ok(plan) => Ok(KeptDie { plan, ops }),
            Err(refusal) => Err(refusal),
        }
    }

    /// A die that goes on from a checkpoint, and places for the operations of each ask that a task may make.
    pub(crate) fn resume(
        alloc: Global,
        plan: DiePlan,
        terms: Terms,
        longest: u32,
        checkpoint: &Checkpoint,
        names: &[PageData],
        part: Part,
    ) -> Result<KeptDie, OngoingResumeRefusal>
        ensures goes_on { IfOk result (λ kept.
            GoesOnPlanned plan terms longest checkpoint.now names.now kept.plan) }
        ensures part { IfOk result (λ kept. kept.plan.part ≡ record part { stands = true }) }
        ensures room { IfOk result (λ kept. HasRoom terms (vec_capacity kept.ops)) }
        ensures refused { IfErr result (λ refusal. refusal ≢ out_of_memory
            → RefusesOngoingResume plan terms longest checkpoint.now plan.shape refusal) }
    {
        let ops = match Vec::with_capacity(alloc, most_ops(&terms)) {
            Ok(ops) => ops,
            Err(_) => return Err(no_memory()),
        };
        match SteppedPlan::resume(alloc, plan, terms, longest, checkpoint, names, part) {
            Ok(plan) => Ok(KeptDie { plan, ops }),
            Err(refusal) => Err(refusal),
        }
    }

    /// A die that begins where a mount ended, and places for the operations of each ask that a task may make.
    pub(crate) fn mounted(
        alloc: Global,
        plan: DiePlan,
        terms: Terms,
        longest: u32,
        end: &Mounted,
        names: &[PageData],
    ) -> Result<KeptDie, OngoingResumeRefusal>
        ensures goes_on { IfOk result (λ kept.
            GoesOnPlanned plan terms longest end.now.checkpoint names.now kept.plan) }
        ensures part { IfOk result (λ kept.
            kept.plan.part
            ≡ record { aside = end.now.aside; serial = end.now.next; stands = false }) }
        ensures room { IfOk result (λ kept. HasRoom terms (vec_capacity kept.ops)) }
        ensures refused { IfErr result (λ refusal. refusal ≢ out_of_memory
            → RefusesOngoingResume plan terms longest end.now.checkpoint plan.shape refusal) }
        ensures stocked { end.now.checkpoint.balances ≡ plan.caps → IfErr result (λ refusal.
            (shortage : Shortage) → refusal ≢ refuses.Plan (plans.NotStocked shortage)) }
    {
        let ops = match Vec::with_capacity(alloc, most_ops(&terms)) {
            Ok(ops) => ops,
            Err(_) => return Err(no_memory()),
        };
        match SteppedPlan::mounted(alloc, plan, terms, longest, end, names) {
            Ok(plan) => Ok(KeptDie { plan, ops }),
            Err(refusal) => Err(refusal),
        }
    }

    /// As many operations of an ask as there are places for.
    pub(crate) fn seen<'a>(&self, ops: &'a [FlashOp]) -> &'a [FlashOp]
        ensures seen { result.now ≡ take (vec_capacity self.now.ops) ops.now }
        ensures few { length result.now ≤ vec_capacity self.now.ops }
    {
        let count = ops.len().min(self.ops.capacity());
        &ops[..count]
    }

    /// Gives operations of C to the die. It takes no memory.
    pub(crate) fn ask(
        &mut self,
        alloc: Global,
        caller: u32,
        kind: AskKind,
        task: u32,
        ops: &[FlashOp],
    ) -> Result<Taken, PlanAskStop>
        requires few { length ops.now ≤ vec_capacity self.old.ops }
        ensures ask { IsPlanAsk kind caller task (map op_in ops.now) result self.old.plan self.new.plan }
        ensures room { vec_capacity self.new.ops ≡ vec_capacity self.old.ops }
    {
        put_all(&mut self.ops, ops);
        self.plan
            .ask_as(alloc, caller, kind, TaskNo(task), self.ops.as_slice())
    }
}

/// A die in a box. It takes the answer of the step before, so that a die is given up in one place.
pub(crate) fn boxed(
    alloc: Global,
    made: Result<KeptDie, OngoingResumeRefusal>,
) -> Result<Box<KeptDie>, OngoingResumeRefusal>
    ensures ok { IfOk result (λ boxed. made ≡ Ok boxed.value) }
    ensures refused { IfErr result (λ refusal. (refusal ≡ out_of_memory) ⊎ (made ≡ Err refusal)) }
{
    match made {
        Ok(kept) => match Box::new(alloc, kept) {
            Ok(boxed) => Ok(boxed),
            Err(_) => Err(no_memory()),
        },
        Err(refusal) => Err(refusal),
    }
}

/// Memory was asked for and not had.
pub(crate) fn no_memory() -> OngoingResumeRefusal
    ensures { result ≡ out_of_memory }
{
    OngoingResumeRefusal::Plan(PlanResumeRefusal::Die(ResumeRefusal::Unfit {
        fault: CheckpointFault::NoMemory,
    }))
}

/// Puts operations into their places.
fn put_all(places: &mut Vec<Op>, ops: &[FlashOp])
    requires few { length ops.now ≤ vec_capacity places.old }
    ensures put { places.new.items ≡ map op_in ops.now }
    ensures room { vec_capacity places.new ≡ vec_capacity places.old }
{
    places.clear();
    for op in ops {
        places.push_reserved(op_in(op));
    }
}
