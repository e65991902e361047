//! A die is written down between two slots with the names of its pages, and goes on from there, or where a mount ended.

ghost use Rattle.std.specs.Prelude.{◌≡◌, ◌≢◌, true, false, Some, IfOk, IfErr};
ghost use Rattle.slot_core.specs.declared.resumptions.ResumeRefusal.TheVariants as unresumed;
ghost use Rattle.ongoing_die.specs.declared.refusals.OngoingResumeRefusal.TheVariants as refuses;
ghost use Rattle.ongoing_die.specs.Resuming.{RefusesOngoingCheckpoint, RefusesOngoingResume};
ghost use Rattle.planned_die.specs.declared.lacks.Shortage.{Shortage};
ghost use Rattle.planned_die.specs.declared.resumptions.PlanResumeRefusal.TheVariants as plans;
ghost use Rattle.stepped_plan.specs.Resuming.{HasGoneOnAt, HasWritten, GoesOnPlanned, IsPlanCheckpoint};

use crate::plan::SteppedPlan;
use crate::refusals::PlanCheckpointRefusal;
use crate::stage::Stage;
use demand_rules::Terms;
use die_checkpoint::{Checkpoint, CheckpointFault};
use die_mount::Mounted;
use ongoing_die::{OngoingCheckpointRefusal, OngoingDie, OngoingResumeRefusal, PlanResumeRefusal};
use planned_die::full_checkpoints_are_stocked;
use slot_core::{CheckpointRefusal, ResumeRefusal};
use slot_types::{DiePlan, PageData};
use std::alloc::Global;
use stepped_die::{MirrorNand, NamedCheckpoint, Part, names_of};

/// What stands on a die between two slots, with the names of its pages.
fn written(
    die: &mut OngoingDie<MirrorNand>,
    alloc: Global,
    part: Part,
) -> Result<NamedCheckpoint, OngoingCheckpointRefusal>
    ensures written { IfOk result (HasWritten die.old) }
    ensures part { IfOk result (λ taken. taken.part ≡ part) }
    ensures refused { IfErr result (RefusesOngoingCheckpoint die.old) }
    ensures unchanged { die.new ≡ die.old }
{
    let checkpoint = match die.checkpoint(alloc) {
        Ok(checkpoint) => checkpoint,
        Err(refusal) => return Err(refusal),
    };
    let core = die.die().core();
    core.promises();
    match names_of(alloc, core.device(), checkpoint.places.as_slice()) {
        Ok(names) => Ok(NamedCheckpoint {
            checkpoint,
            names,
            part,
        }),
        Err(_) => Err(OngoingCheckpointRefusal::Die(CheckpointRefusal::NoMemory)),
    }
}

/// Where a die stands that goes on from a checkpoint.
fn gone_on(
    alloc: Global,
    plan: DiePlan,
    terms: Terms,
    longest: u32,
    checkpoint: &Checkpoint,
    names: &[PageData],
) -> Result<Stage, OngoingResumeRefusal>
    ensures ok { IfOk result (λ stage. HasGoneOnAt plan terms longest checkpoint.now names.now (Some stage)) }
    ensures refused { IfErr result (RefusesOngoingResume plan terms longest checkpoint.now plan.shape) }
{
    match checkpoint.check(alloc, &plan) {
        Ok(()) => {}
        Err(fault) => return Err(unfit(fault)),
    }
    let mirror = match MirrorNand::left(alloc, &plan, checkpoint, names) {
        Ok(mirror) => mirror,
        Err(_) => return Err(unfit(CheckpointFault::NoMemory)),
    };
    match OngoingDie::resume(alloc, plan, terms, longest, mirror, checkpoint) {
        Ok(die) => Ok(Stage::Between { die }),
        Err(no) => Err(no.refusal),
    }
}

/// A checkpoint doesn't fit the plan, for this.
fn unfit(fault: CheckpointFault) -> OngoingResumeRefusal
    ensures { result ≡ refuses.Plan (plans.Die (unresumed.Unfit fault)) }
{
    OngoingResumeRefusal::Plan(PlanResumeRefusal::Die(ResumeRefusal::Unfit { fault }))
}

impl SteppedPlan {
    /// What stands between two slots where nothing that was accepted is left and no ask waits, as
    /// [`OngoingDie::checkpoint`], by logical page its name, and what is known of the part. The die stays as it is, and may go on. After the slot that ends a
    /// life, before the next call begins the next one, nothing that was accepted is left. [`resume`](SteppedPlan::resume) goes on from
    /// there: with the same plan it has the lives that this die had, and its present one.
    ///
    /// Refused with `Begun` where a slot has begun; else as that refuses it (`Die`), or with its `NoMemory`.
    pub fn checkpoint(&mut self, alloc: Global) -> Result<NamedCheckpoint, PlanCheckpointRefusal>
        ensures checkpoint { IsPlanCheckpoint result self.old.stage }
        ensures part { IfOk result (λ taken. taken.part ≡ self.old.part) }
        ensures unchanged { self.new ≡ self.old }
    {
        let part = self.part;
        match &mut self.stage {
            Some(Stage::Between { die }) => match written(die, alloc, part) {
                Ok(taken) => Ok(taken),
                Err(refusal) => Err(PlanCheckpointRefusal::Die(refusal)),
            },
            Some(Stage::Within { .. }) => Err(PlanCheckpointRefusal::Begun),
            None => unreachable!(),
        }
    }

    /// A die that goes on from a checkpoint, as [`OngoingDie::resume`], over a device as it was left: at slot 0 of a life of at most
    /// `longest` slots, of the longest such life, with all memory that it ever needs. `names` has by logical page the name of what lies
    /// there; a page that lies nowhere, or that has no name, is blank. `part` has the block aside and the serial of the next program, as
    /// the checkpoint had them; a part without labels has those of a fresh die ([`Part::fresh`]).
    ///
    /// The checkpoint stands from then on: no slot begins until its owner has said that it is void
    /// ([`checkpoint_void`](SteppedPlan::checkpoint_void)).
    ///
    /// Terms and `longest` may be others than the die before had. What each task lacks to its cap beyond alpha pages counts as asked for
    /// in slot 0.
    ///
    /// Refused with the first cause that stands, as [`OngoingResumeRefusal`] lists them; `NoMemory` may also come before causes that
    /// stand after it. Plan and terms are given up then.
    pub fn resume(
        alloc: Global,
        plan: DiePlan,
        terms: Terms,
        longest: u32,
        checkpoint: &Checkpoint,
        names: &[PageData],
        part: Part,
    ) -> Result<SteppedPlan, OngoingResumeRefusal>
        ensures ok { IfOk result (GoesOnPlanned plan terms longest checkpoint.now names.now) }
        ensures part { IfOk result (λ p. p.part ≡ record part { stands = true }) }
        ensures refused { IfErr result (RefusesOngoingResume plan terms longest checkpoint.now plan.shape) }
    {
        match gone_on(alloc, plan, terms, longest, checkpoint, names) {
            Ok(stage) => Ok(SteppedPlan {
                stage: Some(stage),
                part: Part {
                    aside: part.aside,
                    serial: part.serial,
                    stands: true,
                },
            }),
            Err(refusal) => Err(refusal),
        }
    }

    /// A die that begins where a mount ended, on the part's blocks but the one aside: at slot 0 of the longest life of at most
    /// `longest` slots. `names` has by logical page the name of what lies there; a page that lies nowhere, or that has no name, is
    /// blank. Its programs go on with the mount's serials, and there is no checkpoint that stands. A mount leaves each account full, so no task lacks anything, and nothing
    /// counts as asked for before: each task may ask for all of its period at once.
    ///
    /// Refused as [`resume`](SteppedPlan::resume) is, but never with `NotStocked`; with the plan of the mount, and terms and `longest`
    /// with which the die before the loss of power was made, with `NoMemory` alone.
    pub fn mounted(
        alloc: Global,
        plan: DiePlan,
        terms: Terms,
        longest: u32,
        end: &Mounted,
        names: &[PageData],
    ) -> Result<SteppedPlan, OngoingResumeRefusal>
        ensures ok { IfOk result (GoesOnPlanned plan terms longest end.now.checkpoint names.now) }
        ensures part { IfOk result (λ p. p.part
            ≡ record { aside = end.now.aside; serial = end.now.next; stands = false }) }
        ensures refused { IfErr result (RefusesOngoingResume plan terms longest end.now.checkpoint plan.shape) }
        ensures stocked { end.now.checkpoint.balances ≡ plan.caps
            → IfErr result (λ refusal. (shortage : Shortage) → refusal ≢ refuses.Plan (plans.NotStocked shortage)) }
    {
        full_checkpoints_are_stocked();
        match gone_on(alloc, plan, terms, longest, &end.checkpoint, names) {
            Ok(stage) => Ok(SteppedPlan {
                stage: Some(stage),
                part: Part {
                    aside: end.aside,
                    serial: end.next,
                    stands: false,
                },
            }),
            Err(refusal) => Err(refusal),
        }
    }
}
