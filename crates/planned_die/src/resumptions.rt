//! A die that keeps its plan is shut down, and goes on from a checkpoint.

ghost use Rattle.std.specs.Prelude.{◌≡◌, ◌≤◌, ℕ, [], false, length, IfOk, IfErr, OnOk};
ghost use Rattle.demand_rules.specs.Demand.{PassesDemand};
ghost use Rattle.demand_rules.specs.Supply.{PassesSupply};
ghost use Rattle.die_checkpoint.specs.Fits.{Fits};
ghost use Rattle.flash_volume.specs.Checkpoints.{IsAsLeft};
ghost use Rattle.die_log.specs.Model.Log.{now};
ghost use Rattle.die_log.specs.Model.Opening.{renewed_start};
ghost use Rattle.die_log.specs.Results.DemandedLives.{AreFull};
ghost use Rattle.slot_core.specs.Core.{nothing_reserved};
ghost use Rattle.slot_core.specs.Renewals.{MayBeRenewed};
ghost use Rattle.slot_core.specs.Resumptions.{checkpoint_of, resumed_start, RefusesCheckpoint};
ghost use Rattle.planned_die.specs.Planned.{HasLived, with_life};
ghost use Rattle.planned_die.specs.NewPlans.{IsSomeLife};
ghost use Rattle.planned_die.specs.Resuming.{HaveEnough, AreDueAsHeld, lacked, lacks_of, RefusesPlanResume};

use crate::lacks::Shortage;
use crate::planned_die::PlannedDie;
use crate::resumed::prepare;
use demand_rules::{Terms, TermsFault};
use die_checkpoint::Checkpoint;
use flash_die::Nand;
use slot_core::{CheckpointRefusal, DieCore, ResumeRefusal};
use slot_types::DiePlan;
use std::alloc::Global;

/// Why no die that keeps its plan goes on from a checkpoint, in the order in which the causes are looked at.
#[derive(Clone, Copy, PartialEq, Eq, Debug, Drop)]
pub enum PlanResumeRefusal {
    /// As a die isn't resumed. It has `NoMemory`, also that for a life.
    Die(ResumeRefusal),
    /// The terms aren't the plan's, or are out of their limits, or they don't pass a test.
    Terms(TermsFault),
    /// No number of slots, of those that were allowed, is a life.
    NoLife,
    /// A task lacks more to its cap than alpha pages and what it may write in a period: the first such task.
    NotStocked(Shortage),
}

/// A device on which no die was resumed, and why.
#[derive(Drop)]
pub struct PlanNotResumed<N> {
    pub device: N,
    pub refusal: PlanResumeRefusal,
}

impl<N: Nand> PlannedDie<N> {
    /// What stands at a quiet moment, as [`DieCore::checkpoint`](slot_core::DieCore::checkpoint) says it. The die stays as it
    /// is. At the end of a life nothing that was accepted waits, so the moment is quiet.
    ///
    /// What tasks asked for lately isn't in it. [`resume`](PlannedDie::resume) takes for that what each task lacks to its cap.
    /// At the end of a life each task has enough for that, where its jobs are held for their deadline alone and a life is no
    /// shorter: so a checkpoint that was taken there always goes on, with the same plan, terms and `longest`.
    ///
    /// Refused as [`DieCore::checkpoint`](slot_core::DieCore::checkpoint) is.
    pub fn checkpoint(&mut self, alloc: Global) -> Result<Checkpoint, CheckpointRefusal>
        ensures ok { IfOk result (λ taken.
            taken ≡ checkpoint_of (renewed_start self.old.core.start self.old.core.log)) }
        ensures fits { IfOk result (λ taken. Fits self.old.core.start.plan taken) }
        ensures left { IfOk result (λ taken.
            IsAsLeft taken (N.blocks self.old.core.device) (N.failures self.old.core.device)) }
        ensures goes_on { IfOk result (λ taken.
            resumed_start self.old.core.start.plan taken (N.blocks self.old.core.device)
            ≡ renewed_start self.old.core.start self.old.core.log) }
        ensures stocked { IfOk result (λ taken. now self.old.core.log ≡ self.old.life
            → AreDueAsHeld self.old.terms self.old.life
            → HaveEnough self.old.core.start.plan self.old.terms taken.balances) }
        ensures may { OnOk result (MayBeRenewed self.old.core) }
        ensures refused { IfErr result (RefusesCheckpoint self.old.core) }
        ensures unchanged { self.new ≡ self.old }
    {
        self.keeps_plan();
        self.core.checkpoint(alloc)
    }

    /// The device, given up with all else of the die.
    pub fn into_device(self) -> N
        ensures { result ≡ self.core.device }
    {
        self.core.into_device()
    }

    /// A die that goes on from a checkpoint, over a device as it was left. It is at slot 0 of a life, the longest that
    /// has at most `longest` slots, and has all memory that it ever needs, as one that [`new`](PlannedDie::new) makes.
    /// The clock of all lives is at 0.
    ///
    /// A checkpoint doesn't say what tasks asked for before. What a task lacks to its cap beyond alpha pages counts as
    /// a job that it asked for in slot 0 and that writes these pages: until its period is over the task may ask for
    /// that much less. So where no task lacks more than alpha, as after a mount, each may ask for all of its period at
    /// once.
    ///
    /// That the device is as a checkpoint that fits says is the caller's to know, as [`DieCore::resume`](slot_core::DieCore::resume)
    /// has it. Refused with the first cause that stands, as [`PlanResumeRefusal`] lists them; `NoMemory` may also come before
    /// causes that stand after it. The device is handed back then, and plan and terms are given up.
    pub fn resume(
        alloc: Global,
        plan: DiePlan,
        terms: Terms,
        longest: u32,
        device: N,
        checkpoint: &Checkpoint,
    ) -> Result<PlannedDie<N>, PlanNotResumed<N>>
        requires left { N.shape_of device ≡ plan.shape → Fits plan checkpoint.now
            → IsAsLeft checkpoint.now (N.blocks device) (N.failures device) }
        ensures ok { IfOk result (λ die. die.core ≡ with_life terms die.life (record {
          start = resumed_start plan checkpoint.now (N.blocks device);
          device = device;
          stopped = false;
          reserved = nothing_reserved;
          lasting = nothing_reserved;
          log = [];
        })) }
        ensures begins { IfOk result (λ die. (die.terms ≡ terms) × (die.entered ≡ 0) × (die.first ≡ 0)
            × (die.asked ≡ lacks_of plan checkpoint.now.balances (length plan.caps))) }
        ensures life { IfOk result (λ die. IsSomeLife plan terms longest die.life) }
        ensures longer { IfOk result (λ die. (other : ℕ)
            → IsSomeLife plan terms longest other → other ≤ die.life) }
        ensures shape { OnOk result (N.shape_of device ≡ plan.shape) }
        ensures fits { OnOk result (Fits plan checkpoint.now) }
        ensures passes { OnOk result (PassesDemand plan terms × PassesSupply plan terms) }
        ensures stocked { OnOk result (HaveEnough plan terms checkpoint.now.balances) }
        ensures lived { IfOk result (λ die. HasLived die (lacked plan checkpoint.now.balances)) }
        ensures full { IfOk result (λ die. AreFull die.core.start → HasLived die []) }
        ensures refused { IfErr result (λ no.
            RefusesPlanResume plan terms longest checkpoint.now (N.shape_of device) no.refusal) }
        ensures device { IfErr result (λ no. no.device ≡ device) }
    {
        let mut core = match DieCore::resume(alloc, plan, device, checkpoint) {
            Ok(core) => core,
            Err(no) => {
                return Err(PlanNotResumed {
                    device: no.device,
                    refusal: PlanResumeRefusal::Die(no.refusal),
                });
            }
        };
        core.promises();
        let made = match prepare(
            alloc,
            &mut core,
            &terms,
            longest,
            checkpoint.balances.as_slice(),
        ) {
            Ok(made) => made,
            Err(refusal) => {
                return Err(PlanNotResumed {
                    device: core.into_device(),
                    refusal,
                });
            }
        };
        Ok(PlannedDie {
            core,
            terms,
            life: made.life,
            entered: 0,
            quiet: 0,
            first: 0,
            asked: made.asked,
        })
    }
}
