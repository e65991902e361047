//! A die that goes on by itself is shut down, and goes on from a checkpoint.

ghost use Rattle.std.specs.Prelude.{◌≡◌, ℕ, [], ◌∷◌, List, None, false, length, replicate, IfOk, IfErr, OnOk};
ghost use Rattle.demand_rules.specs.Demand.{PassesDemand};
ghost use Rattle.demand_rules.specs.Supply.{PassesSupply};
ghost use Rattle.die_checkpoint.specs.Fits.{Fits};
ghost use Rattle.flash_volume.specs.Checkpoints.{IsAsLeft};
ghost use Rattle.die_log.specs.Model.Log.{now};
ghost use Rattle.die_log.specs.Model.Start.{Start};
ghost use Rattle.die_log.specs.Model.Opening.{IsOpening, renewed_start};
ghost use Rattle.die_log.specs.Results.DemandedLives.{AreFull};
ghost use Rattle.slot_core.specs.Core.{nothing_reserved};
ghost use Rattle.slot_core.specs.Renewals.{MayBeRenewed};
ghost use Rattle.slot_core.specs.Resumptions.{checkpoint_of, resumed_start};
ghost use Rattle.ongoing_log.specs.PastLives.{PastLife, counted};
ghost use Rattle.ongoing_log.specs.Ongoing.{Ongoing, begun_after, new_ongoing, shut_down, lost_power};
ghost use Rattle.planned_die.specs.Planned.{with_life};
ghost use Rattle.planned_die.specs.Resuming.{HaveEnough, lacked, lacks_of};
ghost use Rattle.ongoing_die.specs.OngoingPlans.{IsLongestLife};
ghost use Rattle.ongoing_die.specs.Standing.{StandsAs, standing};
ghost use Rattle.ongoing_die.specs.Resuming.{AreHeldForDeadlines, GoesOnAfter, NoneWaits, RefusesOngoingCheckpoint, RefusesOngoingResume};

use crate::lengths::first_too_late;
use crate::ongoing_die::OngoingDie;
use crate::refusals::{OngoingCheckpointRefusal, OngoingNotResumed, OngoingResumeRefusal};
use crate::waiting::{first_waiting, none_waiting};
use demand_rules::Terms;
use die_checkpoint::{Checkpoint, CheckpointFault};
use flash_die::Nand;
use ongoing_log::a_die_goes_on_after_each_end;
use planned_die::{PlanResumeRefusal, PlannedDie};
use slot_core::ResumeRefusal;
use slot_types::DiePlan;
use std::alloc::Global;

impl<N: Nand> OngoingDie<N> {
    /// What stands at a quiet moment at which no ask waits, as
    /// [`PlannedDie::checkpoint`](planned_die::PlannedDie::checkpoint) says it. The die stays as it is, and may go on. After
    /// the slot that ends a life, before the next call begins the next one, nothing that was accepted is left: so a
    /// checkpoint is taken there whenever no ask waits, unless a block is worn out or memory is lacking.
    ///
    /// A die that goes on from it with the same plan has the lives that this one had, and its present one (`goes_on`, and the
    /// clause of that name of [`resume`](OngoingDie::resume)); where a life has just ended the present one is the next, in
    /// which nothing was done. At the end of a life each task has enough to go on with the same terms, where the tasks' jobs
    /// are held for their deadline alone (`stocked`).
    ///
    /// The refusals, in this order: `Die`, as no checkpoint is taken of a die; `AskWaits`, where an ask waits for the next
    /// life, with the first such task: it would be lost.
    pub fn checkpoint(&mut self, alloc: Global) -> Result<Checkpoint, OngoingCheckpointRefusal>
        ensures ok { IfOk result (λ taken.
            taken ≡ checkpoint_of (renewed_start self.old.die.core.start self.old.die.core.log)) }
        ensures fits { IfOk result (λ taken. Fits self.old.die.core.start.plan taken) }
        ensures left { IfOk result (λ taken.
            IsAsLeft taken (N.blocks self.old.die.core.device) (N.failures self.old.die.core.device)) }
        ensures may { OnOk result (MayBeRenewed self.old.die.core × NoneWaits self.old.waiting) }
        ensures stocked { IfOk result (λ taken. now self.old.die.core.log ≡ self.old.die.life
            → AreHeldForDeadlines self.old.die.terms
            → HaveEnough self.old.die.core.start.plan self.old.die.terms taken.balances) }
        ensures goes_on { IfOk result (λ taken. (first : Start) (d : Ongoing) → StandsAs first d self.old
            → GoesOnAfter first (shut_down self.old.die.life (lacked self.old.die.core.start.plan taken.balances) d)
            (resumed_start self.old.die.core.start.plan taken (N.blocks self.old.die.core.device))) }
        ensures refused { IfErr result (RefusesOngoingCheckpoint self.old) }
        ensures unchanged { self.new ≡ self.old }
    {
        let taken = match self.die.checkpoint(alloc) {
            Ok(taken) => taken,
            Err(refusal) => return Err(OngoingCheckpointRefusal::Die(refusal)),
        };
        a_die_goes_on_after_each_end();
        match first_waiting(&self.waiting) {
            Some(task) => return Err(OngoingCheckpointRefusal::AskWaits { task }),
            None => {}
        }
        Ok(taken)
    }

    /// The device, given up with all else of the die.
    pub fn into_device(self) -> N
        ensures { result ≡ self.die.core.device }
    {
        self.die.into_device()
    }

    /// The die may lose its power at any moment, also where a fault has stopped it. Then, where a mount begins a log with full
    /// accounts of the same plan, the present life is one more of those that passed, in time up to there. A call during which
    /// the power goes may be in the log, or not. This computes nothing; its contract is the promise.
    pub fn may_lose_power(&self)
        ensures { (first : Start) (d : Ongoing) (s : StandsAs first d self.now) (start : Start) → IsOpening start
            → start.plan ≡ self.now.die.core.start.plan → AreFull start
            → GoesOnAfter first (lost_power self.now.die.life start (standing self.now s.past)) start }
    {
        let _ = &self.waiting;
        a_die_goes_on_after_each_end();
    }

    /// A die that goes on from a checkpoint, over a device as it was left, as
    /// [`PlannedDie::resume`](planned_die::PlannedDie::resume) makes one: at slot 0 of a life of at most `longest` slots, of the
    /// longest such life, with all memory that it ever needs, for what waits, too. No ask waits. The clock of all lives is at 0.
    ///
    /// It goes on by itself from there, and its lives are those of the die that was shut down and the new ones
    /// (`goes_on`), or those of the die that lost its power (`mounted`), whose mount leaves each balance at its cap. What
    /// counts as asked for before is what each task lacks to its cap beyond alpha pages, in slot 0.
    ///
    /// That the device is as a checkpoint that fits says is the caller's to know. Refused with the first cause that stands, as
    /// [`OngoingResumeRefusal`] lists them; `NoMemory` may also come before causes that stand after it. The device is handed
    /// back then, and plan and terms are given up.
    pub fn resume(
        alloc: Global,
        plan: DiePlan,
        terms: Terms,
        longest: u32,
        device: N,
        checkpoint: &Checkpoint,
    ) -> Result<OngoingDie<N>, OngoingNotResumed<N>>
        requires left { N.shape_of device ≡ plan.shape → Fits plan checkpoint.now
            → IsAsLeft checkpoint.now (N.blocks device) (N.failures device) }
        ensures ok { IfOk result (λ ongoing. ongoing.die.core ≡ with_life terms ongoing.die.life (record {
          start = resumed_start plan checkpoint.now (N.blocks device);
          device = device;
          stopped = false;
          reserved = nothing_reserved;
          lasting = nothing_reserved;
          log = [];
        })) }
        ensures begins { IfOk result (λ ongoing. (ongoing.die.terms ≡ terms) × (ongoing.die.entered ≡ 0) × (ongoing.die.first ≡ 0)
            × (ongoing.die.asked ≡ lacks_of plan checkpoint.now.balances (length plan.caps))) }
        ensures none_waits { IfOk result (λ ongoing. ongoing.waiting ≡ replicate (length plan.caps) None) }
        ensures life { IfOk result (λ ongoing. IsLongestLife plan terms longest ongoing.die.life) }
        ensures shape { OnOk result (N.shape_of device ≡ plan.shape) }
        ensures fits { OnOk result (Fits plan checkpoint.now) }
        ensures passes { OnOk result (PassesDemand plan terms × PassesSupply plan terms) }
        ensures stocked { OnOk result (HaveEnough plan terms checkpoint.now.balances) }
        ensures goes_on { IfOk result (λ ongoing. (first : Start) (past : List PastLife)
            → GoesOnAfter first past ongoing.die.core.start
            → counted past ≡ lacked plan checkpoint.now.balances
            → StandsAs first (begun_after past (length plan.caps)) ongoing) }
        ensures mounted { IfOk result (λ ongoing. AreFull ongoing.die.core.start → (first : Start) (past : List PastLife)
            → GoesOnAfter first past ongoing.die.core.start → counted past ≡ []
            → StandsAs first (begun_after past (length plan.caps)) ongoing) }
        ensures stands { IfOk result (λ ongoing. StandsAs ongoing.die.core.start
            (begun_after (shut_down 0 (lacked plan checkpoint.now.balances) (new_ongoing plan)) (length plan.caps)) ongoing) }
        ensures refused { IfErr result (λ no.
            RefusesOngoingResume plan terms longest checkpoint.now (N.shape_of device) no.refusal) }
        ensures device { IfErr result (λ no. no.device ≡ device) }
    {
        let die = match PlannedDie::resume(alloc, plan, terms, longest, device, checkpoint) {
            Ok(die) => die,
            Err(no) => {
                return Err(OngoingNotResumed {
                    device: no.device,
                    refusal: OngoingResumeRefusal::Plan(no.refusal),
                });
            }
        };
        a_die_goes_on_after_each_end();
        match first_too_late(die.terms(), die.life()) {
            Some(task) => {
                return Err(OngoingNotResumed {
                    device: die.into_device(),
                    refusal: OngoingResumeRefusal::ShortLife { task },
                });
            }
            None => {}
        }
        let waiting = match none_waiting(alloc, die.terms()) {
            Ok(waiting) => waiting,
            Err(_) => {
                return Err(OngoingNotResumed {
                    device: die.into_device(),
                    refusal: OngoingResumeRefusal::Plan(PlanResumeRefusal::Die(
                        ResumeRefusal::Unfit {
                            fault: CheckpointFault::NoMemory,
                        },
                    )),
                });
            }
        };
        Ok(OngoingDie {
            die,
            waiting,
            quiet: 0,
        })
    }
}
