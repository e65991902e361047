//! A die that keeps its plan itself.

ghost use Rattle.std.specs.Prelude.{◌≡◌, ◌≤◌, ◌≤ℤ◌, ℕ, [], false, pos, length, replicate, IfSome, IfOk, IfErr, OnOk, OnErr};
ghost use Rattle.slot_types.specs.Refusal.{FailsForMemory};
ghost use Rattle.demand_rules.specs.Demand.{PassesDemand};
ghost use Rattle.demand_rules.specs.Supply.{PassesSupply};
ghost use Rattle.flash_die.specs.Flash.{IsFresh};
ghost use Rattle.die_log.specs.Model.Log.{now};
ghost use Rattle.die_log.specs.Model.Start.{fresh};
ghost use Rattle.die_log.specs.Model.Lives.{Lives};
ghost use Rattle.die_log.specs.Results.InTime.{IsInTime};
ghost use Rattle.die_log.specs.Results.Promises.{KeepsPromises};
ghost use Rattle.slot_core.specs.Core.{nothing_reserved, with_slots, with_arrivals};
ghost use Rattle.slot_core.specs.Outcomes.{worst_of};
ghost use Rattle.planned_log.specs.Laws.{AreDoneInTime};
ghost use Rattle.planned_die.specs.Planned.{HasLived, IsReservedFor, with_life};
ghost use Rattle.planned_die.specs.NewPlans.{RefusesPlan, IsSomeLife};

use crate::all_asks::new_asks;
use crate::life::{life_of, most_arrivals};
use crate::refusals::PlanRefusal;
use crate::task_asks::TaskAsks;
use demand_rules::{Terms, terms_test};
use flash_die::Nand;
use slot_core::{DieCore, Worst};
use slot_types::{DiePlan, Refusal};
use std::alloc::Global;
use std::marker::Model;

/// A die that keeps its plan itself. Its tasks ask, each for itself; a task that asks too soon or for too much is
/// refused, and no other task is. The die enters the collections of its plan, and no one else does.
///
/// Contracts see the die below, with its log, what its tasks may ask for, how many slots its life has, of how many tasks
/// the collections of the present slot have come, where the life began on the clock of all lives, and what the die
/// remembers of the asks. Which lives it had before isn't kept: `HasLived` says that it had these, and what a call does to
/// a die that had them is said for each.
#[derive(Drop)]
pub struct PlannedDie<N: Nand> {
    pub(crate) core: DieCore<N>,
    pub(crate) terms: Terms,
    /// How many slots a life has.
    pub(crate) life: u32,
    /// Of how many tasks, the first ones, the collections of the present slot have come.
    pub(crate) entered: u32,
    /// The first slot in which a collection comes, or an earlier one.
    pub(crate) quiet: u32,
    /// The slot of the clock of all lives in which the present life began.
    pub(crate) first: u64,
    /// By task what it asked for.
    pub(crate) asked: Vec<TaskAsks>,
}

impl<N: Nand> Model for PlannedDie<N> {
    ghost use Rattle.std.specs.Prelude.{◌+◌, map};
    ghost use Rattle.die_log.specs.Model.Log.{now};
    ghost use Rattle.planned_die.specs.Planned.{Planned, IsPlanned};
    ghost use Rattle.planned_die.specs.Remembered.{jobs_of, AreKept, HaveMemory};
    ghost use Rattle.planned_die.specs.OwnCollections.{AreQuiet};

    ghost Value = { Planned N };

    ghost view = { λ d. record {
      core = d.core;
      terms = d.terms;
      life = d.life;
      entered = d.entered;
      first = d.first;
      asked = map jobs_of d.asked.items;
    } };

    ghost invariant = { λ d. IsPlanned {N = N} (record {
      core = d.core;
      terms = d.terms;
      life = d.life;
      entered = d.entered;
      first = d.first;
      asked = map jobs_of d.asked.items;
    }) × AreKept d.terms (d.first + now d.core.log) d.asked.items × HaveMemory d.terms d.asked.items
        × AreQuiet d.terms.tasks (now d.core.log) d.quiet };
}

/// Takes the memory for `slots` slots, and for `most` jobs and collections with as many operations in all.
fn reserve_life<N: Nand>(core: &mut DieCore<N>, slots: u32, most: u32) -> Result<(), Refusal>
    ensures ok { OnOk result (core.new ≡ with_slots slots (with_arrivals most most core.old)) }
    ensures refused { FailsForMemory result }
{
    core.reserve_arrivals(most, most)?;
    core.reserve(slots)
}

impl<N: Nand> PlannedDie<N> {
    /// A die on which nothing was done, at slot 0. Its lives are the longest that have at most `longest` slots. It
    /// takes all memory that it ever needs: for the slots of a life, for as many jobs, collections and operations as
    /// may come in it, and for as many jobs of each task as may count at once. Shorter lives take less.
    ///
    /// Refused as [`DieCore::new`] refuses it; else `Terms`, where the terms aren't the plan's, are out of their limits, or
    /// don't pass a test, with what [`terms_test`](demand_rules::terms_test) says; else `NoLife`, where no number of slots
    /// up to `longest` is a life; else `NoMemory`, which may also come before these. Plan, terms and device are given up
    /// then.
    pub fn new(
        alloc: Global,
        plan: DiePlan,
        terms: Terms,
        longest: u32,
        nand: N,
    ) -> Result<PlannedDie<N>, PlanRefusal>
        requires fresh { IsFresh (N.shape_of nand) (N.blocks nand) (N.failures nand) }
        ensures ok { IfOk result (λ die. die.core ≡ with_life terms die.life (record {
          start = fresh plan;
          device = nand;
          stopped = false;
          reserved = nothing_reserved;
          lasting = nothing_reserved;
          log = [];
        })) }
        ensures begins { IfOk result (λ die. (die.terms ≡ terms) × (die.entered ≡ 0)
            × (die.first ≡ 0) × (die.asked ≡ replicate (length plan.caps) [])) }
        ensures life { IfOk result (λ die. IsSomeLife plan terms longest die.life) }
        ensures longer { IfOk result (λ die. (other : ℕ)
            → IsSomeLife plan terms longest other → other ≤ die.life) }
        ensures passes { OnOk result (PassesDemand plan terms × PassesSupply plan terms) }
        ensures lived { IfOk result (λ die. HasLived die []) }
        ensures refused { IfErr result (RefusesPlan plan terms longest (N.shape_of nand)) }
    {
        let mut core = match DieCore::new(alloc, plan, nand) {
            Ok(core) => core,
            Err(refusal) => return Err(PlanRefusal::Die(refusal)),
        };
        core.promises();
        match terms_test(core.plan(), &terms) {
            Ok(_) => {}
            Err(fault) => return Err(PlanRefusal::Terms(fault)),
        }
        let life = match life_of(core.plan(), &terms, longest) {
            Some(life) => life,
            None => return Err(PlanRefusal::NoLife),
        };
        let most = most_arrivals(core.plan(), &terms, life);
        match reserve_life(&mut core, life, most) {
            Ok(()) => {}
            Err(refusal) => return Err(PlanRefusal::Die(refusal)),
        }
        let asked = match new_asks(alloc, &terms, core.plan().caps.len()) {
            Ok(asked) => asked,
            Err(_) => return Err(PlanRefusal::Die(Refusal::NoMemory)),
        };
        Ok(PlannedDie {
            core,
            terms,
            life,
            entered: 0,
            quiet: 0,
            first: 0,
            asked,
        })
    }

    /// Its plan is kept, so all is in time: each accepted job that is due by now is done, and was by its deadline;
    /// each collection that is due by now is done or was waived; and nothing is done late. This computes nothing; its
    /// contract is the promise.
    pub fn keeps_plan(&self)
        ensures lived { (earlier : Lives) × HasLived self.now earlier }
        ensures promises { KeepsPromises self.now.core.start self.now.core.log }
        ensures in_time { IsInTime self.now.core.start.plan self.now.core.log }
        ensures jobs { AreDoneInTime self.now.core.start.plan self.now.core.log }
    {
        let _ = &self.life;
        self.core.promises();
    }

    /// The die below, to be asked what became of its jobs: its questions change nothing.
    pub fn core(&self) -> &DieCore<N>
        ensures { result.now ≡ self.now.core }
    {
        &self.core
    }

    /// The done job or collection with the greatest lateness, as [`DieCore::worst`] tells it. It is never above 0.
    pub fn worst(&self) -> Option<Worst>
        ensures worst { result ≡ worst_of self.now.core.start.plan self.now.core.log }
        ensures never_late { IfSome result (λ worst. worst.lateness ≤ℤ pos 0) }
    {
        let _ = &self.life;
        self.core.worst()
    }

    /// What its tasks may ask for.
    pub fn terms(&self) -> &Terms
        ensures { result.now ≡ self.now.terms }
    {
        &self.terms
    }

    /// How many slots its life has, 1 to 1,048,576.
    pub fn life(&self) -> u32
        ensures { result ≡ self.now.life }
    {
        self.life
    }

    /// The present slot of its life.
    pub fn now(&self) -> u32
        ensures { result ≡ now self.now.core.log }
    {
        self.core.now()
    }

    /// The slot of the clock of all lives in which the present one began, up to 2 to the power of 61.
    pub fn first(&self) -> u64
        ensures first { result ≡ self.now.first }
        ensures early { result ≤ 2305843009213693952 }
    {
        self.first
    }

    /// Memory is reserved for all that is left of the present life, and lasts for each later one. This computes nothing;
    /// its contract is the promise.
    pub fn has_memory(&self)
        ensures reserved { IsReservedFor self.now.terms self.now.life self.now.core }
    {
        let _ = &self.life;
    }
}
