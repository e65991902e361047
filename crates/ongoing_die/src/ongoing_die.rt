//! A die that keeps its plan itself and goes on by itself.

ghost use Rattle.std.specs.Prelude.{◌≡◌, ◌≤◌, ◌+◌, false, [], length, replicate, slice_index_or, option_map, None, IfOk, IfErr};
ghost use Rattle.flash_die.specs.Flash.{IsFresh};
ghost use Rattle.die_log.specs.Model.Log.{now};
ghost use Rattle.die_log.specs.Model.Start.{Start, fresh};
ghost use Rattle.die_log.specs.Model.Lives.{all_slots};
ghost use Rattle.slot_core.specs.Core.{nothing_reserved};
ghost use Rattle.planned_log.specs.Laws.{AreDoneInTime};
ghost use Rattle.ongoing_log.specs.PastLives.{counted};
ghost use Rattle.ongoing_log.specs.Ongoing.{Ongoing, new_ongoing, ops_of, AreLongEnough};
ghost use Rattle.planned_die.specs.Planned.{IsReservedFor, with_life};
ghost use Rattle.ongoing_die.specs.Standing.{StandsAs};
ghost use Rattle.ongoing_die.specs.OngoingPlans.{RefusesOngoing, IsLongestLife};

use crate::lengths::first_too_late;
use crate::refusals::OngoingRefusal;
use crate::waiting::{Waiting, none_waiting, ops_waiting};
use demand_rules::Terms;
use flash_die::Nand;
use ongoing_log::a_die_goes_on_by_itself;
use planned_die::{PlanRefusal, PlannedDie};
use slot_types::{DiePlan, Op, Refusal, TaskNo};
use std::alloc::Global;
use std::marker::Model;

/// A die that keeps its plan itself and goes on by itself: where a life ends the next one begins, and an ask whose job
/// would be due after the end waits for it, or an ask for a later slot for that one, one of each task. Nobody renews it.
///
/// Contracts see the die of the present life and what waits. Which lives it had before isn't kept: `StandsAs` says where
/// it began and what stands of it over all its lives, and each call is a move of that.
#[derive(Drop)]
pub struct OngoingDie<N: Nand> {
    pub(crate) die: PlannedDie<N>,
    /// By task the ask that waits.
    pub(crate) waiting: Vec<Waiting>,
    /// Before this slot of the clock a slot begins with nothing: the life goes on, and nothing waits for it.
    pub(crate) quiet: u64,
}

impl<N: Nand> Model for OngoingDie<N> {
    ghost use Rattle.std.specs.Prelude.{map};
    ghost use Rattle.ongoing_die.specs.Standing.{OngoingParts, IsOngoingDie, IsQuietBefore, HaveRoom, ask_in};

    ghost Value = { OngoingParts N };

    ghost view = { λ d. record { die = d.die; waiting = map ask_in d.waiting.items } };

    ghost invariant = { λ d. IsOngoingDie {N = N} (record {
      die = d.die;
      waiting = map ask_in d.waiting.items;
    }) × HaveRoom d.die.terms d.waiting.items
        × IsQuietBefore {N = N} d.quiet (record { die = d.die; waiting = map ask_in d.waiting.items }) };
}

impl<N: Nand> OngoingDie<N> {
    /// A die on which nothing was done, at slot 0, with lives of at most so many slots: of the longest such life. It takes
    /// all memory that it ever needs, for what waits, too.
    ///
    /// Refused as [`PlannedDie::new`] refuses it; else `ShortLife`, where a life has fewer slots than some task's deadline,
    /// with the first such task. Plan, terms and device are given up then.
    pub fn new(
        alloc: Global,
        plan: DiePlan,
        terms: Terms,
        longest: u32,
        nand: N,
    ) -> Result<OngoingDie<N>, OngoingRefusal>
        requires fresh { IsFresh (N.shape_of nand) (N.blocks nand) (N.failures nand) }
        ensures ok { IfOk result (λ ongoing. ongoing.die.core ≡ with_life terms ongoing.die.life (record {
          start = fresh plan;
          device = nand;
          stopped = false;
          reserved = nothing_reserved;
          lasting = nothing_reserved;
          log = [];
        })) }
        ensures terms { IfOk result (λ ongoing. ongoing.die.terms ≡ terms) }
        ensures none_waits { IfOk result (λ ongoing. ongoing.waiting ≡ replicate (length plan.caps) None) }
        ensures life { IfOk result (λ ongoing. IsLongestLife plan terms longest ongoing.die.life) }
        ensures stands { IfOk result (λ ongoing. StandsAs (fresh plan) (new_ongoing plan) ongoing) }
        ensures refused { IfErr result (RefusesOngoing plan terms longest (N.shape_of nand)) }
    {
        let die = match PlannedDie::new(alloc, plan, terms, longest, nand) {
            Ok(die) => die,
            Err(refusal) => return Err(OngoingRefusal::Plan(refusal)),
        };
        die.keeps_plan();
        a_die_goes_on_by_itself();
        match first_too_late(die.terms(), die.life()) {
            Some(task) => return Err(OngoingRefusal::ShortLife { task }),
            None => {}
        }
        let waiting = match none_waiting(alloc, die.terms()) {
            Ok(waiting) => waiting,
            Err(_) => return Err(OngoingRefusal::Plan(PlanRefusal::Die(Refusal::NoMemory))),
        };
        Ok(OngoingDie {
            die,
            waiting,
            quiet: 0,
        })
    }

    /// It goes on by itself: from its first start on it stands somehow over all its lives, whether each ended by itself, by a
    /// checkpoint, or by a loss of power. Each was in time, and but for a loss of power it ended quiet (`HavePassed`); unless a
    /// fault has stopped it, the present life keeps the plan, and so will each later one. Each job of the log that is due by
    /// now is done, and was by its deadline. This computes nothing; its contract is the promise.
    pub fn goes_on(&self)
        ensures stands { (first : Start) × (d : Ongoing) × StandsAs first d self.now }
        ensures long { AreLongEnough self.now.die.terms self.now.die.life }
        ensures jobs { AreDoneInTime self.now.die.core.start.plan self.now.die.core.log }
    {
        let _ = &self.waiting;
        self.die.keeps_plan();
    }

    /// The die below, in the life of its log, to be asked what became of its jobs: its questions change nothing.
    pub fn die(&self) -> &PlannedDie<N>
        ensures { result.now ≡ self.now.die }
    {
        &self.die
    }

    /// The present slot of the clock of all lives.
    pub fn clock(&self) -> u64
        ensures slot { result ≡ self.now.die.first + now self.now.die.core.log }
        ensures clock { (first : Start) (d : Ongoing) → StandsAs first d self.now
            → self.now.die.core.stopped ≡ false → result ≡ all_slots (counted d.earlier) + now d.log }
    {
        self.die.first() + u64::from(self.die.now())
    }

    /// The operations of the task's ask that waits, for the next life or for a slot that was asked for, if one does.
    pub fn waiting(&self, task: TaskNo) -> Option<&[Op]>
        ensures { option_map (λ ops. ops.now) result ≡ ops_of (slice_index_or self.now.waiting task None) }
    {
        ops_waiting(&self.waiting, task.0 as usize)
    }

    /// Memory is reserved for all that is left of the present life, and lasts for each later one. This computes nothing;
    /// its contract is the promise.
    pub fn has_memory(&self)
        ensures reserved { IsReservedFor self.now.die.terms self.now.die.life self.now.die.core }
    {
        let _ = &self.waiting;
        self.die.has_memory();
    }
}
