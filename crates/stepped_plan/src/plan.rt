//! A die that keeps its plan itself, whose slots are begun and ended.

ghost use Rattle.std.specs.Prelude.{IfOk, IfErr};
ghost use Rattle.ongoing_die.specs.OngoingPlans.{RefusesOngoing};
ghost use Rattle.stepped_plan.specs.Calls.{IsNewPlan};

use crate::stage::Stage;
use demand_rules::Terms;
use ongoing_die::{OngoingDie, OngoingRefusal};
use plan_rules::bound;
use planned_die::PlanRefusal;
use slot_types::DiePlan;
use std::alloc::Global;
use std::marker::Model;
use stepped_die::{MirrorNand, Part};

/// A die that keeps its plan itself and goes on by itself, for a driver that makes the device's calls: tasks ask between two
/// slots; a slot begins, with the one call that it needs, and ends. It keeps a mirror of the names of its pages, as a
/// [`SteppedDie`](stepped_die::SteppedDie) does.
///
/// Contracts see where it stands, between two slots with an [`OngoingDie`], or within one; and what is known of the part beneath
/// it. It always stands somewhere; there is no stage only while a call is under way.
#[derive(Drop)]
pub struct SteppedPlan {
    pub(crate) stage: Option<Stage>,
    pub(crate) part: Part,
}

impl Model for SteppedPlan {
    ghost use Rattle.stepped_plan.specs.Stages.{IsSteppedPlan, Stepping};

    ghost Value = { Stepping };

    ghost view = { λ p. record { stage = p.stage; part = p.part } };

    ghost invariant = { λ p. IsSteppedPlan p.stage };
}

impl SteppedPlan {
    /// A die on which nothing was done, over a device that is erased, as [`OngoingDie::new`] makes it: at slot 0, with lives of
    /// at most `longest` slots, of the longest such life, and with all memory that it ever needs.
    ///
    /// Refused as that is: `Plan`, for the plan, its terms, memory, or since there is no life of at most `longest`
    /// slots; else `ShortLife`, with the first task whose deadline is longer than a life. Plan and terms are given up
    /// then.
    pub fn new(
        alloc: Global,
        plan: DiePlan,
        terms: Terms,
        longest: u32,
    ) -> Result<SteppedPlan, OngoingRefusal>
        ensures ok { IfOk result (IsNewPlan plan terms longest) }
        ensures refused { IfErr result (RefusesOngoing plan terms longest plan.shape) }
    {
        match bound(&plan) {
            Ok(()) => {}
            Err(refusal) => return Err(OngoingRefusal::Plan(PlanRefusal::Die(refusal))),
        }
        let mirror = match MirrorNand::new(alloc, plan.shape) {
            Ok(mirror) => mirror,
            Err(refusal) => return Err(OngoingRefusal::Plan(PlanRefusal::Die(refusal))),
        };
        let part = Part::fresh(&plan);
        match OngoingDie::new(alloc, plan, terms, longest, mirror) {
            Ok(die) => Ok(SteppedPlan {
                stage: Some(Stage::Between { die }),
                part,
            }),
            Err(refusal) => Err(refusal),
        }
    }
}
