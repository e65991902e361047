//! Asks of tasks, between two slots.

ghost use Rattle.stepped_plan.specs.Calls.{IsPlanAsk};

use crate::plan::SteppedPlan;
use crate::refusals::PlanAskStop;
use crate::stage::Stage;
use ongoing_die::{AskKind, Taken};
use slot_types::{Op, TaskNo};
use std::alloc::Global;

impl SteppedPlan {
    /// Asks for a job of the task, as [`OngoingDie::ask`](ongoing_die::OngoingDie::ask), which says what it is answered and when
    /// it is done.
    ///
    /// `Begun`, where a slot has begun: it would be released in that very slot, whose call is under way; ask again once it has
    /// ended. Nothing changes then. Else as that refuses it (`Ask`).
    pub fn ask(
        &mut self,
        alloc: Global,
        caller: u32,
        task: TaskNo,
        ops: &[Op],
    ) -> Result<Taken, PlanAskStop>
        ensures ask { IsPlanAsk AskKind.Job caller task ops.now result self.old self.new }
    {
        self.ask_as(alloc, caller, AskKind::Job, task, ops)
    }

    /// Asks for a burst of the task, as [`OngoingDie::ask_all`](ongoing_die::OngoingDie::ask_all): for as many jobs as its
    /// operations take, all of them or none. Refused as [`ask`](SteppedPlan::ask) is, with the causes of a burst.
    pub fn ask_all(
        &mut self,
        alloc: Global,
        caller: u32,
        task: TaskNo,
        ops: &[Op],
    ) -> Result<Taken, PlanAskStop>
        ensures ask { IsPlanAsk AskKind.Burst caller task ops.now result self.old self.new }
    {
        self.ask_as(alloc, caller, AskKind::Burst, task, ops)
    }

    /// Asks for a job, as [`ask`](SteppedPlan::ask) does, or for a burst, as [`ask_all`](SteppedPlan::ask_all) does.
    pub fn ask_as(
        &mut self,
        alloc: Global,
        caller: u32,
        kind: AskKind,
        task: TaskNo,
        ops: &[Op],
    ) -> Result<Taken, PlanAskStop>
        ensures ask { IsPlanAsk kind caller task ops.now result self.old self.new }
    {
        match &mut self.stage {
            Some(Stage::Between { die }) => match die.ask_as(alloc, caller, kind, task, ops) {
                Ok(taken) => Ok(taken),
                Err(stop) => Err(PlanAskStop::Ask(stop)),
            },
            Some(Stage::Within { .. }) => Err(PlanAskStop::Begun),
            None => unreachable!(),
        }
    }
}
