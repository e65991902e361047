//! Asks of tasks whose release lies ahead, for a job or for a burst.

ghost use Rattle.std.specs.Prelude.{};
ghost use Rattle.die_log.specs.Model.Start.{Start};
ghost use Rattle.ongoing_log.specs.Ongoing.{Ongoing};
ghost use Rattle.ongoing_die.specs.Standing.{StandsAs};
ghost use Rattle.ongoing_die.specs.OngoingCalls.{IsOngoingAskAt, HaveOnePlan};

use crate::answers::Taken;
use crate::later_asks::of_ask;
use crate::ongoing_die::OngoingDie;
use crate::refusals::AskAtStop;
use flash_die::Nand;
use planned_log::AskKind;
use slot_types::{Op, TaskNo};
use std::alloc::Global;

impl<N: Nand> OngoingDie<N> {
    /// Asks for a job of the task that is released in slot `at` of the clock of all lives. For the present slot it is
    /// [`ask`](OngoingDie::ask). Else it waits in the die until that slot (`Waits`), where the job enters by itself as the first
    /// thing of the slot, whatever the other tasks ask, and is due as many slots later as the task's terms say (`deadline`). Where
    /// it would be due after the present life, it is released in the first slot of the next one. One ask of each task waits, and
    /// while it does, the task's other asks aren't taken.
    ///
    /// The refusals, of which the first that stands is answered, and the die stands as it did: `Ended`, where the whole die takes
    /// nothing more, as [`LifeStop`](crate::LifeStop) lists the causes; `Past`, where slot `at` is over; `Plan`, for what the task
    /// itself asks, and for what it has asked for so far, as at slot `at`: the causes of
    /// [`PlannedDie::ask`](planned_die::PlannedDie::ask), without `DieStopped` and `LifeEnd`; `TooFarAhead`, where slot `at` lies
    /// ahead by the task's period or more, or after the first slot of the next life; `WaitsAlready`, where an ask of the task
    /// waits. There is no other: tokens, numbers, deadlines and memory are never lacking, neither now nor in slot `at`, and it
    /// takes no memory.
    pub fn ask_at(
        &mut self,
        alloc: Global,
        caller: u32,
        task: TaskNo,
        ops: &[Op],
        at: u64,
    ) -> Result<Taken, AskAtStop>
        ensures ask { (first : Start) (d : Ongoing) → StandsAs first d self.old
            → IsOngoingAskAt AskKind.Job caller task ops.now at first d result self.old self.new }
        ensures plan { HaveOnePlan self.old self.new }
    {
        self.ask_at_as(alloc, caller, AskKind::Job, task, ops, at)
    }

    /// Asks for a burst of the task that is released in slot `at`: for as many jobs as its operations take, as
    /// [`ask_all`](OngoingDie::ask_all) asks for them, released and due together as the job of [`ask_at`](OngoingDie::ask_at) is.
    ///
    /// The refusals are those of `ask_at`, but that `Plan` has the causes of
    /// [`PlannedDie::ask_all`](planned_die::PlannedDie::ask_all), without `DieStopped` and `LifeEnd`. It takes no memory.
    pub fn ask_all_at(
        &mut self,
        alloc: Global,
        caller: u32,
        task: TaskNo,
        ops: &[Op],
        at: u64,
    ) -> Result<Taken, AskAtStop>
        ensures ask { (first : Start) (d : Ongoing) → StandsAs first d self.old
            → IsOngoingAskAt AskKind.Burst caller task ops.now at first d result self.old self.new }
        ensures plan { HaveOnePlan self.old self.new }
    {
        self.ask_at_as(alloc, caller, AskKind::Burst, task, ops, at)
    }

    /// Asks for a job, as [`ask_at`](OngoingDie::ask_at) does, or for a burst, as [`ask_all_at`](OngoingDie::ask_all_at) does.
    pub fn ask_at_as(
        &mut self,
        alloc: Global,
        caller: u32,
        kind: AskKind,
        task: TaskNo,
        ops: &[Op],
        at: u64,
    ) -> Result<Taken, AskAtStop>
        ensures ask { (first : Start) (d : Ongoing) → StandsAs first d self.old
            → IsOngoingAskAt kind caller task ops.now at first d result self.old self.new }
        ensures plan { HaveOnePlan self.old self.new }
    {
        match self.go_on(alloc) {
            Ok(()) => {}
            Err(stop) => return Err(AskAtStop::Ended(stop)),
        }
        let clock = self.clock();
        if at < clock {
            return Err(AskAtStop::Past);
        }
        if at == clock {
            return of_ask(self.ask_as(alloc, caller, kind, task, ops));
        }
        self.ask_later(caller, kind, task, ops, at)
    }
}
