//! Asks of tasks, for a job or for a burst.

ghost use Rattle.std.specs.Prelude.{};
ghost use Rattle.die_log.specs.Model.Start.{Start};
ghost use Rattle.ongoing_log.specs.Ongoing.{Ongoing};
ghost use Rattle.ongoing_die.specs.Standing.{StandsAs};
ghost use Rattle.ongoing_die.specs.OngoingCalls.{IsOngoingAsk, HaveOnePlan};

use crate::answers::Taken;
use crate::die_asks::{ask_die, why_not};
use crate::lengths::deadline_of;
use crate::ongoing_die::OngoingDie;
use crate::refusals::AskStop;
use crate::waiting::{is_waiting, keep_waiting};
use flash_die::Nand;
use ongoing_log::a_die_goes_on_by_itself;
use planned_log::{AskKind, AskRefusal};
use slot_types::{Op, TaskNo};
use std::alloc::Global;

impl<N: Nand> OngoingDie<N> {
    /// Asks for a job of the task. `Enters`: it is released in the present slot, and due as many slots later as the task's
    /// terms say (`deadline`). `Waits`: it would be due after the present life; so it waits, is released in the first slot
    /// of the next life, and due so many slots after that, which are fewer than twice its deadline from now on. It is done
    /// by then, whatever the other tasks ask, as long as slots are carried out. Slots are counted on the clock of all lives.
    ///
    /// The refusals, of which the first that stands is answered, and the die stands as it did: `Ended`, where the whole die
    /// takes nothing more, as [`LifeStop`](crate::LifeStop) lists the causes; `Plan`, for what the task itself asks and has
    /// asked for, as [`PlannedDie::ask`](planned_die::PlannedDie::ask) lists the causes, without `DieStopped` and
    /// `LifeEnd`; `WaitsAlready`, where an ask of the task waits. Beside one that was asked for in the present slot or an earlier
    /// one, and not for a later one, that comes only where this ask would wait, too. There is no other refusal: tokens, numbers,
    /// deadlines and memory are never lacking, and it takes no memory.
    pub fn ask(
        &mut self,
        alloc: Global,
        caller: u32,
        task: TaskNo,
        ops: &[Op],
    ) -> Result<Taken, AskStop>
        ensures ask { (first : Start) (d : Ongoing) → StandsAs first d self.old
            → IsOngoingAsk AskKind.Job caller task ops.now first d result self.old self.new }
        ensures plan { HaveOnePlan self.old self.new }
    {
        self.ask_as(alloc, caller, AskKind::Job, task, ops)
    }

    /// Asks for a burst of the task: for as many jobs as its operations take, in order, of 64 operations each but for the
    /// last one, which may have fewer, and for all of them or none. They are released and due together, as the job of
    /// [`ask`](OngoingDie::ask) is: in the present slot (`Enters`), or, where they would be due after the present life, in
    /// the first slot of the next one (`Waits`). A burst of at most 64 operations is answered as `ask` answers it.
    ///
    /// The refusals are those of `ask`, of which the first that stands is answered, and the die stands as it did; but that
    /// `Plan` has the causes of [`PlannedDie::ask_all`](planned_die::PlannedDie::ask_all), without `DieStopped` and
    /// `LifeEnd`: up to the task's `work` operations may be asked for. `WaitsAlready` is answered where an ask of the task
    /// waits, for a job or for a burst. It takes no memory.
    pub fn ask_all(
        &mut self,
        alloc: Global,
        caller: u32,
        task: TaskNo,
        ops: &[Op],
    ) -> Result<Taken, AskStop>
        ensures ask { (first : Start) (d : Ongoing) → StandsAs first d self.old
            → IsOngoingAsk AskKind.Burst caller task ops.now first d result self.old self.new }
        ensures plan { HaveOnePlan self.old self.new }
    {
        self.ask_as(alloc, caller, AskKind::Burst, task, ops)
    }

    /// Asks for a job, as [`ask`](OngoingDie::ask) does, or for a burst, as [`ask_all`](OngoingDie::ask_all) does.
    pub fn ask_as(
        &mut self,
        alloc: Global,
        caller: u32,
        kind: AskKind,
        task: TaskNo,
        ops: &[Op],
    ) -> Result<Taken, AskStop>
        ensures ask { (first : Start) (d : Ongoing) → StandsAs first d self.old
            → IsOngoingAsk kind caller task ops.now first d result self.old self.new }
        ensures plan { HaveOnePlan self.old self.new }
    {
        match self.go_on(alloc) {
            Ok(()) => {}
            Err(stop) => return Err(AskStop::Ended(stop)),
        }
        a_die_goes_on_by_itself();
        let own = task.0 as usize;
        if is_waiting(&self.waiting, own) {
            return Err(why_not(&mut self.die, kind, task, ops));
        }
        let deadline = u64::from(deadline_of(self.die.terms(), own));
        match ask_die(&mut self.die, alloc, caller, kind, task, ops) {
            Ok(burst) => {
                let release = self.die.first() + u64::from(self.die.now());
                Ok(Taken::Enters {
                    release,
                    due: release + deadline,
                    first: burst.first,
                    jobs: burst.jobs,
                })
            }
            Err(refusal) => {
                match refusal {
                    AskRefusal::LifeEnd => {}
                    _ => return Err(AskStop::Plan(refusal)),
                }
                let release = self.die.first() + u64::from(self.die.life());
                keep_waiting(&mut self.waiting, own, caller, ops, release);
                Ok(Taken::Waits {
                    release,
                    due: release + deadline,
                })
            }
        }
    }
}
