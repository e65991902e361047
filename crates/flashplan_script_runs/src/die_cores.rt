//! A die itself, as one that runs the rows of a script.

ghost use Rattle.slot_types.specs.Arrivals.{IsArrival};
ghost use Rattle.slot_types.specs.declared.replies.Reply.{Reply};
ghost use Rattle.slot_core.specs.Calls.{IsCall, reply_as};

use crate::script_dies::ScriptDie;
use flash_die::Nand;
use slot_core::DieCore;
use slot_types::{Event, JobNo, Refusal};
use std::alloc::Global;

/// Asks a die for what a row says, and answers the number under which it was taken; or why it is refused, as
/// [`DieCore::submit`] and [`DieCore::collect`] say.
pub fn arrive<N: Nand>(die: &mut DieCore<N>, alloc: Global, event: Event) -> Result<JobNo, Refusal>
    requires { IsArrival event }
    ensures { IsCall N.ends N.failures N.never_fails 0 event (reply_as Reply.Taken result) die.old
        die.new }
{
    match event {
        Event::Submit {
            task,
            release,
            due,
            ops,
        } => die.submit(alloc, 0, task, release, due, ops),
        Event::Collect { task, release, due } => die.collect(alloc, 0, task, release, due),
        Event::Slot => unreachable!(),
    }
}

impl<N: Nand> ScriptDie for DieCore<N> {
    ghost use Rattle.flashplan_script_runs.specs.RunningDies.{running_of};
    ghost use Rattle.std.specs.Prelude.{◌≡◌, true, false};

    ghost running = { running_of };

    ghost runs_well = { λ die. (N.never_fails ≡ true) × (die.stopped ≡ false) };

    fn carry_to(&mut self, alloc: Global, slot: u32) -> Result<(), Refusal> {
        for _present in self.now()..slot {
            match self.note_slot(alloc, 0) {
                Ok(_) => {}
                Err(_) if self.is_stopped() => return Ok(()),
                Err(refusal) => return Err(refusal),
            }
        }
        Ok(())
    }

    fn ask(&mut self, alloc: Global, event: Event) -> Result<Option<Refusal>, Refusal> {
        match arrive(self, alloc, event) {
            Ok(_) => Ok(None),
            Err(refusal) => Ok(Some(refusal)),
        }
    }
}
