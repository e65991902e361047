//! Dies that run the rows of a script.

ghost use Rattle.std.specs.Prelude.{◌≡◌, ◌≤◌, IfOk, OnOk};
ghost use Rattle.slot_types.specs.Arrivals.{IsArrival};
ghost use Rattle.slot_types.specs.Refusal.{FailsForMemory};
ghost use Rattle.flashplan_script_runs.specs.RunningDies.{IsAsked, IsCarriedTo};

use slot_types::{Event, MAX_SLOT, Refusal};
use std::alloc::Global;

/// A die that runs the rows of a script. Contracts see where its log starts, its log, whether its device has failed,
/// which stops it, and whether it may.
pub trait ScriptDie: Drop {
    ghost use Rattle.flashplan_script_runs.specs.RunningDies.{RunningDie};

    ghost running: { Self → RunningDie };

    /// That the die runs, and that its device makes each call well that a life needs.
    ghost runs_well: { Self → Type 0 };

    /// Carries out slots until this one is the present one, or the device fails, which stops the die in its slot. A die that
    /// is stopped stays as it is. The only refusal is NoMemory; some of the slots may be carried out then.
    fn carry_to(&mut self, alloc: Global, slot: u32) -> Result<(), Refusal>
        requires few { slot ≤ MAX_SLOT }
        ensures carried { OnOk result (IsCarriedTo slot (running self.old) (running self.new)) }
        ensures start { (running self.new).start ≡ (running self.old).start }
        ensures well { runs_well self.old → runs_well self.new }
        ensures refused { FailsForMemory result };

    /// Asks for what a row says, and answers why the die refused it, if it did: as the log says, with NoMemory, or with
    /// DieStopped; no log changes then. The only refusal of this call is NoMemory, where what is noted beside the die
    /// finds none.
    fn ask(&mut self, alloc: Global, event: Event) -> Result<Option<Refusal>, Refusal>
        requires arrival { IsArrival event }
        ensures asked { IfOk result (λ refusal.
            IsAsked event refusal (running self.old) (running self.new)) }
        ensures start { (running self.new).start ≡ (running self.old).start }
        ensures well { runs_well self.old → runs_well self.new }
        ensures refused { FailsForMemory result };
}
