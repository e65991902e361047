//! What a die answers leaves no choice. Each law is a function that does nothing.

ghost use Rattle.std.specs.Prelude.{ℕ, ◌≡◌, ◌⊎◌, All, List, Result};
ghost use Rattle.slot_types.specs.declared.events.Event.{Event};
ghost use Rattle.slot_types.specs.declared.refusals.Refusal.{Refusal};
ghost use Rattle.slot_types.specs.declared.replies.Reply.{Reply};
ghost use Rattle.slot_core.specs.Calls.{IsCall, IsByChance, AreAlike};
ghost use Rattle.slot_core.specs.Core.{Core};
ghost use Rattle.slot_core.specs.Runs.{IsRun, IsDecided};

use flash_die::Nand;
use slot_types::Refusal;

/// One call of two dies that agree in all but their devices has one answer, and leaves them so, unless memory is
/// refused to one of them, or its device fails.
pub fn a_call_has_one_answer<N: Nand>()
    ensures { (caller : ℕ) (event : Event) (one other : Result Reply Refusal)
        (here there left right : Core N) → AreAlike here there →
        IsCall N.ends N.failures N.never_fails caller event one here left →
        IsCall N.ends N.failures N.never_fails caller event other there right →
        ((one ≡ other) × AreAlike left right) ⊎ IsByChance one ⊎ IsByChance other }
{}

/// One run of two such dies has one list of replies, and leaves them so, unless memory is refused to one of them, or
/// its device fails.
pub fn a_run_has_one_answer<N: Nand>()
    ensures { (events : List Event) (one other : List Reply) (here there left right : Core N)
        → AreAlike here there →
        IsRun N.ends N.failures N.never_fails here events one left
        → IsRun N.ends N.failures N.never_fails there events other right →
        All IsDecided one → All IsDecided other → (one ≡ other) × AreAlike left right }
{}
