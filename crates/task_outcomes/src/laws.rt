//! What holds of the outcomes that tasks take. The law is a function that does nothing.

ghost use Rattle.std.specs.Prelude.{◌<◌, ℕ, List, length};
ghost use Rattle.demand_rules.specs.declared.terms.Terms.{Terms};
ghost use Rattle.die_log.specs.Model.Start.{Start};
ghost use Rattle.ongoing_log.specs.Ongoing.{AreLongEnough, IsOngoing};
ghost use Rattle.task_outcomes.specs.OutcomeMoves.{OutcomeMove, Told, told_after, taken_by, AreAccountedFor};

use ongoing_log::a_die_goes_on_by_itself;

/// Whatever is done with a die, in whatever order and amount, over all lives: each outcome of a task that is done meanwhile is
/// taken, dropped, or still to take: each once, in the order in which the jobs were done. So the oldest are dropped, and each is
/// counted; and what others do with their outcomes is no part of it.
pub fn outcomes_are_told_once()
    ensures { (first : Start) (terms : Terms) (life : ℕ) → AreLongEnough terms life →
        (t : Told) → IsOngoing first terms life t.ongoing → (task : ℕ) → task < length t.queues
        → (moves : List OutcomeMove)
        → AreAccountedFor first task t (taken_by first terms life task t moves) (told_after first terms life t moves) }
{
    a_die_goes_on_by_itself();
}
