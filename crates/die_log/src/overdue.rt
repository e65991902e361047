//! What waits waits for work that was due no later. Each law is a function that does nothing.

ghost use Rattle.std.specs.Prelude.{◌≡◌, ◌≤◌, Some, Contains, IsTrue, ℕ, IfSome, IfNone};
ghost use Rattle.slot_types.specs.declared.plans.DiePlan.{DiePlan};
ghost use Rattle.die_log.specs.Model.Log.{Log, Job, jobs, now};
ghost use Rattle.die_log.specs.Model.Work.{is_ready};
ghost use Rattle.die_log.specs.Results.Laws.{ForEveryExactLog};
ghost use Rattle.die_log.specs.Results.Overdue.{overdue, WaitsForTooMuch};

/// At each moment of an exact log that starts at an opening, whatever is released and neither done nor waived waits
/// since there was too much work: jobs that were all released from some slot on, and were due no later, filled each slot
/// from there to the present one. So no schedule gives each of these the slots that they had, and that one a slot more,
/// and has all of them done by now. Where that one is overdue, one of them is late in each such schedule, since none of
/// them is due after it.
pub fn waiting_work_had_too_much()
    ensures { ForEveryExactLog (λ start log. WaitsForTooMuch start.plan log) }
{}
