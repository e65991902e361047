//! What is promised of all that a pass has seen.

ghost use Rattle.std.specs.Prelude.{ℕ, Bool, List, ◌++◌};
ghost use Rattle.die_log.specs.Model.Start.{Start};
ghost use Rattle.die_log.specs.Model.Log.{Log};
ghost use Rattle.die_log.specs.Results.Promises.{KeepsPromises};
ghost use Rattle.die_service.specs.declared.ends.DieEnd.{DieEnd};
ghost use Rattle.die_service.specs.declared.feeds.Arrival.{Arrival};
ghost use Rattle.die_service.specs.Logs.{DieCall, log_of};
ghost use Rattle.die_service.specs.Replies.{HasExactLog};
ghost use Rattle.die_service.specs.Passes.{SeesPromised};
ghost use Rattle.die_service.specs.PlannedRuns.{FeedKeepsPlan, RanAlone, FeedGoesAsPlanned};
ghost use Rattle.die_service.specs.Runs.{AllArrive};

use crate::die::DiePass;
use flash_die::Nand;

/// What stands of every pass, whatever it and others did, while the store is open; the call does nothing. What the pass
/// has seen is an exact log from its die's start, which is an opening, and keeps all that is promised of a log.
pub fn promises<N: Nand>(pass: &DiePass<N>)
    ensures { SeesPromised pass.now.view }
{
    // It says that what the pass has seen fits its start.
    let _ = pass.number();
}

/// Whatever list a pass has seen: an exact log that starts at an opening keeps all that is promised of a log, and so
/// does each beginning of it.
pub fn seen_keeps_promises()
    ensures seen { (start : Start) (seen : List DieCall) → HasExactLog start seen
        → KeepsPromises start (log_of seen) }
    ensures beginnings { (start : Start) (first later : List DieCall)
        → HasExactLog start (first ++ later)
        → KeepsPromises start (log_of first) }
{}

/// Whatever [`run_slots`](crate::run_slots) did on a new die, where the events of its feed keep the die's plan, whose
/// times pass their test: nothing is late, also where slots were refused. Of the feed's events none is refused but out
/// of memory, or after one that was; and a slot is refused out of memory alone, or where the device fails. An event
/// after a refused one may be refused for it: a task lacks the tokens of a collection that found no memory.
///
/// It speaks of a die on which nothing else was done, as [`close`](crate::close) says of a closed one, whose log this
/// is.
pub fn planned_feeds_go_as_planned()
    ensures { (never_fails : Bool) (start : Start) (slots : ℕ) (feed : List Arrival) (end : DieEnd)
        (log : Log) →
        AllArrive feed → FeedKeepsPlan start slots feed
        → RanAlone never_fails start slots feed end log →
        FeedGoesAsPlanned never_fails start.plan end log }
{}
