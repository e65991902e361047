//! What a store's calls leave open, and that it is nothing else: laws of one answer.
//!
//! Each law is a function that does nothing. Its premises are the clauses of a call that decide, said of two answers
//! `one` and `other`.

ghost use Rattle.std.specs.Prelude.{◌≡◌, ℕ, Bool, List, All, IfErr};
ghost use Rattle.die_log.specs.Model.Log.{Log};
ghost use Rattle.die_log.specs.Model.Start.{Start};
ghost use Rattle.die_service.specs.PlannedRuns.{IsForMemoryOrFault, RanAlone};
ghost use Rattle.die_service.specs.declared.ends.DieEnd.{DieEnd};
ghost use Rattle.die_service.specs.declared.feeds.Arrival.{Arrival};

/// A run on a new die on which nothing else was done (`run_slots`, and `run_batches` of a batch that begins at slot 0)
/// has one end and one log, unless memory is refused to one of them, or its device fails.
pub fn a_run_alone_has_one_answer()
    ensures { (never_fails : Bool) (start : Start) (slots : ℕ) (feed : List Arrival)
        (one other : DieEnd) (here there : Log) →
        (ran : RanAlone never_fails start slots feed one here) →
        (again : RanAlone never_fails start slots feed other there) →
        All (λ said. IfErr said.reply (λ refused.
        ¬ IsForMemoryOrFault never_fails refused.refusal)) ran.ran.saids →
        All (λ said. IfErr said.reply (λ refused.
        ¬ IsForMemoryOrFault never_fails refused.refusal)) again.ran.saids →
        (one ≡ other) × (here ≡ there) }
{}
