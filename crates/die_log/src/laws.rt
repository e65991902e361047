//! What holds of every exact log. Each law is a function that does nothing.

ghost use Rattle.std.specs.Prelude.{◌≡◌, ◌++◌, ◌↔◌, ◌∷◌, ◌+◌, ◌-◌, ◌*◌, ◌<◌, ◌≤◌, Some, None, true, ℕ, List, [], length, map, Contains};
ghost use Rattle.std.specs.Prelude.{IsFalse, count_by};
ghost use Rattle.slot_types.specs.declared.plans.DiePlan.{DiePlan};
ghost use Rattle.slot_types.specs.declared.events.Event.{Event};
ghost use Rattle.slot_types.specs.declared.plans.Times.{Times};
ghost use Rattle.plan_rules.specs.Bound.{MeetsBound};
ghost use Rattle.die_log.specs.Model.Start.{Start, fresh};
ghost use Rattle.die_log.specs.Model.Opening.{IsOpening, IsQuiet, renewed_start};
ghost use Rattle.die_log.specs.Results.Laws.{ForEveryExactLog};
ghost use Rattle.die_log.specs.Results.Certificates.{NothingDone};
ghost use Rattle.plan_rules.specs.Times.{Passes};
ghost use Rattle.plan_rules.specs.Keeping.{KeepsPlan};
ghost use Rattle.late_cert.specs.declared.certificates.Certificate.{Certificate};
ghost use Rattle.late_cert.specs.Schedule.{IsLeastLate};
ghost use Rattle.late_cert.specs.BusyInterval.{CarriesLeastKeys};
ghost use Rattle.die_log.specs.Model.Log.{Log, Job, calls, jobs, now, acts, work};
ghost use Rattle.die_log.specs.Model.Work.{is_done, is_copy_program, victim_of, worst, IsWorst};
ghost use Rattle.die_log.specs.Model.Answers.{refusal_of, run, IsExact};
ghost use Rattle.die_log.specs.Results.Legal.{IsLegal};
ghost use Rattle.die_log.specs.Results.Limits.{KeepsLimits};
ghost use Rattle.die_log.specs.Invariants.RunningCollections.{KeepsJobsAndCells};
ghost use Rattle.die_log.specs.Invariants.TrueAndLegal.{IsTrueAndLegal};
ghost use Rattle.die_log.specs.Invariants.TrueAccounts.{held_of};
ghost use Rattle.die_log.specs.Results.InTime.{events_of_log, AreEntered, IsInTime, AreAccepted, IsAtPeriodEnd};
ghost use Rattle.die_log.specs.Results.Supply.{hold_of, AreStocked};
ghost use Rattle.die_log.specs.Model.Rows.{rows, carried_numbers, certificate, IsCertified};
ghost use Rattle.die_log.specs.Results.Promises.{KeepsPromises};
ghost use Rattle.die_log.specs.Results.Victims.{BeginsNext, IsSmallVictim, HasFirstAct};

/// Two exact logs of one start with the same calls are one log: each call has one answer.
pub fn equal_calls_have_one_answer()
    ensures { (start : Start) (first second : Log) → IsExact start first → IsExact start second
        → calls first ≡ calls second → first
        ≡ second }
{}

/// What an exact log was at an earlier moment is an exact log.
pub fn moments_are_exact()
    ensures { (start : Start) (later moment : Log) → IsExact start (later ++ moment)
        → IsExact start moment }
{}

/// An exact log keeps to the limits of its die: of slots, of jobs and collections, and in each of
/// these. No block was erased more often since the start than there were slots.
pub fn exact_keeps_limits()
    ensures { (start : Start) (log : Log) → IsExact start log → KeepsLimits start log }
{}

/// Exact logs that start at an opening are legal.
pub fn exact_is_legal()
    ensures { ForEveryExactLog IsLegal }
{}

/// After each exact log that starts at an opening the jobs, the cells and the collections stand,
/// and the accounts come to what the log says.
pub fn exact_stands()
    ensures stands { ForEveryExactLog KeepsJobsAndCells }
    ensures well { ForEveryExactLog IsTrueAndLegal }
{}

/// What is read off any log as its worst job is the done one with the greatest lateness, of equal
/// ones the one completed first, of these the one with the smallest number; there is none exactly
/// where nothing is done.
pub fn worst_is_worst()
    ensures none { (plan : DiePlan) (log : Log) → (worst plan log ≡ None)
        ↔ ((j : Job) → Contains (jobs log) j → IsFalse (is_done plan log j)) }
    ensures some { (plan : DiePlan) (log : Log) (j : Job) → worst plan log ≡ Some j
        → IsWorst plan log j }
{}

/// Each slot of an exact log that starts at an opening carried the least key, of deadline and number, of
/// those that waited in it: all that were released, not done and not waived.
pub fn exact_carries_least_keys()
    ensures { ForEveryExactLog (λ start log.
        CarriesLeastKeys (rows start.plan log) (carried_numbers log)) }
{}

/// At each moment of an exact log that starts at an opening the greatest lateness so far is least:
/// no schedule that respects releases, and gives what is done by then as many slots as it took, has
/// a smaller one.
pub fn exact_is_least_late()
    ensures { (start : Start) → IsOpening start → (later moment : Log)
        → IsExact start (later ++ moment)
        → IsLeastLate (rows start.plan moment) (carried_numbers moment) }
{}

/// The certificate of an exact log that starts at an opening: none where nothing is done, and else
/// that of its worst job, which holds over the log's rows.
pub fn exact_is_certified()
    ensures none { ForEveryExactLog (λ start log.
        (certificate start.plan log ≡ None) ↔ NothingDone start.plan log) }
    ensures worst { ForEveryExactLog (λ start log. (j : Job) → worst start.plan log ≡ Some j
        → (c : Certificate) × (certificate start.plan log ≡ Some c)
        × IsCertified start.plan log j c) }
{}

/// In an exact log that starts at an opening a collection copies at most the pages that its collector
/// keeps in reserve, and takes at most two slots for each of these in addition to those of its erase.
pub fn collections_are_bounded()
    ensures copies { ForEveryExactLog (λ start log.
        (j : Job) → Contains (jobs log) j → j.collects ≡ true
        → count_by is_copy_program (acts j.number log)
        ≤ start.plan.shape.pages - start.plan.alpha) }
    ensures slots { ForEveryExactLog (λ start log.
        (j : Job) → Contains (jobs log) j → j.collects ≡ true
        → work j.number log ≤ 2 * (start.plan.shape.pages - start.plan.alpha)
        + start.plan.shape.erase_slots) }
{}

/// The pigeonhole, of logs. A collection that begins in an exact log that starts at an opening finds a victim, and
/// that block has at most `pages - alpha` valid pages: so at each moment at which such a collection has the next slot,
/// and so in each slot that carried the first act of one, whose block is then the victim of that moment.
pub fn collections_find_victims()
    ensures next { ForEveryExactLog (λ start log. (j : Job) → BeginsNext start log j
        → (b : ℕ) × IsSmallVictim start log b) }
    ensures carried { ForEveryExactLog (λ start log. (past : Log) (j : Job) → HasFirstAct log past j
        → (b : ℕ) × IsSmallVictim start past b × (victim_of start j.number log ≡ Some b)) }
{}

/// An exact log that starts at an opening keeps all that is promised of a log, and so did it at each earlier moment.
pub fn exact_keeps_promises()
    ensures log { ForEveryExactLog KeepsPromises }
    ensures moments { (start : Start) → IsOpening start → (later moment : Log)
        → IsExact start (later ++ moment)
        → KeepsPromises start moment }
{}

/// What an exact log that starts at an opening holds for a task is what the task's accepted jobs still owe: those of
/// their writes that were not carried out yet.
pub fn holds_are_owed()
    ensures { ForEveryExactLog (λ start log. (task : ℕ) → task < length start.plan.caps
        → hold_of start log task ≡ held_of (λ n. acts n log) (jobs log) task) }
{}

/// Nothing is late that was planned. Let the log start at an opening whose plan passes the test of its times, and let
/// events keep to it. At each moment of an exact log that they leave, whichever jobs and collections were refused, all
/// that is due by then is done or was waived, and nothing is done late. So it is after a run of these events.
pub fn planned_work_is_in_time()
    ensures moments { (start : Start) (times : Times) → IsOpening start → Passes start.plan times →
        (all : List Event) → KeepsPlan start.plan times all →
        (later moment : Log) → IsExact start (later ++ moment) → AreEntered all [] (later ++ moment)
        → IsInTime start.plan moment }
    ensures runs { (start : Start) (times : Times) → IsOpening start → Passes start.plan times →
        (calls : List (ℕ × Event)) → KeepsPlan start.plan times (map (λ call. call.1) calls)
        → IsInTime start.plan (run start [] calls) }
{}

/// Of events that keep a passing plan none is refused: no job for lack of tokens, and no collection because
/// the task's collector is busy. So it is of each event after those before it, and of a run of them all.
pub fn planned_work_is_accepted()
    ensures next { (start : Start) (times : Times) → IsOpening start → Passes start.plan times
        → AreStocked start times →
        (past : Log) (event : Event) (rest : List Event) → IsExact start past →
        KeepsPlan start.plan times (events_of_log past ++ event ∷ rest)
        → refusal_of start past event ≡ None }
    ensures run { (start : Start) (times : Times) → IsOpening start → Passes start.plan times
        → AreStocked start times →
        (calls : List (ℕ × Event)) → KeepsPlan start.plan times (map (λ call. call.1) calls)
        → AreAccepted start [] calls }
{}

/// A fresh die of a plan within its bound may start a log.
pub fn fresh_is_opening()
    ensures opens { (plan : DiePlan) → MeetsBound plan → IsOpening (fresh plan) }
    ensures stocked { (plan : DiePlan) (times : Times) → AreStocked (fresh plan) times }
{}

/// A moment of an exact log at which each job and each collection is done or was waived is one from which another log
/// may start.
pub fn quiet_moments_are_openings()
    ensures { (start : Start) (log : Log) → IsOpening start → IsExact start log → IsQuiet start log
        → IsOpening (renewed_start start log) }
{}

/// Planned work goes on over renewals. Let the log start stocked, and let the events keep a passing plan; let all that
/// was accepted be due by now, and let the slot be a multiple of every collect period. Then the moment is quiet, and a
/// log that starts there is stocked again: so nothing of the next such events is refused or late.
pub fn planned_work_goes_on()
    ensures { (start : Start) (times : Times) → IsOpening start → Passes start.plan times
        → AreStocked start times →
        (log : Log) (rest : List Event) → IsExact start log
        → KeepsPlan start.plan times (events_of_log log ++ rest) →
        IsAtPeriodEnd start.plan times log
        → IsQuiet start log × AreStocked (renewed_start start log) times }
{}
