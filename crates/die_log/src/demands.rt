//! What holds of logs whose events keep a plan with deadlines and bursts. The laws of plans with times follow from these,
//! since such a plan is one with terms. Each law is a function that does nothing.

ghost use Rattle.std.specs.Prelude.{◌≡◌, ℕ, ◌++◌, ◌∷◌, ◌+◌, ◌<◌, ◌≤◌, ◌%◌, List, [], map, length, None};
ghost use Rattle.slot_types.specs.declared.plans.DiePlan.{DiePlan};
ghost use Rattle.slot_types.specs.declared.events.Event.{Event};
ghost use Rattle.slot_types.specs.declared.plans.Times.{Times};
ghost use Rattle.plan_rules.specs.Times.{Passes};
ghost use Rattle.demand_rules.specs.Earlier.{as_terms};
ghost use Rattle.die_log.specs.Results.Supply as earlier;
ghost use Rattle.demand_rules.specs.declared.terms.Terms.{Terms};
ghost use Rattle.demand_rules.specs.Demand.{terms_of, HasTerms, PassesDemand};
ghost use Rattle.demand_rules.specs.Supply.{PassesSupply};
ghost use Rattle.demand_rules.specs.Keeping.{KeepsDemandPlan};
ghost use Rattle.demand_rules.specs.Fitting.{FitsWindows};
ghost use Rattle.plan_rules.specs.Keeping.{TaskArrival, arrivals, slots};
ghost use Rattle.slot_types.specs.declared.limits.TheConstants.{MAX_SLOT};
ghost use Rattle.die_log.specs.Model.Start.{Start, fresh};
ghost use Rattle.die_log.specs.Model.Log.{Log, now};
ghost use Rattle.die_log.specs.Model.Opening.{IsOpening, IsQuiet, renewed_start};
ghost use Rattle.die_log.specs.Model.Lives.{start_after, HaveEnded};
ghost use Rattle.die_log.specs.Model.Answers.{refusal_of, run, IsExact};
ghost use Rattle.die_log.specs.Results.InTime.{AreEntered, IsInTime, AreAccepted, events_of_log};
ghost use Rattle.die_log.specs.Results.Laws.{ForEveryExactLog};
ghost use Rattle.die_log.specs.Results.Windows.{HasRoom};
ghost use Rattle.die_log.specs.Results.PlannedLives.{Calls, events_of_calls, lives_of, IsServedInTime, AreServedInTime};
ghost use Rattle.die_log.specs.Results.Covered.{AreStocked};
ghost use Rattle.die_log.specs.Results.DemandedLives.{LeavesOutNone, IsAtPeriodEnd, ForDemandedLives, WritesAreFew, AreFull};
ghost use Rattle.die_log.specs.Results.DemandedLives.{AreStockedAfter, at_later, all_arrivals, slots_of_all};

/// A log each window of which has the slots that are asked of it is in time, whatever plan its events keep.
pub fn roomy_logs_are_in_time()
    ensures { ForEveryExactLog (λ start log. HasRoom start.plan log → IsInTime start.plan log) }
{}

/// The same by the events: where each window has the slots that they ask of it, whichever jobs and collections were
/// refused, nothing is late.
pub fn fitting_work_is_in_time()
    ensures moments { (start : Start) → IsOpening start → (all : List Event) → FitsWindows start.plan all →
        (later moment : Log) → IsExact start (later ++ moment) → AreEntered all [] (later ++ moment)
        → IsInTime start.plan moment }
    ensures runs { (start : Start) → IsOpening start → (calls : List (ℕ × Event)) →
        FitsWindows start.plan (map (λ call. call.1) calls) → slots (map (λ call. call.1) calls) ≤ MAX_SLOT
        → IsInTime start.plan (run start [] calls) }
{}

/// Nothing is late that was planned with deadlines and bursts. Let the log start at an opening, let its plan pass the
/// test by demand, and let events keep to it. At each moment of an exact log that they leave, whichever jobs and
/// collections were refused, all that is due by then is done or was waived, and nothing is done late. So it is after a
/// run of these events.
pub fn demanded_work_is_in_time()
    ensures moments { (start : Start) (terms : Terms) → IsOpening start → PassesDemand start.plan terms →
        (all : List Event) → KeepsDemandPlan start.plan terms all →
        (later moment : Log) → IsExact start (later ++ moment) → AreEntered all [] (later ++ moment)
        → IsInTime start.plan moment }
    ensures runs { (start : Start) (terms : Terms) → IsOpening start → PassesDemand start.plan terms →
        (calls : List (ℕ × Event)) → KeepsDemandPlan start.plan terms (map (λ call. call.1) calls)
        → IsInTime start.plan (run start [] calls) }
{}

/// Of events that keep a plan with bursts none is refused, where the plan passes both tests: no job for lack of tokens,
/// and no collection because the task's collector is busy. So it is of each event after those before it, and of a run of
/// them all.
pub fn demanded_work_is_accepted()
    ensures next { (start : Start) (terms : Terms) → IsOpening start → PassesDemand start.plan terms
        → PassesSupply start.plan terms → AreStocked start terms →
        (past : Log) (event : Event) (rest : List Event) → IsExact start past →
        KeepsDemandPlan start.plan terms (events_of_log past ++ event ∷ rest)
        → refusal_of start past event ≡ None }
    ensures run { (start : Start) (terms : Terms) → IsOpening start → PassesDemand start.plan terms
        → PassesSupply start.plan terms → AreStocked start terms →
        (calls : List (ℕ × Event)) → KeepsDemandPlan start.plan terms (map (λ call. call.1) calls)
        → AreAccepted start [] calls }
{}

/// On a fresh die no task lacks pages.
pub fn fresh_dies_are_stocked()
    ensures stocked { (plan : DiePlan) (terms : Terms) → AreStocked (fresh plan) terms }
    ensures full { (plan : DiePlan) → AreFull (fresh plan) }
{}

/// A start at which no task lacks more than alpha pages to its cap, as where each balance is its cap, is stocked for any
/// plan, and after whatever came before it.
pub fn full_starts_are_stocked()
    ensures full { (start : Start) → start.accounts.balances ≡ start.plan.caps → AreFull start }
    ensures stocked { (start : Start) (terms : Terms) → AreFull start → AreStocked start terms }
    ensures after { (start : Start) (terms : Terms) (before : List TaskArrival) (first : ℕ) →
        AreFull start → AreStockedAfter start terms before first }
{}

/// Work with bursts goes on over renewals. Let the log start stocked after what came before it, and let the events keep a
/// plan that passes the test by demand; let all that was accepted be due by now, and let no collection have been left out
/// because its deadline would be beyond the last slot. Then the moment is quiet, and a log that starts there is stocked
/// after all that came. The slot need be a multiple of nothing.
pub fn demanded_work_goes_on()
    ensures { (start : Start) (terms : Terms) (before : List TaskArrival) (first : ℕ) →
        IsOpening start → PassesDemand start.plan terms → AreStockedAfter start terms before first →
        (log : Log) (rest : List Event) → IsExact start log
        → KeepsDemandPlan start.plan terms (events_of_log log ++ rest) →
        IsAtPeriodEnd start.plan terms log
        → IsQuiet start log × AreStockedAfter (renewed_start start log) terms
        (before ++ map (at_later first) (arrivals 0 (events_of_log log))) (first + now log) }
{}

/// No collection is left out in a life that has ended by the last slot from which each collection has its slots, nor in
/// one that ends at a multiple of each collect period.
pub fn short_lives_leave_out_none()
    ensures short { (plan : DiePlan) (terms : Terms) (end : ℕ) →
        ((task : ℕ) → task < length plan.caps
        → end + (terms_of terms task).collect_deadline ≤ MAX_SLOT + 1)
        → LeavesOutNone plan terms end }
    ensures multiple { (plan : DiePlan) (terms : Terms) (end : ℕ) → HasTerms plan terms → end ≤ MAX_SLOT →
        ((task : ℕ) → task < length plan.caps → end % (terms_of terms task).collect_period ≡ 0)
        → LeavesOutNone plan terms end }
{}

/// So it is life after life, where the calls of each keep the plan and end where a life may, and in no period of all
/// lives together more is written than the plan says. So a period may be longer than a life.
pub fn demanded_lives_go_on()
    ensures served { ForDemandedLives (λ first terms all. AreServedInTime first all) }
    ensures next { ForDemandedLives (λ first terms all.
        (calls : Calls) → KeepsDemandPlan first.plan terms (events_of_calls calls) →
        WritesAreFew first.plan terms (calls ∷ all) →
        IsServedInTime (start_after first (lives_of first all)) calls) }
    ensures ended { ForDemandedLives (λ first terms all. HaveEnded first (lives_of first all)) }
    ensures stocked { ForDemandedLives (λ first terms all.
        AreStockedAfter (start_after first (lives_of first all)) terms (all_arrivals all)
        (slots_of_all all)) }
{}

/// Nothing of the plans with times is lost: a start that is stocked for one that passes its test is stocked for its
/// terms. So by [`passing_plans_pass`](demand_rules::passing_plans_pass) these laws hold of its events.
pub fn stocked_starts_stay_stocked()
    ensures { (start : Start) (times : Times) → Passes start.plan times
        → earlier.AreStocked start times → AreStocked start (as_terms times) }
{}
