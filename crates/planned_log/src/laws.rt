//! What holds of the log of a die that keeps its plan itself. Each law is a function that does nothing.

ghost use Rattle.std.specs.Prelude.{◌≡◌, ◌≤◌, ◌↔◌, IsTrue, ◌∷◌, ◌+◌, ◌<◌, ℕ, List, [], None, true, false, length, flat_map, All};
ghost use Rattle.slot_types.specs.declared.plans.DiePlan.{DiePlan};
ghost use Rattle.slot_types.specs.declared.events.Op.{Op};
ghost use Rattle.slot_types.specs.declared.events.Event.TheVariants as events;
ghost use Rattle.demand_rules.specs.declared.terms.Terms.{Terms};
ghost use Rattle.demand_rules.specs.Demand.{terms_of, PassesDemand};
ghost use Rattle.slot_types.specs.declared.limits.TheConstants.{MAX_SLOT, MAX_OPS};
ghost use Rattle.planned_log.specs.Lives.{most_arrivals, came_in};
ghost use Rattle.die_log.specs.Model.Log.{Log, now};
ghost use Rattle.die_log.specs.Model.Start.{Start};
ghost use Rattle.die_log.specs.Model.Opening.{IsQuiet, renewed_start};
ghost use Rattle.die_log.specs.Model.Answers.{refusal_of, after_call};
ghost use Rattle.die_log.specs.Model.Lives.{Lives, all_slots, start_after, HaveEnded};
ghost use Rattle.die_log.specs.Results.InTime.{IsInTime};
ghost use Rattle.planned_log.specs.Asks.{asked_by, counting, has_room, room_at, asked_job, ask_refusal, burst_refusal};
ghost use Rattle.planned_log.specs.Bursts.{jobs_of, AreUnrefused};
ghost use Rattle.planned_log.specs.KeptLogs.{comes_at, own_collection};
ghost use Rattle.planned_log.specs.Moves.{Move, after_moves, lives_after, ReachTheEnd};
ghost use Rattle.planned_log.specs.Laws.{IsKept, ForKeptLogs, StartsFull, AreDoneInTime, seen_by, answers_of};

/// Where a die starts full and nothing was asked for yet, the log keeps the plan.
pub fn kept_logs_begin()
    ensures { (start : Start) (terms : Terms) (life : ℕ) → StartsFull start terms life
        → IsKept start terms [] life 0 [] }
{}

/// An ask that its own task's part of the plan doesn't refuse is accepted, whatever the other tasks asked for: tokens
/// suffice, and there is a number for the job. The log keeps the plan with it.
pub fn asks_are_accepted()
    ensures accepted { ForKeptLogs (λ start terms earlier life entered log. (task : ℕ) (ops : List Op)
        → ask_refusal start.plan terms life earlier log task ops ≡ None
        → refusal_of start log (asked_job terms log task ops) ≡ None) }
    ensures kept { ForKeptLogs (λ start terms earlier life entered log.
        (caller task : ℕ) (ops : List Op)
        → ask_refusal start.plan terms life earlier log task ops ≡ None
        → IsKept start terms earlier life entered
        (after_call start log (caller, asked_job terms log task ops))) }
{}

/// The collections that the die enters itself are accepted, one after the other: the task's collector is free, and
/// there is a number for each. The log keeps the plan with them; a task that has none in the slot is passed over.
pub fn own_collections_are_accepted()
    ensures accepted { ForKeptLogs (λ start terms earlier life entered log.
        entered < length start.plan.caps → now log < life →
        comes_at (terms_of terms entered).collect_period (now log) ≡ true
        → refusal_of start log (own_collection terms log entered) ≡ None) }
    ensures kept { ForKeptLogs (λ start terms earlier life entered log.
        (caller : ℕ) → entered < length start.plan.caps → now log < life →
        comes_at (terms_of terms entered).collect_period (now log) ≡ true
        → IsKept start terms earlier life (entered + 1)
        (after_call start log (caller, own_collection terms log entered))) }
    ensures passed { ForKeptLogs (λ start terms earlier life entered log.
        entered < length start.plan.caps →
        comes_at (terms_of terms entered).collect_period (now log) ≡ false
        → IsKept start terms earlier life (entered + 1) log) }
{}

/// Once all collections of a slot have come, the slot is carried out, up to the end of the life. The log keeps the
/// plan with it.
pub fn slots_are_accepted()
    ensures accepted { ForKeptLogs (λ start terms earlier life entered log.
        entered ≡ length start.plan.caps → now log < life
        → refusal_of start log events.Slot ≡ None) }
    ensures kept { ForKeptLogs (λ start terms earlier life entered log.
        (caller : ℕ) → entered ≡ length start.plan.caps → now log < life
        → IsKept start terms earlier life 0 (after_call start log (caller, events.Slot))) }
{}

/// What is due by now is done or was waived, and nothing is done late. Each job that is due by now is done, and was by
/// its deadline.
pub fn kept_logs_are_in_time()
    ensures all { ForKeptLogs (λ start terms earlier life entered log. IsInTime start.plan log) }
    ensures jobs { ForKeptLogs (λ start terms earlier life entered log.
        AreDoneInTime start.plan log) }
{}

/// Where the life ends all is done or was waived, and a log that starts there keeps the plan, too, after one life
/// more. What tasks asked for in the lives before counts on in it.
pub fn kept_lives_end_quiet()
    ensures quiet { ForKeptLogs (λ start terms earlier life entered log.
        now log ≡ life → IsQuiet start log) }
    ensures next { ForKeptLogs (λ start terms earlier life entered log. now log ≡ life
        → IsKept (renewed_start start log) terms (log ∷ earlier) life 0 []) }
{}

/// There is a number for each job and collection of a life of at most 65,536 slots: by the test of demand no more come
/// than it has slots, since each takes one at least. An erase takes one in every plan that meets its bound.
pub fn lives_have_no_more_arrivals_than_slots()
    ensures { (plan : DiePlan) (terms : Terms) (life : ℕ) → 1 ≤ plan.shape.erase_slots →
        PassesDemand plan terms → life ≤ MAX_SLOT → most_arrivals terms life ≤ life }
{}

/// In no log that keeps the plan does more come in a life than the plan may ask for in it: the life's collections and
/// the operations of its jobs are together at most `most_arrivals`. So are its collections and jobs, since each job has
/// an operation.
pub fn no_more_comes_than_a_life_has()
    ensures { ForKeptLogs (λ start terms earlier life entered log.
        came_in log ≤ most_arrivals terms life) }
{}

/// What a task is answered depends on the slots and on its own asks, and on nothing that other tasks do. Of two logs
/// it is refused alike, an ask or a burst, where the slot is the same, and what it asked for before. And of two runs that agree on their
/// slots and on the task's asks, from such logs, each of its asks is refused for the same cause, with the same slot to
/// come again, or accepted with the same release and the same deadline.
pub fn tasks_are_answered_for_their_own_asks()
    ensures refused { (plan : DiePlan) (terms : Terms) (life : ℕ) (earlier before : Lives)
        (one two : Log) (task : ℕ) (ops : List Op) → all_slots earlier ≡ all_slots before →
        now one ≡ now two → asked_by task (one ∷ earlier) ≡ asked_by task (two ∷ before)
        → ask_refusal plan terms life earlier one task ops
        ≡ ask_refusal plan terms life before two task ops }
    ensures bursts { (plan : DiePlan) (terms : Terms) (life : ℕ) (earlier before : Lives)
        (one two : Log) (task : ℕ) (ops : List Op) → all_slots earlier ≡ all_slots before →
        now one ≡ now two → asked_by task (one ∷ earlier) ≡ asked_by task (two ∷ before)
        → burst_refusal plan terms life earlier one task ops
        ≡ burst_refusal plan terms life before two task ops }
    ensures runs { (start other : Start) (terms : Terms) (earlier before : Lives) (life task : ℕ)
        (one two : Log) → IsKept start terms earlier life 0 one →
        IsKept other terms before life 0 two → start.plan ≡ other.plan →
        all_slots earlier ≡ all_slots before → now one ≡ now two →
        asked_by task (one ∷ earlier) ≡ asked_by task (two ∷ before) →
        (moves others : List Move) → seen_by task moves ≡ seen_by task others
        → answers_of start terms earlier life task one moves
        ≡ answers_of other terms before life task two others }
{}

/// `TooSoon` has the first slot that serves. Of an ask or a burst that the task may make at all, with no more operations
/// and writes than it may have, there is room in a slot of this life or a later one exactly from that slot on, if the
/// task asks for nothing else before.
pub fn too_soon_says_from_when()
    ensures { ForKeptLogs (λ start terms earlier life entered log.
        (task slot ops written : ℕ) → now log ≤ slot → let t = terms_of terms task in
        ops ≤ t.work → written ≤ t.writes →
        let asked = asked_by task (log ∷ earlier) in
        IsTrue (has_room t (all_slots earlier + slot) asked ops written)
        ↔ (room_at t (counting t.period (all_slots earlier + now log) asked) ops written
        ≤ all_slots earlier + slot)) }
{}

/// Whatever the callers do, in whatever order and amount, the log keeps the plan: so no ask that its own task's part
/// of the plan allows is refused, and each accepted job is done by its deadline.
pub fn whatever_is_asked_the_plan_is_kept()
    ensures kept { (start : Start) (terms : Terms) (earlier : Lives) (life : ℕ) (log : Log) →
        IsKept start terms earlier life 0 log → (moves : List Move)
        → IsKept start terms earlier life 0 (after_moves start terms earlier life log moves) }
    ensures in_time { (start : Start) (terms : Terms) (earlier : Lives) (life : ℕ) (log : Log) →
        IsKept start terms earlier life 0 log → (moves : List Move)
        → AreDoneInTime start.plan (after_moves start terms earlier life log moves) }
{}

/// It goes on, life after life: where a die starts full and the moves of each life reach its end, each life has ended
/// quiet, and whatever the callers do in the next one, its log keeps the plan, too.
pub fn kept_lives_go_on()
    ensures ended { (first : Start) (terms : Terms) (life : ℕ) → StartsFull first terms life →
        (all : List (List Move)) → ReachTheEnd first terms life all
        → HaveEnded first (lives_after first terms life all) }
    ensures next { (first : Start) (terms : Terms) (life : ℕ) → StartsFull first terms life →
        (all : List (List Move)) → ReachTheEnd first terms life all → (moves : List Move) →
        let lives = lives_after first terms life all in
        let start = start_after first lives in
        IsKept start terms lives life 0 (after_moves start terms lives life [] moves)
        × AreDoneInTime start.plan (after_moves start terms lives life [] moves) }
{}

/// The jobs of a burst are the burst, in order: each has some operations, and no more than a job may have. One of no more
/// operations than a job may have is one job, and is refused as an ask for it is.
pub fn bursts_are_cut_into_jobs()
    ensures whole { (ops : List Op) → flat_map (λ job. job) (jobs_of ops) ≡ ops }
    ensures sizes { (ops : List Op)
        → All (λ job. (1 ≤ length job) × (length job ≤ MAX_OPS)) (jobs_of ops) }
    ensures one { (ops : List Op) → 1 ≤ length ops → length ops ≤ MAX_OPS → jobs_of ops ≡ ops ∷ [] }
    ensures short { (plan : DiePlan) (terms : Terms) (life : ℕ) (earlier : Lives) (log : Log)
        (task : ℕ) (ops : List Op) → length ops ≤ MAX_OPS
        → burst_refusal plan terms life earlier log task ops
        ≡ ask_refusal plan terms life earlier log task ops }
{}

/// A burst that its task's part of the plan doesn't refuse is nothing but asks: each of its jobs in turn is an ask that
/// isn't refused. So all that holds of asks holds of bursts: the log keeps the plan with each of their jobs, and each is
/// done by its deadline.
pub fn bursts_are_asks()
    ensures { ForKeptLogs (λ start terms earlier life entered log. (caller task : ℕ) (ops : List Op)
        → burst_refusal start.plan terms life earlier log task ops ≡ None
        → AreUnrefused start terms earlier life log caller task (jobs_of ops)) }
{}
