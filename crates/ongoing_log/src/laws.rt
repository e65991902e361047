//! What holds of a die that goes on by itself. Each law is a function that does nothing.

ghost use Rattle.std.specs.Prelude.{◌≡◌, ◌⊎◌, ◌+◌, ◌∷◌, ◌<◌, ◌≤◌, ℕ, List, [], Some, length, map};
ghost use Rattle.slot_types.specs.declared.events.Op.{Op};
ghost use Rattle.demand_rules.specs.declared.terms.Terms.{Terms};
ghost use Rattle.demand_rules.specs.Demand.{terms_of};
ghost use Rattle.die_log.specs.Model.Log.{now};
ghost use Rattle.die_log.specs.Model.Start.{Start};
ghost use Rattle.die_log.specs.Model.Lives.{Lives, all_slots, start_after, HaveEnded};
ghost use Rattle.die_log.specs.Model.Opening.{IsOpening, IsQuiet};
ghost use Rattle.die_log.specs.Results.DemandedLives.{AreFull};
ghost use Rattle.planned_log.specs.declared.ask_kinds.AskKind.{AskKind};
ghost use Rattle.planned_log.specs.Asks.{asked_by};
ghost use Rattle.planned_log.specs.Bursts.{jobs_of};
ghost use Rattle.planned_log.specs.AskKinds.{with_asked};
ghost use Rattle.planned_log.specs.Laws.{IsKept, StartsFull, Accepted, seen_by, answers_of};
ghost use Rattle.planned_log.specs.Moves.{Move, Slot};
ghost use Rattle.ongoing_log.specs.PastLives.{PastLife, starts_after, counted, HavePassed, start_since_loss, lives_since_loss};
ghost use Rattle.ongoing_log.specs.Ongoing.{begun_after, shut_down, lost_power};
ghost use Rattle.ongoing_log.specs.Ongoing.{Ongoing, WaitingAsk, new_ongoing, waiting_of, start_of};
ghost use Rattle.ongoing_log.specs.Ongoing.{clock_of, asks_of, answer_to, answers_to, awaited_of, Waits, due_at, carried, living_on, ongoing_after_move, ongoing_after, AreLongEnough, IsOngoing};
ghost use Rattle.ongoing_log.specs.Ahead.{answer_at, AheadMove, AskAt, ahead_after_move, ahead_after, ahead_answers_to, ahead_seen_by, IsWaitAhead};

/// Where a die starts full, and its lives are long enough for a job of each task, then whatever the callers do, in
/// whatever order and amount, it goes on: each life keeps the plan, and where it ends all is quiet, and each of its jobs
/// was done by its deadline. No one has to renew it. So it goes on, too, where it goes on from a checkpoint or a mount, and
/// where some asks are for slots ahead.
pub fn a_die_goes_on_by_itself()
    ensures begins { (first : Start) (terms : Terms) (life : ℕ) → AreLongEnough terms life →
        StartsFull first terms life → IsOngoing first terms life (new_ongoing first.plan) }
    ensures goes_on { (first : Start) (terms : Terms) (life : ℕ) → AreLongEnough terms life →
        (d : Ongoing) → IsOngoing first terms life d → (moves : List Move)
        → IsOngoing first terms life (ongoing_after first terms life d moves) }
    ensures goes_on_ahead { (first : Start) (terms : Terms) (life : ℕ) → AreLongEnough terms life →
        (d : Ongoing) → IsOngoing first terms life d → (moves : List AheadMove)
        → IsOngoing first terms life (ahead_after first terms life d moves) }
{}

/// A die may be shut down as soon as all that it accepted is done or was waived, and may lose its power at any moment of a life
/// that keeps the plan. Then this is one more of the lives that passed: in each of them, whichever way it ended, each job that
/// was due before was done by its deadline. If the plan is kept where the next life begins, the die goes on by itself there.
pub fn a_die_goes_on_after_each_end()
    ensures shut_down { (first : Start) (terms : Terms) (life : ℕ) (d : Ongoing) → IsOngoing first terms life d →
        IsQuiet (start_of first d) d.log → (counts : Lives) → all_slots counts ≡ 0 →
        (next : ℕ) → HavePassed first next (shut_down life counts d) }
    ensures lost_power { (first : Start) (terms : Terms) (life entered : ℕ) (d : Ongoing) →
        HavePassed first life d.earlier →
        IsKept (start_of first d) terms (counted d.earlier) life entered d.log →
        (start : Start) → IsOpening start → start.plan ≡ (start_of first d).plan → AreFull start →
        (next : ℕ) → HavePassed first next (lost_power life start d) }
    ensures begins { (first : Start) (terms : Terms) (life : ℕ) → AreLongEnough terms life →
        (past : List PastLife) → HavePassed first life past →
        IsKept (starts_after first past) terms (counted past) life 0 []
        → IsOngoing first terms life (begun_after past (length (starts_after first past).plan.caps)) }
    ensures plan { (first : Start) (life : ℕ) (past : List PastLife) → HavePassed first life past
        → (starts_after first past).plan ≡ first.plan }
{}

/// The lives since the last loss of power, whether they ended by a renewal or by a checkpoint, are lives of a die as `die_log`
/// has them: each is exact from where the one before it left the die, and ended quiet. So all that it says of a die's lives
/// holds of them: what their pages hold, say, and how often blocks were erased.
pub fn lives_since_a_loss_are_lives()
    ensures ended { (first : Start) (life : ℕ) (past : List PastLife) → HavePassed first life past
        → HaveEnded (start_since_loss first past) (lives_since_loss past) }
    ensures next { (first : Start) (life : ℕ) (past : List PastLife) → HavePassed first life past
        → start_after (start_since_loss first past) (lives_since_loss past) ≡ starts_after first past }
{}

/// What waits, for a job or for a burst, waits until the slot of the clock that it was answered (`kept`, `stays`). There it is
/// accepted, whatever the others ask, as the first thing of that slot, with the release and the deadline that it was answered
/// (`taken`), and the task has asked for just its jobs (`enters`). An ask waits where its jobs would be due after the present
/// life, and then for fewer slots than its deadline has: so they are done in less than twice as many slots as its deadline
/// has, counted from the ask (`soon`), or from the slot that was asked for; or it waits for that slot, which lies ahead by less
/// than the task's period (`ahead`).
pub fn waiting_asks_are_taken()
    ensures kept { (first : Start) (terms : Terms) (life : ℕ) → AreLongEnough terms life → (d : Ongoing) →
        IsOngoing first terms life d → (kind : AskKind) (caller task release due at : ℕ) (ops : List Op)
        → answer_at first terms life d kind task ops at ≡ Waits release due
        → waiting_of (ahead_after_move first terms life d (AskAt kind caller task ops at)) task
        ≡ Some (record { caller = caller; ops = ops; until = release }) }
    ensures stays { (first : Start) (terms : Terms) (life : ℕ) → AreLongEnough terms life → (d : Ongoing) →
        IsOngoing first terms life d → (move : AheadMove) (task : ℕ) (w : WaitingAsk) → waiting_of d task ≡ Some w →
        let next = ahead_after_move first terms life d move in
        (waiting_of next task ≡ Some w) ⊎ (clock_of next ≡ w.until) }
    ensures taken { (first : Start) (terms : Terms) (life : ℕ) → AreLongEnough terms life →
        (d : Ongoing) → IsOngoing first terms life d → (caller : ℕ) →
        let next = living_on life (carried first terms life d caller) in
        (task : ℕ) (w : WaitingAsk) → waiting_of d task ≡ Some w → clock_of next ≡ w.until
        → answers_of (start_of first next) terms (counted next.earlier) life task next.log
        (asks_of 0 (map (due_at (clock_of next)) next.waiting))
        ≡ Accepted (now next.log) (now next.log + (terms_of terms task).deadline) ∷ [] }
    ensures enters { (first : Start) (terms : Terms) (life : ℕ) → AreLongEnough terms life →
        (d : Ongoing) → IsOngoing first terms life d → (caller task : ℕ) (w : WaitingAsk) → waiting_of d task ≡ Some w →
        let next = ongoing_after_move first terms life d (Slot caller) in
        clock_of next ≡ w.until → asked_by task (next.log ∷ counted next.earlier)
        ≡ with_asked w.until (jobs_of w.ops) (asked_by task (d.log ∷ counted d.earlier)) }
    ensures soon { (first : Start) (terms : Terms) (life : ℕ) (d : Ongoing) → IsOngoing first terms life d →
        (kind : AskKind) (task release due : ℕ) (ops : List Op)
        → answer_to first terms life d kind task ops ≡ Waits release due
        → life < now d.log + (terms_of terms task).deadline }
    ensures ahead { (first : Start) (terms : Terms) (life : ℕ) (d : Ongoing) → IsOngoing first terms life d →
        (kind : AskKind) (task release due at : ℕ) (ops : List Op)
        → answer_at first terms life d kind task ops at ≡ Waits release due
        → IsWaitAhead terms life d task at release due }
{}

/// What a task is answered depends on the slots and on its own asks, and on nothing that other tasks do, over all lives:
/// of two dies that go on by themselves, in the same slot of the clock and of a life, with the same asked for by the task
/// before and the same of it waiting, and of two runs that agree on their slots and on the task's asks, each of its asks is
/// refused for the same cause, with the same slot to come again, or gets the same release and the same deadline. So it is
/// where some of the asks, of whichever task, are for slots ahead (`ahead`).
pub fn ongoing_tasks_are_answered_for_their_own_asks()
    ensures asks { (first other : Start) (terms : Terms) (life task : ℕ) → AreLongEnough terms life →
        first.plan ≡ other.plan → (one two : Ongoing) → IsOngoing first terms life one →
        IsOngoing other terms life two → all_slots (counted one.earlier) ≡ all_slots (counted two.earlier) →
        now one.log ≡ now two.log →
        asked_by task (one.log ∷ counted one.earlier) ≡ asked_by task (two.log ∷ counted two.earlier) →
        awaited_of (waiting_of one task) ≡ awaited_of (waiting_of two task) →
        (moves others : List Move) → seen_by task moves ≡ seen_by task others
        → answers_to first terms life task one moves ≡ answers_to other terms life task two others }
    ensures ahead { (first other : Start) (terms : Terms) (life task : ℕ) → AreLongEnough terms life →
        first.plan ≡ other.plan → (one two : Ongoing) → IsOngoing first terms life one →
        IsOngoing other terms life two → all_slots (counted one.earlier) ≡ all_slots (counted two.earlier) →
        now one.log ≡ now two.log →
        asked_by task (one.log ∷ counted one.earlier) ≡ asked_by task (two.log ∷ counted two.earlier) →
        awaited_of (waiting_of one task) ≡ awaited_of (waiting_of two task) →
        (moves others : List AheadMove) → ahead_seen_by task moves ≡ ahead_seen_by task others
        → ahead_answers_to first terms life task one moves ≡ ahead_answers_to other terms life task two others }
{}
