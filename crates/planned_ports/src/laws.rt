//! What holds of the log of a die that its ports share. Each law is a function that does nothing. What a port has seen is
//! such a log, as its calls say, and so is that of the die that is given back.

ghost use Rattle.std.specs.Prelude.{◌≡◌, ◌<◌, ℕ, List, length};
ghost use Rattle.slot_types.specs.declared.events.Op.{Op};
ghost use Rattle.die_log.specs.Model.Start.{Start};
ghost use Rattle.planned_log.specs.declared.ask_kinds.AskKind.{AskKind};
ghost use Rattle.ongoing_log.specs.Ongoing.{Ongoing, IsOngoing, answer_to};
ghost use Rattle.ongoing_log.specs.Ahead.{answer_at};
ghost use Rattle.task_outcomes.specs.OutcomeDies.{OutcomeParts};
ghost use Rattle.task_outcomes.specs.OutcomeMoves.{AreAccountedFor};
ghost use Rattle.planned_ports.specs.Calls.{PortCall, after_calls};
ghost use Rattle.planned_ports.specs.Replies.{opened_as};
ghost use Rattle.planned_ports.specs.Laws.{IsInTime, answers_in, outcomes_in, RanFrom, SeesTheSame};

use crate::ports::{ClockPort, SharedPlannedDie, TaskPort};
use flash_die::Nand;
use ongoing_log::{a_die_goes_on_by_itself, ongoing_tasks_are_answered_for_their_own_asks};
use planned_log::kept_logs_are_in_time;
use task_outcomes::outcomes_are_told_once;

/// Whatever the ports ask, in whatever order and amount, the die goes on: each life keeps the plan and ends quiet, and each
/// accepted job that is due is done, and was by its deadline.
pub fn shared_dies_are_in_time<N: Nand>()
    ensures goes_on { (opened : OutcomeParts N) (first : Start) (d : Ongoing) (calls : List PortCall)
        → RanFrom opened first d calls →
        let terms = opened.die.die.terms in let life = opened.die.die.life in
        IsOngoing first terms life (after_calls first terms life (opened_as opened d) calls).ongoing }
    ensures in_time { (opened : OutcomeParts N) (first : Start) (d : Ongoing) (calls : List PortCall)
        → RanFrom opened first d calls →
        let terms = opened.die.die.terms in let life = opened.die.die.life in
        IsInTime first life (after_calls first terms life (opened_as opened d) calls).ongoing }
{
    a_die_goes_on_by_itself();
    kept_logs_are_in_time();
}

/// What a task is answered depends on the slots and on its own asks, and on nothing that other ports do: of two logs in
/// which it sees the same, each of its asks that were granted has the same release and the same deadline; and so has the
/// next one, or it is refused for the same cause, with the same slot to come again. So it is with asks for slots ahead, among
/// those before and as the next one (`next_at`).
pub fn tasks_are_answered_for_their_own_asks<N: Nand>()
    ensures granted { (task : ℕ) (opened again : OutcomeParts N) (first other : Start) (one two : Ongoing)
        (calls others : List PortCall) → SeesTheSame task opened again first other one two calls others
        → answers_in task calls ≡ answers_in task others }
    ensures next { (task : ℕ) (opened again : OutcomeParts N) (first other : Start) (one two : Ongoing)
        (calls others : List PortCall) → SeesTheSame task opened again first other one two calls others →
        (kind : AskKind) (ops : List Op) → let terms = opened.die.die.terms in let life = opened.die.die.life in
        answer_to first terms life (after_calls first terms life (opened_as opened one) calls).ongoing kind task ops
        ≡ answer_to other terms life (after_calls other terms life (opened_as again two) others).ongoing kind task ops }
    ensures next_at { (task : ℕ) (opened again : OutcomeParts N) (first other : Start) (one two : Ongoing)
        (calls others : List PortCall) → SeesTheSame task opened again first other one two calls others →
        (kind : AskKind) (ops : List Op) (at : ℕ) →
        let terms = opened.die.die.terms in let life = opened.die.die.life in
        let d = (after_calls first terms life (opened_as opened one) calls).ongoing in
        let e = (after_calls other terms life (opened_as again two) others).ongoing in
        answer_at first terms life d kind task ops at ≡ answer_at other terms life e kind task ops at }
{
    ongoing_tasks_are_answered_for_their_own_asks();
}

/// Each outcome of a task that is done while the die is shared is taken by its port, dropped and counted, or still to take: each
/// once, in the order in which the jobs were done, over all lives, whatever the other ports ask and take.
pub fn tasks_take_their_own_outcomes<N: Nand>()
    ensures { (task : ℕ) (opened : OutcomeParts N) (first : Start) (d : Ongoing) (calls : List PortCall)
        → RanFrom opened first d calls → task < length opened.queues →
        let terms = opened.die.die.terms in let life = opened.die.die.life in
        AreAccountedFor first task (opened_as opened d) (outcomes_in task calls)
        (after_calls first terms life (opened_as opened d) calls) }
{
    outcomes_are_told_once();
}

/// A value of this type may be sent to a thread.
fn is_sent<T: Send>() {}

/// And a value of this one lent to any number of threads.
fn is_lent<T: Sync>() {}

/// Where its device may be sent to a thread, so may the ports of a die, and the die that they share may be lent to any
/// number of threads. A law by its bounds: it has no clause.
pub fn ports_go_to_threads<N: Nand + Send>() {
    is_sent::<TaskPort<N>>();
    is_sent::<ClockPort<N>>();
    is_lent::<SharedPlannedDie<N>>();
}
