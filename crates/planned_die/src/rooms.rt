//! Whether a task may ask, and why not.

ghost use Rattle.std.specs.Prelude.{◌≡◌, ◌+◌, ◌≤◌, ◌<◌, All, IfNone, length, map, slice_index_or};
ghost use Rattle.slot_types.specs.Operations.{writes};
ghost use Rattle.demand_rules.specs.Demand.{terms_of};
ghost use Rattle.planned_log.specs.Asks.{refusals_above, first_refusal};
ghost use Rattle.planned_log.specs.AskKinds.{most_of};
ghost use Rattle.planned_die.specs.declared.task_asks.TaskAsks.{TaskAsks};
ghost use Rattle.planned_die.specs.Remembered.{own_asks, jobs_of, AreKept, HasRoomFor, HaveMemory};

use crate::all_asks::too_soon;
use crate::task_asks::TaskAsks;
use crate::terms::terms_at;
use demand_rules::{TaskTerms, Terms};
use job_table::CountedOps;
use planned_log::{AskKind, AskRefusal};
use slot_types::{DiePlan, LentOps, MAX_OPS, Op, TaskNo};

/// The most operations that a task may ask for at once.
fn most_ops(kind: AskKind, own: &TaskTerms) -> u32
    ensures most { result ≡ most_of kind own.now }
    ensures within { result ≤ own.now.work }
{
    match kind {
        AskKind::Job if own.work > MAX_OPS => MAX_OPS,
        _ => own.work,
    }
}

/// Why an ask or a burst of a task is refused in slot `now` of a life that began in slot `first` of the clock of all lives, if it
/// is, after these jobs. Never `DieStopped`. Those of the task that count no more are passed by.
pub(crate) fn why_refused(
    plan: &DiePlan,
    terms: &Terms,
    life: u32,
    first: u64,
    now: u32,
    asked: &mut Vec<TaskAsks>,
    kind: AskKind,
    task: TaskNo,
    ops: &[Op],
) -> Option<AskRefusal>
    requires one_each { length asked.old.items ≡ length plan.now.caps }
    requires kept { AreKept terms.now (first + now) asked.old.items }
    requires early { All (All (λ j. j.at ≤ 4611686018427387904)) (map jobs_of asked.old.items) }
    requires first { first ≤ 2305843009213693952 }
    ensures refused { result ≡ first_refusal (refusals_above
        (most_of kind (terms_of terms.now task)) plan.now terms.now life first now
        (own_asks task (map jobs_of asked.old.items)) task ops.now) }
    ensures jobs { map jobs_of asked.new.items ≡ map jobs_of asked.old.items }
    ensures kept { AreKept terms.now (first + now) asked.new.items }
    ensures room { IfNone result ((d : TaskAsks)
        → HasRoomFor (slice_index_or asked.new.items task d) (length ops.now) (writes ops.now)) }
    ensures memory { HaveMemory terms.now asked.old.items → HaveMemory terms.now asked.new.items }
    ensures few { IfNone result ((d : TaskAsks) → (slice_index_or asked.new.items task d).operations
        + length ops.now ≤ (terms_of terms.now task).work) }
    ensures some { IfNone result (1 ≤ length ops.now) }
    ensures known { IfNone result (task < length plan.now.caps) }
{
    if task.0 as usize >= plan.caps.len() {
        return Some(AskRefusal::UnknownTask);
    }
    let own = terms_at(terms, task.0 as usize);
    if ops.len() == 0 {
        return Some(AskRefusal::EmptyJob);
    }
    let most = most_ops(kind, &own);
    if ops.len() > most as usize {
        return Some(AskRefusal::TooManyOps { most });
    }
    let counted = match CountedOps::count(&LentOps::list(ops), plan.logical) {
        Ok(counted) => counted,
        Err(page) => return Some(AskRefusal::BadPage { page }),
    };
    if counted.writes() > own.writes as usize {
        return Some(AskRefusal::TooManyWrites { most: own.writes });
    }
    let clock = first + u64::from(now);
    let writes = counted.writes() as u32;
    match too_soon(
        asked,
        task.0 as usize,
        &own,
        first,
        clock,
        ops.len() as u32,
        writes,
    ) {
        Some(next) => return Some(AskRefusal::TooSoon { next }),
        None => {}
    }
    if u64::from(now) + u64::from(own.deadline) > u64::from(life) {
        return Some(AskRefusal::LifeEnd);
    }
    None
}
