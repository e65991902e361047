//! What each task asked for.

ghost use Rattle.std.specs.Prelude.{◌≡◌, ◌+◌, ◌≤◌, ◌<◌, ◌∷◌, ◌++◌, ℕ, List, [], length, slice_index_or, slice_set, drop, map, replicate};
ghost use Rattle.std.specs.Prelude.{All, IfOk, IfNone};
ghost use Rattle.demand_rules.specs.Demand.{terms_of};
ghost use Rattle.planned_die.specs.declared.task_asks.TaskAsks.{TaskAsks};
ghost use Rattle.planned_die.specs.Remembered.{own_asks, next_room, jobs_of, AreKept, HasRoomFor, HaveMemory, HasRoomForOne};

use crate::memory::AskedJob;
use crate::task_asks::TaskAsks;
use crate::terms::terms_at;
use demand_rules::{TaskTerms, Terms};
use std::alloc::{AllocError, Global};

/// Of `tasks` tasks, none of which has asked for anything, with memory for all that may count of each.
pub(crate) fn new_asks(
    alloc: Global,
    own: &Terms,
    tasks: usize,
) -> Result<Vec<TaskAsks>, AllocError>
    ensures jobs { IfOk result (λ asked. map jobs_of asked.items ≡ replicate tasks []) }
    ensures kept { IfOk result (λ asked. (terms : Terms) (clock : ℕ) → AreKept terms clock asked.items) }
    ensures memory { IfOk result (λ asked. HaveMemory own.now asked.items) }
{
    let mut asked = Vec::with_capacity(alloc, tasks)?;
    for task in 0..tasks {
        let work = terms_at(own, task).work;
        let none = TaskAsks::new(alloc, work)?;
        asked.push(none)?;
    }
    Ok(asked)
}

/// The first slot in which the task, whose terms are these, has room for a job, counted from slot `first` of the clock, if
/// it has none in slot `clock`.
pub(crate) fn too_soon(
    asked: &mut Vec<TaskAsks>,
    task: usize,
    own: &TaskTerms,
    first: u64,
    clock: u64,
    ops: u32,
    writes: u32,
) -> Option<u64>
    requires task { task < length asked.old.items }
    requires kept { (terms : Terms) × (own.now ≡ terms_of terms task) × AreKept terms clock asked.old.items }
    requires early { All (All (λ j. j.at ≤ 4611686018427387904)) (map jobs_of asked.old.items) }
    requires ops { ops ≤ own.now.work }
    requires writes { writes ≤ own.now.writes }
    requires first { first ≤ clock }
    ensures next { result ≡ next_room own.now first clock (own_asks task (map jobs_of asked.old.items)) ops writes }
    ensures jobs { map jobs_of asked.new.items ≡ map jobs_of asked.old.items }
    ensures kept { (terms : Terms) → own.now ≡ terms_of terms task → AreKept terms clock asked.old.items
        → AreKept terms clock asked.new.items }
    ensures memory { (terms : Terms) → HaveMemory terms asked.old.items → HaveMemory terms asked.new.items }
    ensures room { IfNone result ((d : TaskAsks)
        → HasRoomFor (slice_index_or asked.new.items task d) ops writes) }
    ensures few { IfNone result ((d : TaskAsks)
        → (slice_index_or asked.new.items task d).operations + ops ≤ own.now.work) }
{
    asked[task].pass(own.period, clock);
    asked[task].next_room(own, first, clock, ops, writes)
}

/// Notes a job of the task that comes now, and drops those that count no more. It takes no memory.
pub(crate) fn note_job(asked: &mut Vec<TaskAsks>, task: usize, job: AskedJob)
    requires task { task < length asked.old.items }
    requires memory { (d : TaskAsks) → HasRoomForOne (slice_index_or asked.old.items task d) }
    requires room { (d : TaskAsks) → HasRoomFor (slice_index_or asked.old.items task d) job.operations job.writes }
    ensures jobs { (d : TaskAsks) → let t = slice_index_or asked.old.items task d in
        map jobs_of asked.new.items ≡ slice_set (map jobs_of asked.old.items) task (drop t.passed t.jobs.items ++ job ∷ []) }
    ensures kept { (terms : Terms) → AreKept terms job.at asked.old.items → AreKept terms job.at asked.new.items }
    ensures memory_stays { (terms : Terms) → 1 ≤ job.operations
        → ((d : TaskAsks) → (slice_index_or asked.old.items task d).operations + job.operations
        ≤ (terms_of terms task).work)
        → HaveMemory terms asked.old.items → HaveMemory terms asked.new.items }
{
    asked[task].note(job)
}
