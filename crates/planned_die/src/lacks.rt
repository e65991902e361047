//! What tasks lack where a die goes on from a checkpoint, and what counts as asked for then.

ghost use Rattle.std.specs.Prelude.{◌≡◌, ◌+◌, ◌-◌, ◌≤◌, ℕ, length, map, slice_index, IfSome, IfNone, IfOk};
ghost use Rattle.demand_rules.specs.Demand.{terms_of, HasTerms};
ghost use Rattle.planned_die.specs.Remembered.{jobs_of, IsKeptFor, AreKept, HasMemory, HaveMemory};
ghost use Rattle.planned_die.specs.Resuming.{needs, IsFirstShort, HaveEnough, lack_jobs, lacks_of};

use crate::memory::AskedJob;
use crate::task_asks::TaskAsks;
use crate::terms::terms_at;
use demand_rules::{TaskTerms, Terms};
use slot_types::DiePlan;
use std::alloc::{AllocError, Global};

/// A task whose balance is too low for a die to go on, with the pages that it has and those that it needs.
#[derive(Clone, Copy, PartialEq, Eq, Debug, Drop)]
pub struct Shortage {
    pub task: u32,
    pub have: u32,
    pub need: u32,
}

/// What a task of this cap lacks to it beyond alpha pages.
fn lack_of(cap: u32, alpha: u32, balance: u32) -> u32
    ensures { result ≡ cap - (balance + alpha) }
{
    cap.saturating_sub(balance).saturating_sub(alpha)
}

/// The fewest pages with which a task of this cap goes on.
fn need_of(cap: u32, alpha: u32, writes: u32) -> u32
    ensures { result ≡ cap - (alpha + writes) }
{
    cap.saturating_sub(alpha).saturating_sub(writes)
}

/// The first task with which a die of this plan and these terms doesn't go on, since its balance is too low: it lacks more
/// to its cap than alpha pages and what it may write in a period. There is a balance for each task.
pub fn first_shortage(plan: &DiePlan, terms: &Terms, balances: &[u32]) -> Option<Shortage>
    requires tasks { length balances.now ≡ length plan.now.caps }
    requires few { length balances.now ≤ 16 }
    ensures some { IfSome result (IsFirstShort plan.now terms.now balances.now) }
    ensures none { IfNone result (HaveEnough plan.now terms.now balances.now) }
{
    let caps = plan.caps.as_slice();
    for task in 0..balances.len() {
        let have = balances[task];
        let need = need_of(caps[task], plan.alpha, terms_at(terms, task).writes);
        if have < need {
            return Some(Shortage {
                task: task as u32,
                have,
                need,
            });
        }
    }
    None
}

/// That a task of these terms asked in slot 0 of the clock for a job of `lack` writes, with memory for all that may
/// count of it.
fn asks_of_lack(alloc: Global, own: &TaskTerms, lack: u32) -> Result<TaskAsks, AllocError>
    requires few { lack ≤ own.now.work }
    ensures jobs { IfOk result (λ t. t.jobs.items ≡ lack_jobs lack) }
    ensures kept { IfOk result (λ t. (period clock : ℕ) → IsKeptFor period clock t) }
    ensures memory { IfOk result (HasMemory own.now.work) }
{
    let mut asks = TaskAsks::new(alloc, own.work)?;
    if lack > 0 {
        asks.note(AskedJob {
            at: 0,
            operations: lack,
            writes: lack,
        });
    }
    Ok(asks)
}

/// By task that it asked in slot 0 of the clock to write what it lacks, with memory for all that may count of each.
pub(crate) fn asks_of_lacks(
    alloc: Global,
    plan: &DiePlan,
    terms: &Terms,
    balances: &[u32],
) -> Result<Vec<TaskAsks>, AllocError>
    requires has { HasTerms plan.now terms.now }
    requires tasks { length balances.now ≡ length plan.now.caps }
    requires enough { HaveEnough plan.now terms.now balances.now }
    ensures jobs { IfOk result (λ asked.
        map jobs_of asked.items ≡ lacks_of plan.now balances.now (length plan.now.caps)) }
    ensures kept { IfOk result (λ asked. (clock : ℕ) → AreKept terms.now clock asked.items) }
    ensures memory { IfOk result (λ asked. HaveMemory terms.now asked.items) }
{
    let caps = plan.caps.as_slice();
    let mut asked = Vec::with_capacity(alloc, balances.len())?;
    for task in 0..caps.len() {
        let own = terms_at(terms, task);
        let lack = lack_of(caps[task], plan.alpha, balances[task]);
        let asks = asks_of_lack(alloc, &own, lack)?;
        asked.push(asks)?;
    }
    Ok(asked)
}
