//! The test that what a task may write comes back to it.

ghost use Rattle.std.specs.Prelude.{◌≡◌, ℕ, ◌*◌, ◌+◌, ◌^◌, ◌<◌, ◌≤◌, ◌↔◌, length, All, IsOk, IfErr, IsNone, IfSome};
ghost use Rattle.std.specs.List.{AllZip};
ghost use Rattle.plan_rules.specs.Bound.{MeetsBound};
ghost use Rattle.demand_rules.specs.Demand.{IsTaskTerms, HasTerms};
ghost use Rattle.demand_rules.specs.Supply.{IsSustained, PassesSupply};
ghost use Rattle.demand_rules.specs.Faults.{IsLack, IsFirstShort, IsSupplyFault};

use crate::terms::{TaskTerms, Terms};
use slot_types::{DiePlan, MAX_SLOT};

/// What a task lacks, and what would do.
#[derive(Clone, Copy, PartialEq, Eq, Debug, Drop)]
pub enum Lack {
    /// Its collections give it less than its jobs write. With a collect period of `most` or less they would give it
    /// enough; with none, where that is 0.
    CollectPeriod { most: u32 },
    /// Its cap doesn't cover what it may write in a period and in as many slots as a job may be held, and two collections.
    /// A cap of `least` or more would.
    Cap { least: u64 },
}

/// Why a plan doesn't pass the test: the first task, counted from 0, that runs short.
#[derive(Clone, Copy, PartialEq, Eq, Debug, Drop)]
pub struct SupplyFault {
    pub task: usize,
    pub lack: Lack,
}

/// Whether each task's collections give it at least what its jobs write, and its cap covers what these write in a period
/// and in as many slots as a job may be held, and two collections; and else the first task that runs short. It takes no
/// memory.
///
/// What collections give must cover what is written, in the long run; that the cap covers this is only sufficient.
///
/// The plan meets its bound, as [`bound`](plan_rules::bound) says, and has these terms ([`limits_test`](crate::limits_test)).
pub fn supply_test(plan: &DiePlan, terms: &Terms) -> Result<(), SupplyFault>
    requires bound { MeetsBound plan.now }
    requires has { HasTerms plan.now terms.now }
    ensures passes { IsOk result ↔ PassesSupply plan.now terms.now }
    ensures fault { IfErr result (IsSupplyFault plan.now terms.now) }
{
    match first_short(plan, plan.caps.as_slice(), terms.tasks.as_slice()) {
        Some(fault) => Err(fault),
        None => Ok(()),
    }
}

fn first_short(plan: &DiePlan, caps: &[u32], tasks: &[TaskTerms]) -> Option<SupplyFault>
    requires bound { MeetsBound plan.now }
    requires one_each { length tasks.now ≡ length caps.now }
    requires limits { All IsTaskTerms tasks.now }
    ensures none { IsNone result ↔ AllZip (IsSustained plan.now) caps.now tasks.now }
    ensures fault { IfSome result (IsFirstShort plan.now caps.now tasks.now) }
{
    for i in 0..caps.len() {
        if let Some(lack) = lack_of(plan, caps[i], &tasks[i]) {
            return Some(SupplyFault { task: i, lack });
        }
    }
    None
}

// Within their limits the products stay below 2^42; a cap may be any number.
fn lack_of(plan: &DiePlan, cap: u32, task: &TaskTerms) -> Option<Lack>
    requires bound { MeetsBound plan.now }
    requires limits { IsTaskTerms task.now }
    ensures none { IsNone result ↔ IsSustained plan.now cap task.now }
    ensures lack { IfSome result (IsLack plan.now cap task.now) }
{
    let most = most_between(plan, task);
    if u64::from(task.collect_period) > most {
        return Some(Lack::CollectPeriod { most: most as u32 });
    }
    let least = least_cap(plan, task);
    if u64::from(cap) < least {
        return Some(Lack::Cap { least });
    }
    None
}

// The greatest collect period with which collections give what jobs write; of a task that writes nothing any does.
fn most_between(plan: &DiePlan, task: &TaskTerms) -> u64
    requires bound { MeetsBound plan.now }
    requires limits { IsTaskTerms task.now }
    ensures most { (collect_period : ℕ) → collect_period ≤ 1048576 →
        ((task.now.writes * collect_period ≤ plan.now.alpha * task.now.period) ↔ (collect_period ≤ result)) }
    ensures all { result < 1048576 → (collect_period : ℕ) →
        ((task.now.writes * collect_period ≤ plan.now.alpha * task.now.period) ↔ (collect_period ≤ result)) }
{
    let gained = u64::from(plan.alpha) * u64::from(task.period);
    if task.writes == 0 {
        u64::from(MAX_SLOT)
    } else {
        gained / u64::from(task.writes)
    }
}

fn least_cap(plan: &DiePlan, task: &TaskTerms) -> u64
    requires bound { MeetsBound plan.now }
    requires limits { IsTaskTerms task.now }
    ensures { (cap : ℕ) → (task.now.writes * (task.now.period + task.now.held) + 2 * plan.now.alpha * task.now.period
        ≤ cap * task.now.period) ↔ (result ≤ cap) }
{
    rounded_up(wanted(plan, task), u64::from(task.period))
}

fn wanted(plan: &DiePlan, task: &TaskTerms) -> u64
    requires bound { MeetsBound plan.now }
    requires limits { IsTaskTerms task.now }
    ensures wanted { result ≡ task.now.writes * (task.now.period + task.now.held)
        + 2 * plan.now.alpha * task.now.period }
    ensures within { result < 2 ^ 60 }
{
    let period = u64::from(task.period);
    u64::from(task.writes) * (period + u64::from(task.held)) + 2 * u64::from(plan.alpha) * period
}

// The least number whose product with `period` is at least `wanted`.
fn rounded_up(wanted: u64, period: u64) -> u64
    requires some { 1 ≤ period }
    requires within { wanted + period < 2 ^ 61 }
    ensures { (count : ℕ) → (wanted ≤ count * period) ↔ (result ≤ count) }
{
    (wanted + (period - 1)) / period
}
