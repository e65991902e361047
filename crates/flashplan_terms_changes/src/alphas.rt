//! What another alpha comes to, with the caps, the collect periods and the collect deadlines that go with it, by die.

ghost use Rattle.std.specs.Prelude.{◌≡◌, ◌↔◌, IfOk, IsTrue, map};
ghost use Rattle.slot_types.specs.Refusal.{FailsForMemory};
ghost use Rattle.plan_rules.specs.Bound.{MeetsBound};
ghost use Rattle.flashplan_terms_changes.specs.Alphas.{FindsRow, cap_with, least_cap, longest, slowed, with_alpha};

use demand_rules::{TaskTerms, Terms, TermsList};
use demand_trials::passing_load;
use flashplan_design::greatest_logical;
use plan_rules::bound;
use slot_types::{Caps, DiePlan, MAX_SLOT, Refusal};
use std::alloc::Global;
use terms_texts::DieTerms;

/// A die with an alpha and what goes with it, and what that comes to.
#[derive(Drop)]
pub struct AlphaRow {
    pub made: DieTerms,
    /// How many of a million slots are asked for in the long run, 0 to 1,000,000.
    pub load: u32,
    /// The greatest number of logical pages that its bound allows.
    pub logical: u32,
    /// Whether it would do with as many as it has.
    pub does: bool,
}

/// The longest collect period with which a task's collections give back what its jobs write, 0 to 1,048,576; of a task that
/// writes nothing, 1,048,576.
pub fn longest(alpha: u32, task: &TaskTerms) -> u32
    ensures { result ≡ longest alpha task.now }
{
    if task.writes == 0 {
        return MAX_SLOT;
    }
    let given = u64::from(alpha) * u64::from(task.period);
    let most = given / u64::from(task.writes);
    most.min(u64::from(MAX_SLOT)) as u32
}

/// A task whose collections come as seldom, and are each due by the next one.
fn slowed(alpha: u32, task: &TaskTerms) -> TaskTerms
    ensures { result ≡ slowed alpha task.now }
{
    let longest = longest(alpha, task);
    TaskTerms {
        collect_period: longest,
        collect_deadline: longest,
        ..*task
    }
}

/// What a task's cap has to cover, whatever its terms are.
fn least_cap(alpha: u32, task: &TaskTerms) -> u128
    ensures { result ≡ least_cap alpha task.now }
{
    let period = u128::from(task.period);
    let written = u128::from(task.writes) * (period + u128::from(task.held));
    let wanted = written + 2 * u128::from(alpha) * period;
    if period == 0 {
        0
    } else {
        (wanted + (period - 1)) / period
    }
}

/// The least cap that goes with an alpha; the last number, where that would be greater.
pub fn cap_with(alpha: u32, task: &TaskTerms) -> u32
    ensures { result ≡ cap_with alpha task.now }
{
    let least = least_cap(alpha, task);
    least.min(u128::from(u32::MAX)) as u32
}

/// The terms of all tasks so. The only refusal is NoMemory.
fn all_slowed(alloc: Global, alpha: u32, tasks: &[TaskTerms]) -> Result<TermsList, Refusal>
    ensures slowed { IfOk result (λ made. made ≡ map (slowed alpha) tasks.now) }
    ensures refused { FailsForMemory result }
{
    let mut made = TermsList::new(alloc);
    for i in 0..tasks.len() {
        made.push(slowed(alpha, &tasks[i]))?;
    }
    Ok(made)
}

/// The least caps of all tasks. The only refusal is NoMemory.
fn caps_with(alloc: Global, alpha: u32, tasks: &[TaskTerms]) -> Result<Caps, Refusal>
    ensures caps { IfOk result (λ made. made ≡ map (cap_with alpha) tasks.now) }
    ensures refused { FailsForMemory result }
{
    let mut made = Caps::new(alloc);
    for i in 0..tasks.len() {
        made.push(cap_with(alpha, &tasks[i]))?;
    }
    Ok(made)
}

/// A die with this alpha, the least caps, the longest collect periods and the longest collect deadlines. It isn't judged.
/// The only refusal is NoMemory.
pub fn with_alpha(alloc: Global, made: DieTerms, alpha: u32) -> Result<DieTerms, Refusal>
    ensures along { IfOk result (λ other. other ≡ with_alpha made alpha) }
    ensures refused { FailsForMemory result }
{
    let caps = caps_with(alloc, alpha, made.terms.tasks.as_slice())?;
    let tasks = all_slowed(alloc, alpha, made.terms.tasks.as_slice())?;
    Ok(DieTerms {
        plan: DiePlan {
            alpha,
            caps,
            ..made.plan
        },
        terms: Terms { tasks },
    })
}

/// What such a die comes to; none where it would do with no number of logical pages. It takes any die, and no memory.
pub fn row_of(made: DieTerms) -> Option<AlphaRow>
    ensures { FindsRow made result }
{
    let mut made = made;
    let logical = greatest_logical(&mut made.plan)?;
    let own = made.plan.logical;
    made.plan.logical = logical;
    let Some(load) = passing_load(&made.plan, &made.terms) else {
        return None;
    };
    made.plan.logical = own;
    let does = bound(&made.plan).is_ok();
    Some(AlphaRow {
        made,
        load,
        logical,
        does,
    })
}
