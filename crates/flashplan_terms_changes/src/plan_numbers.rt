//! The numbers of a plan that are sought, and dies with another one.

ghost use Rattle.std.specs.Prelude.{◌≡◌, IfOk};
ghost use Rattle.slot_types.specs.Refusal.{FailsForMemory};
ghost use Rattle.flashplan_terms_changes.specs.Changes.{loosest, loosest_terms, number_of, terms_number, terms_with, with_number};

use crate::alphas::{cap_with, longest, with_alpha};
use demand_rules::TaskTerms;
use flashplan_terms_margins::{own_cap, own_terms, with_cap, with_own};
use slot_types::{DiePlan, MAX_BLOCKS, Refusal, Shape};
use std::alloc::Global;
use terms_texts::DieTerms;

/// A number of a plan.
#[derive(Clone, Copy, PartialEq, Eq, Debug, Drop)]
pub enum PlanNumber {
    /// With the caps, the collect periods and the collect deadlines that go with it.
    Alpha,
    Logical,
    Blocks,
    Cap,
    /// With a collect deadline that is no longer.
    CollectPeriod,
    CollectDeadline,
    Period,
    Deadline,
    Held,
    Work,
    Writes,
}

/// A number of a task's terms; 0 where it is none of these.
fn terms_number(task: &TaskTerms, which: PlanNumber) -> u32
    ensures { result ≡ terms_number task.now which }
{
    match which {
        PlanNumber::CollectPeriod => task.collect_period,
        PlanNumber::CollectDeadline => task.collect_deadline,
        PlanNumber::Period => task.period,
        PlanNumber::Deadline => task.deadline,
        PlanNumber::Held => task.held,
        PlanNumber::Work => task.work,
        PlanNumber::Writes => task.writes,
        PlanNumber::Alpha | PlanNumber::Logical | PlanNumber::Blocks | PlanNumber::Cap => 0,
    }
}

/// A number as a die has it, and a task of it.
pub fn number_of(made: &DieTerms, task: usize, which: PlanNumber) -> u32
    ensures { result ≡ number_of made.now task which }
{
    match which {
        PlanNumber::Alpha => made.plan.alpha,
        PlanNumber::Logical => made.plan.logical,
        PlanNumber::Blocks => made.plan.shape.blocks,
        PlanNumber::Cap => own_cap(&made.plan, task),
        _ => terms_number(&own_terms(made, task), which),
    }
}

/// The number of a task's terms that asks for least.
fn loosest_terms(alpha: u32, task: &TaskTerms, which: PlanNumber) -> u32
    ensures { result ≡ loosest_terms alpha task.now which }
{
    match which {
        PlanNumber::Cap => cap_with(alpha, task),
        PlanNumber::CollectPeriod => longest(alpha, task),
        PlanNumber::CollectDeadline => task.collect_period,
        PlanNumber::Period => u32::MAX,
        PlanNumber::Deadline => task.held,
        PlanNumber::Held => task.deadline,
        PlanNumber::Work => task.writes.max(1),
        PlanNumber::Alpha | PlanNumber::Logical | PlanNumber::Blocks | PlanNumber::Writes => 0,
    }
}

/// The number of a die, or of a task of it, that asks for least.
pub fn loosest(made: &DieTerms, task: usize, which: PlanNumber) -> u32
    ensures { result ≡ loosest made.now task which }
{
    match which {
        PlanNumber::Logical => 1,
        PlanNumber::Blocks => MAX_BLOCKS,
        _ => loosest_terms(made.plan.alpha, &own_terms(made, task), which),
    }
}

/// A task's terms with another number.
fn terms_with(which: PlanNumber, task: &TaskTerms, n: u32) -> TaskTerms
    ensures { result ≡ terms_with which task.now n }
{
    match which {
        PlanNumber::CollectPeriod => TaskTerms {
            collect_period: n,
            collect_deadline: task.collect_deadline.min(n),
            ..*task
        },
        PlanNumber::CollectDeadline => TaskTerms {
            collect_deadline: n,
            ..*task
        },
        PlanNumber::Period => TaskTerms { period: n, ..*task },
        PlanNumber::Deadline => TaskTerms {
            deadline: n,
            ..*task
        },
        PlanNumber::Held => TaskTerms { held: n, ..*task },
        PlanNumber::Work => TaskTerms { work: n, ..*task },
        PlanNumber::Writes => TaskTerms { writes: n, ..*task },
        PlanNumber::Alpha | PlanNumber::Logical | PlanNumber::Blocks | PlanNumber::Cap => *task,
    }
}

/// A die with another number of logical pages.
fn holding(made: DieTerms, n: u32) -> DieTerms
    ensures { result ≡ with_number PlanNumber.Logical made 0 n }
{
    DieTerms {
        plan: DiePlan {
            logical: n,
            ..made.plan
        },
        terms: made.terms,
    }
}

/// A die with another number of blocks.
fn with_blocks(made: DieTerms, n: u32) -> DieTerms
    ensures { result ≡ with_number PlanNumber.Blocks made 0 n }
{
    DieTerms {
        plan: DiePlan {
            shape: Shape {
                blocks: n,
                ..made.plan.shape
            },
            ..made.plan
        },
        terms: made.terms,
    }
}

/// A die with another cap of a task.
fn with_own_cap(made: DieTerms, task: usize, n: u32) -> DieTerms
    ensures { result ≡ with_number PlanNumber.Cap made task n }
{
    DieTerms {
        plan: with_cap(made.plan, task, n),
        terms: made.terms,
    }
}

/// A die with another number. It isn't judged. The only refusal is NoMemory.
pub fn with_number(
    alloc: Global,
    which: PlanNumber,
    made: DieTerms,
    task: usize,
    n: u32,
) -> Result<DieTerms, Refusal>
    ensures made { IfOk result (λ other. other ≡ with_number which made task n) }
    ensures refused { FailsForMemory result }
{
    match which {
        PlanNumber::Alpha => with_alpha(alloc, made, n),
        PlanNumber::Logical => Ok(holding(made, n)),
        PlanNumber::Blocks => Ok(with_blocks(made, n)),
        PlanNumber::Cap => Ok(with_own_cap(made, task, n)),
        _ => {
            let own = own_terms(&made, task);
            Ok(with_own(made, task, terms_with(which, &own, n)))
        }
    }
}
