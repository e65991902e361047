//! A plan with one of its numbers changed, put to the test.

ghost use Rattle.std.specs.Prelude.{◌≡◌, ◌↔◌, ◌%◌, ◌≤◌, ◌⊎◌, IsTrue, length};
ghost use Rattle.flashplan_design.specs.Numbers.{DieDoes, IsAlike, MayBe};

use crate::commons::{Periods, are_divisors};
use crate::numbers::{Number, with_number, would_do};
use slot_types::{DiePlan, Times};

/// A plan that was tried, and whether it would do with the number that it was tried with.
#[derive(Drop)]
pub(crate) struct Attempt {
    /// It differs from the plan before in that number alone, if at all.
    pub(crate) plan: DiePlan,
    pub(crate) does: bool,
}

/// Whether a number divides another one, which only 0 may divide by 0.
fn divides(common: u32, n: u32) -> bool
    ensures { IsTrue result ↔ (common % n ≡ 0) }
{
    if n == 0 { common == 0 } else { common % n == 0 }
}

/// Whether a period of a task could do in these times: it divides the hyperperiod. A task that isn't there has none.
fn may_be_period(times: &Times, task: u32, n: u32) -> bool
    ensures { IsTrue result ↔ ((length times.now.tasks ≤ task) ⊎ (times.now.common % n ≡ 0)) }
{
    times.tasks.len() <= task as usize || divides(times.common, n)
}

/// Whether a number of these times could do, by what is seen at once.
fn may_be(times: &Times, which: Number, n: u32) -> bool
    ensures { IsTrue result ↔ MayBe which times.now n }
{
    match which {
        Number::Common => are_divisors(Periods::All, times.tasks.as_slice(), n),
        Number::Period(task) => may_be_period(times, task, n),
        Number::CollectPeriod(task) => may_be_period(times, task, n),
        _ => true,
    }
}

/// Whether a plan could do with this number, by what is seen at once.
fn may_do(plan: &DiePlan, which: Number, n: u32) -> bool
    ensures { DieDoes which plan.now n → IsTrue result }
{
    match &plan.times {
        Some(times) => may_be(times, which, n),
        None => true,
    }
}

/// A plan with this number, put to the test. It takes any plan, and no memory.
pub(crate) fn tried(plan: DiePlan, which: Number, n: u32) -> Attempt
    ensures alike { IsAlike which result.plan plan }
    ensures does { IsTrue result.does ↔ DieDoes which plan n }
{
    if !may_do(&plan, which, n) {
        return Attempt { plan, does: false };
    }
    let plan = with_number(plan, which, n);
    let does = would_do(&plan);
    Attempt { plan, does }
}
