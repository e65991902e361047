//! The least period and the greatest collect period with which a die would do, the rest being as it is. A period divides the
//! hyperperiod, so the divisors of that are tried, and no other number.

ghost use Rattle.std.specs.Prelude.{◌≤◌, IfSome};
ghost use Rattle.slot_types.specs.declared.limits.TheConstants.{MAX_SLOT};
ghost use Rattle.flashplan_design.specs.Numbers.{DieDoes, FindsGreatest, FindsLeast, OnlyDivisorsDo};

use crate::attempts::{Attempt, tried};
use crate::numbers::Number;
use crate::solving::{greatest, least};
use slot_types::{DiePlan, MAX_SLOT};

/// The root of the greatest hyperperiod: of a divisor of it and its quotient one is at most this.
const ROOT: u32 = 1024;

/// The least divisor of `common` with which a die would do. Quotients of falling numbers rise.
fn least_divisor(plan: DiePlan, which: Number, common: u32) -> Option<u32>
    requires { OnlyDivisorsDo which plan common }
    ensures { FindsLeast (DieDoes which plan) 1 MAX_SLOT result }
{
    let mut trial = plan;
    for n in 1..=ROOT {
        let Attempt { plan, does } = tried(trial, which, n);
        if does {
            return Some(n);
        }
        trial = plan;
    }
    for back in 0..ROOT {
        let n = common / (ROOT - back);
        let Attempt { plan, does } = tried(trial, which, n);
        if does {
            return Some(n);
        }
        trial = plan;
    }
    None
}

/// The greatest divisor of `common` with which a die would do. Quotients of rising numbers fall.
fn greatest_divisor(plan: DiePlan, which: Number, common: u32) -> Option<u32>
    requires { OnlyDivisorsDo which plan common }
    ensures { FindsGreatest (DieDoes which plan) 1 MAX_SLOT result }
{
    let mut trial = plan;
    for part in 1..=ROOT {
        let n = common / part;
        let Attempt { plan, does } = tried(trial, which, n);
        if does {
            return Some(n);
        }
        trial = plan;
    }
    for back in 0..ROOT {
        let n = ROOT - back;
        let Attempt { plan, does } = tried(trial, which, n);
        if does {
            return Some(n);
        }
        trial = plan;
    }
    None
}

/// The hyperperiod of a plan that has this task, if it is one of a run's.
fn common_of(plan: &DiePlan, task: u32) -> Option<u32>
    ensures period { IfSome result (λ common. OnlyDivisorsDo (Number.Period task) plan.now common) }
    ensures collect_period { IfSome result (λ common. OnlyDivisorsDo (Number.CollectPeriod task) plan.now common) }
{
    match &plan.times {
        Some(times)
            if (task as usize) < times.tasks.len()
                && 1 <= times.common
                && times.common <= MAX_SLOT => { Some(times.common) }
        _ => None,
    }
}

/// The least period of a task, from 1 to 1,048,576 slots, with which a die meets its bound and passes its test, the rest
/// being as it is; none where no such number would do. It takes any plan, and no memory.
pub fn least_period(plan: DiePlan, task: u32) -> Option<u32>
    ensures { FindsLeast (DieDoes (Number.Period task) plan) 1 MAX_SLOT result }
{
    match common_of(&plan, task) {
        Some(common) => least_divisor(plan, Number::Period(task), common),
        None => least(plan, Number::Period(task), 1, MAX_SLOT),
    }
}

/// The greatest collect period of a task, from 1 to 1,048,576 slots, with which a die meets its bound and passes its test,
/// the rest being as it is; none where no such number would do. It takes any plan, and no memory.
pub fn greatest_collect_period(plan: DiePlan, task: u32) -> Option<u32>
    ensures { FindsGreatest (DieDoes (Number.CollectPeriod task) plan) 1 MAX_SLOT result }
{
    match common_of(&plan, task) {
        Some(common) => greatest_divisor(plan, Number::CollectPeriod(task), common),
        None => greatest(plan, Number::CollectPeriod(task), 1, MAX_SLOT),
    }
}
