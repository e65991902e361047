//! The least hyperperiod with which a plan would do.

ghost use Rattle.std.specs.Prelude.{◌≤◌, IfOk};
ghost use Rattle.slot_types.specs.Refusal.{FailsForMemory};
ghost use Rattle.slot_types.specs.declared.limits.TheConstants.{MAX_SLOT};
ghost use Rattle.flashplan_design.specs.Commons.{AreCommon, DividesAll, FindsDivisor, IsMultipleOfTimes};
ghost use Rattle.flashplan_design.specs.Numbers.{FindsLeast};
ghost use Rattle.flashplan_design.specs.Plans.{AllDo};

use crate::commons::{Periods, common_multiple};
use crate::numbers::Number;
use crate::wholes::all_do;
use plan_texts::{PlanNumbers, die_plan};
use slot_types::{Refusal, Times};
use std::alloc::Global;

/// The least multiple of `of`, up to 1,048,576, that all periods of some times divide; none where there is no such number.
fn multiple_with(of: u32, times: &Option<Times>) -> Option<u32>
    requires some { 1 ≤ of }
    requires few { of ≤ MAX_SLOT }
    ensures { FindsDivisor (IsMultipleOfTimes of times.now) result }
{
    match times {
        Some(times) => common_multiple(Periods::All, of, times.tasks.as_slice()),
        None => Some(of),
    }
}

/// The least number of slots that the periods of all dies divide; none where there is no such number up to 1,048,576. The
/// only refusal is NoMemory.
fn multiple_of_all(alloc: Global, plan: &PlanNumbers) -> Result<Option<u32>, Refusal>
    ensures found { IfOk result (FindsDivisor (AreCommon plan.now)) }
    ensures refused { FailsForMemory result }
{
    let mut common: u32 = 1;
    for die in 0..plan.top.dies {
        let made = die_plan(alloc, plan, die)?;
        let found = multiple_with(common, &made.times);
        let Some(multiple) = found else {
            return Ok(None);
        };
        common = multiple;
    }
    Ok(Some(common))
}

/// This hyperperiod where each die does with it. The only refusal is NoMemory.
fn if_all_do(alloc: Global, plan: &PlanNumbers, common: u32) -> Result<Option<u32>, Refusal>
    requires { DividesAll (AreCommon plan.now) common }
    ensures found { IfOk result (FindsLeast (AllDo Number.Common plan.now) 1 MAX_SLOT) }
    ensures refused { FailsForMemory result }
{
    let does = all_do(alloc, plan, Number::Common, common)?;
    if does { Ok(Some(common)) } else { Ok(None) }
}

/// The least hyperperiod with which each die does; none where none up to 1,048,576 would do. With a multiple of it a die
/// does where it does with it, since its demand grows alike: so it is the least multiple of all periods, or there is none. The
/// only refusal is NoMemory.
pub fn least_common_of_all(alloc: Global, plan: &PlanNumbers) -> Result<Option<u32>, Refusal>
    ensures found { IfOk result (FindsLeast (AllDo Number.Common plan.now) 1 MAX_SLOT) }
    ensures refused { FailsForMemory result }
{
    let found = multiple_of_all(alloc, plan)?;
    match found {
        Some(common) => if_all_do(alloc, plan, common),
        None => Ok(None),
    }
}
