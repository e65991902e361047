//! Numbers of slots that periods divide.

ghost use Rattle.std.specs.Prelude.{◌≡◌, ◌↔◌, ◌%◌, ◌≤◌, IsTrue};
ghost use Rattle.slot_types.specs.declared.limits.TheConstants.{MAX_SLOT};
ghost use Rattle.flashplan_design.specs.Commons.{AreDivisors, Divide, FindsDivisor, FindsLeastCommon};
ghost use Rattle.flashplan_design.specs.Commons.{IsCommonMultiple, IsMultiple, IsMultipleFor};

use slot_types::{MAX_SLOT, TaskTimes};

/// Which periods of tasks are meant.
#[derive(Clone, Copy, PartialEq, Eq, Debug, Drop)]
pub enum Periods {
    /// Those of jobs and those of collections.
    All,
    /// Those of collections alone.
    Collect,
}

/// Whether a period divides a number of slots; a period of 0 divides 0 alone.
fn divides(common: u32, period: u32) -> bool
    ensures { IsTrue result ↔ (common % period ≡ 0) }
{
    if period == 0 {
        common == 0
    } else {
        common % period == 0
    }
}

/// Whether these periods of a task divide a number of slots.
fn divide(periods: Periods, common: u32, task: &TaskTimes) -> bool
    ensures { IsTrue result ↔ Divide periods common task.now }
{
    match periods {
        Periods::All => divides(common, task.period) && divides(common, task.collect_period),
        Periods::Collect => divides(common, task.collect_period),
    }
}

/// Whether these periods of all tasks divide a number of slots; a period of 0 divides 0 alone. It takes no memory.
pub fn are_divisors(periods: Periods, tasks: &[TaskTimes], common: u32) -> bool
    ensures { IsTrue result ↔ AreDivisors periods tasks.now common }
{
    tasks.iter().all(|task| divide(periods, common, task))
}

/// The least multiple of `of`, up to 1,048,576, that a period divides; none where there is no such number.
fn multiple_for(of: u32, period: u32) -> Option<u32>
    requires some { 1 ≤ of }
    requires few { of ≤ MAX_SLOT }
    ensures { FindsDivisor (IsMultiple of period) result }
{
    let most = MAX_SLOT / of;
    for before in 0..most {
        let multiple = of * (before + 1);
        if divides(multiple, period) {
            return Some(multiple);
        }
    }
    None
}

/// The least multiple of `of`, up to 1,048,576, that these periods of a task divide; none where there is no such number.
fn multiple_for_task(periods: Periods, of: u32, task: &TaskTimes) -> Option<u32>
    requires some { 1 ≤ of }
    requires few { of ≤ MAX_SLOT }
    ensures { FindsDivisor (IsMultipleFor periods of task.now) result }
{
    let multiple = multiple_for(of, task.collect_period)?;
    match periods {
        Periods::All => multiple_for(multiple, task.period),
        Periods::Collect => Some(multiple),
    }
}

/// The least multiple of `of`, which is from 1 to 1,048,576, that these periods of all tasks divide; none where there is no
/// such number up to 1,048,576. It takes no memory.
pub fn common_multiple(periods: Periods, of: u32, tasks: &[TaskTimes]) -> Option<u32>
    requires some { 1 ≤ of }
    requires few { of ≤ MAX_SLOT }
    ensures { FindsDivisor (IsCommonMultiple periods of tasks.now) result }
{
    let mut multiple = of;
    for task in tasks {
        multiple = multiple_for_task(periods, multiple, task)?;
    }
    Some(multiple)
}

/// The least number of slots, from 1 to 1,048,576, that these periods of all tasks divide; none where there is no such
/// number. It takes no memory.
pub fn least_common(periods: Periods, tasks: &[TaskTimes]) -> Option<u32>
    ensures { FindsLeastCommon periods tasks.now result }
{
    common_multiple(periods, 1, tasks)
}
