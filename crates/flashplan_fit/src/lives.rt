//! Where the periods of a plan may end.

use crate::slots::least_multiple;
use flashplan_lives::{are_tasks, life_of};
use slot_types::TaskTimes;

/// Whether there is a slot in a life by which all periods end, so that the next life keeps the plan, too.
#[derive(Clone, Copy, PartialEq, Eq, Debug, Drop)]
pub enum Life {
    Ends,
    /// The `life` slots of a life are fewer than the least number that each collect period divides. That number is
    /// `end`, where a run can have that many.
    EndsNowhere { life: u32, end: Option<u32> },
}

/// The least number of slots that each collect period divides, where it is at most 1,048,576.
fn end_of(tasks: &[TaskTimes]) -> Option<u32> {
    let mut end: u32 = 1;
    for task in tasks {
        end = least_multiple(end, task.collect_period)?;
    }
    Some(end)
}

/// Where the periods of these tasks may end.
pub fn life_by(tasks: &[TaskTimes]) -> Life {
    if !are_tasks(tasks) {
        return Life::EndsNowhere { life: 0, end: None };
    }
    let life = life_of(tasks);
    match end_of(tasks) {
        Some(end) if end <= life => Life::Ends,
        end => Life::EndsNowhere { life, end },
    }
}
