//! The dies that histories are played on.

use crate::fields::{Fields, UNREAD};
use flash_die::{FuseNand, MemoryNand};
use slot_core::DieCore;
use slot_types::{Caps, DiePlan, JobNo, Refusal, Shape, TaskTimes, Times, TimesList};
use std::alloc::Global;

pub(crate) type Die = DieCore<FuseNand<MemoryNand>>;

fn caps_in(alloc: Global, fields: &Fields, place: usize) -> Result<Caps, Refusal> {
    let mut caps = Caps::new(alloc);
    for cap in fields.numbers(alloc, place)? {
        caps.push(cap.0)?;
    }
    Ok(caps)
}

/// The plan in the six fields from this place on: blocks, pages, erase slots, logical pages, alpha, and the caps.
pub(crate) fn plan_in(alloc: Global, fields: &Fields, first: usize) -> Result<DiePlan, Refusal> {
    let shape = Shape {
        blocks: fields.number(first)?,
        pages: fields.number(first.saturating_add(1))?,
        erase_slots: fields.number(first.saturating_add(2))?,
    };
    let logical = fields.number(first.saturating_add(3))?;
    let alpha = fields.number(first.saturating_add(4))?;
    Ok(DiePlan {
        shape,
        logical,
        alpha,
        caps: caps_in(alloc, fields, first.saturating_add(5))?,
        times: None,
    })
}

/// The times of a task: its period, its collect period, its work and its writes.
fn task_in(numbers: &[JobNo]) -> Option<TaskTimes> {
    match numbers {
        [period, collect_period, work, writes] => Some(TaskTimes {
            period: period.0,
            collect_period: collect_period.0,
            work: work.0,
            writes: writes.0,
        }),
        _ => None,
    }
}

/// The times of a line `timed`: the hyperperiod, and four numbers a task.
fn times_in(alloc: Global, fields: &Fields) -> Result<Times, Refusal> {
    let common = fields.number(0)?;
    let numbers = fields.numbers(alloc, 1)?;
    let mut tasks = TimesList::new(alloc);
    for task in numbers.as_slice().chunks(4) {
        match task_in(task) {
            Some(times) => tasks.push(times)?,
            None => return Err(UNREAD),
        }
    }
    Ok(Times { common, tasks })
}

fn die_of(alloc: Global, plan: DiePlan, calls: u64) -> Result<Box<Die>, Refusal> {
    let device = FuseNand::new(MemoryNand::new(alloc, plan.shape)?, calls);
    DieCore::boxed(alloc, plan, device)
}

/// A new die. Of a line `fused` the device fails after as many calls as its first number says, and a line `timed` has
/// the times of the plan.
pub(crate) fn die_in(alloc: Global, fields: &Fields) -> Result<Box<Die>, Refusal> {
    match fields.name {
        "fused" => {
            let calls = u64::from(fields.number(0)?);
            die_of(alloc, plan_in(alloc, fields, 1)?, calls)
        }
        "timed" => {
            let mut plan = plan_in(alloc, fields, 2)?;
            plan.times = Some(times_in(alloc, fields)?);
            die_of(alloc, plan, u64::MAX)
        }
        _ => die_of(alloc, plan_in(alloc, fields, 0)?, u64::MAX),
    }
}
