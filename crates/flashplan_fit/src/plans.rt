//! Plans that are tried.

ghost use Rattle.std.specs.Prelude.{IfOk, IfSome};
ghost use Rattle.std.specs.List.{AllZip};
ghost use Rattle.flashplan_fit.specs.Fits.{IsPlanOf, IsTimedTask};

use crate::datasheets::{Need, Part, Sheet};
use crate::slots::greatest_upto;
use slot_types::{Caps, DiePlan, Refusal, Shape, TaskTimes, Times, TimesList};
use std::alloc::Global;

/// What is chosen for a part and its tasks.
#[derive(Clone, Copy)]
pub struct Choice<'a> {
    pub slot_us: u32,
    /// By task, in slots.
    pub periods: &'a [u32],
    pub common: u32,
    /// The divisors of `common`, rising.
    pub divisors: &'a [u32],
    pub alpha: u32,
}

/// The longest collect period of a task that divides `common` and gives back what its jobs write.
pub fn collect_period(choice: &Choice<'_>, period: u32, writes: u32) -> Option<u32> {
    let given = u64::from(choice.alpha).saturating_mul(u64::from(period));
    match given.checked_div(u64::from(writes)) {
        None => Some(choice.common),
        Some(most) => greatest_upto(choice.divisors, u32::try_from(most).unwrap_or(u32::MAX)),
    }
}

/// The most slots that a collection takes.
pub fn collection_work(part: &Part, erase_slots: u32, alpha: u32) -> u32 {
    part.pages
        .saturating_sub(alpha)
        .saturating_mul(2)
        .saturating_add(erase_slots)
}

/// The times of a task, whose period is this at most; none where its collections can't give back what it writes.
fn task_of(need: &Need, period: u32, choice: &Choice<'_>) -> Option<TaskTimes>
    ensures { IfSome result (IsTimedTask choice.now.slot_us need.now) }
{
    let wanted = need.in_slots(choice.slot_us);
    let period = period.min(wanted.period).min(wanted.deadline);
    let collect_period = collect_period(choice, period, wanted.writes)?;
    Some(TaskTimes {
        period,
        collect_period,
        work: wanted.work,
        writes: wanted.writes,
    })
}

/// The times of all tasks; none where a task's collections can't give back what it writes.
fn tasks_of(
    alloc: Global,
    needs: &[Need],
    choice: &Choice<'_>,
) -> Result<Option<TimesList>, Refusal>
    ensures { IfOk result (λ made. IfSome made (AllZip (IsTimedTask choice.now.slot_us) needs.now)) }
{
    let mut tasks = TimesList::new(alloc);
    for i in 0..needs.len() {
        let period = choice.periods.get(i).copied().unwrap_or(0);
        let Some(task) = task_of(&needs[i], period, choice) else {
            return Ok(None);
        };
        tasks.push(task)?;
    }
    Ok(Some(tasks))
}

/// The least caps that do where a collection gives `alpha` pages: each covers two jobs and two collections.
pub fn caps_of(alloc: Global, needs: &[Need], slot_us: u32, alpha: u32) -> Result<Caps, Refusal> {
    let mut caps = Caps::new(alloc);
    for need in needs {
        let given = need.in_slots(slot_us).writes.saturating_add(alpha);
        caps.push(given.saturating_mul(2))?;
    }
    Ok(caps)
}

/// The plan of a choice; none where a slot isn't as long as it is to be, doesn't hold each command, or has to hold a whole
/// erase and doesn't, or a task's collections can't give back what it writes. It isn't judged. The only refusal is NoMemory.
pub fn plan_of(
    alloc: Global,
    sheet: &Sheet,
    choice: &Choice<'_>,
) -> Result<Option<DiePlan>, Refusal>
    ensures { IfOk result (λ made. IfSome made (IsPlanOf sheet.now choice.now.slot_us)) }
{
    let part = &sheet.part;
    let Some(erase_slots) = part.erase_slots(choice.slot_us) else {
        return Ok(None);
    };
    let needs = sheet.needs.as_slice();
    if !part.allows_erases(erase_slots, sheet.needs.len()) || !part.allows_slot(choice.slot_us) {
        return Ok(None);
    }
    let caps = caps_of(alloc, needs, choice.slot_us, choice.alpha)?;
    let Some(tasks) = tasks_of(alloc, needs, choice)? else {
        return Ok(None);
    };
    Ok(Some(DiePlan {
        shape: Shape {
            blocks: part.blocks,
            pages: part.pages,
            erase_slots,
        },
        logical: part.logical,
        alpha: choice.alpha,
        caps,
        times: Some(Times {
            common: choice.common,
            tasks,
        }),
    }))
}

/// A plan of a part with these caps, and no times, by which the bound can be judged.
pub fn untimed_plan(part: &Part, alpha: u32, caps: Caps) -> DiePlan {
    DiePlan {
        shape: Shape {
            blocks: part.blocks,
            pages: part.pages,
            erase_slots: 1,
        },
        logical: part.logical,
        alpha,
        caps,
        times: None,
    }
}
