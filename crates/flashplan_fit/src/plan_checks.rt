//! Whether a plan is one of a datasheet.

ghost use Rattle.std.specs.Prelude.{◌*◌, ◌≤◌, IsTrue, IsSomeAnd, None};
ghost use Rattle.std.specs.List.{AllZip};
ghost use Rattle.flashplan_fit.specs.Fits.{DoesWork, HoldsCommands, IsDue, IsOfPart, IsPlanOf, IsTaskOf, IsTermsOf, IsTimedTask};

use crate::datasheets::{Asked, Need, Part, Sheet};
use demand_rules::TaskTerms;
use slot_types::{DiePlan, TaskTimes};
use terms_texts::DieTerms;

/// A rate in millionths of a page a second, times a time in microseconds, makes a page where it comes to this.
const PAGE_SECOND: u64 = 1_000_000_000_000;

/// Whether a slot of `slot_us` microseconds holds a read and a program, and `erase_slots` of them an erase.
fn holds_commands(part: &Part, slot_us: u32, erase_slots: u32) -> bool
    ensures { IsTrue result → HoldsCommands part.now slot_us erase_slots }
{
    let erasing = u64::from(part.erasing(slot_us));
    part.holds(slot_us, part.read_us)
        && part.holds(slot_us, part.program_us)
        && u64::from(part.erase_us) <= u64::from(erase_slots) * erasing
}

/// Whether `slots` slots of `slot_us` microseconds take at most `us` microseconds.
fn is_within(slots: u32, slot_us: u32, us: u32) -> bool
    ensures { IsTrue result → slots * slot_us ≤ us }
{
    u64::from(slots) * u64::from(slot_us) <= u64::from(us)
}

/// Whether at most `pages` pages come in `slots` slots.
fn is_paced(micropages_per_s: u32, slots: u32, slot_us: u32, pages: u32) -> bool
    ensures { IsTrue result → micropages_per_s * (slots * slot_us) ≤ pages * 1000000000000 }
{
    let time = u64::from(slots) * u64::from(slot_us);
    let come = time.checked_mul(u64::from(micropages_per_s));
    let most = u64::from(pages).checked_mul(PAGE_SECOND);
    match (come, most) {
        (Some(come), Some(most)) => come <= most,
        _ => false,
    }
}

/// Whether the terms of a task are of what it asks for.
fn does_work(slot_us: u32, asked: &Asked, task: &TaskTerms) -> bool
    ensures { IsTrue result → DoesWork slot_us asked.now task.now }
{
    match *asked {
        Asked::Periodic {
            period_us,
            reads,
            writes,
        } => {
            is_within(task.period, slot_us, period_us)
                && task.work == u32::from(reads) + u32::from(writes)
                && task.writes == u32::from(writes)
        }
        Asked::Burst { pages, every_us } => {
            is_within(task.period, slot_us, every_us) && task.work == pages && task.writes == pages
        }
        Asked::Rate { micropages_per_s } => {
            is_paced(micropages_per_s, task.period, slot_us, task.writes)
                && task.work == task.writes
        }
    }
}

/// Whether a deadline is at most until a task asks again.
fn is_due_before_next(slot_us: u32, asked: &Asked, deadline: u32) -> bool
    ensures { IsTrue result → IsDue slot_us asked.now None deadline }
{
    match *asked {
        Asked::Periodic { period_us, .. } => is_within(deadline, slot_us, period_us),
        Asked::Burst { every_us, .. } => is_within(deadline, slot_us, every_us),
        Asked::Rate { micropages_per_s } => is_paced(micropages_per_s, deadline, slot_us, 1),
    }
}

/// Whether a deadline is at most that of what a task needs.
fn is_due(slot_us: u32, need: &Need, deadline: u32) -> bool
    ensures { IsTrue result → IsDue slot_us need.now.asked need.now.deadline_us deadline }
{
    match need.deadline_us {
        Some(deadline_us) => is_within(deadline, slot_us, deadline_us),
        None => is_due_before_next(slot_us, &need.asked, deadline),
    }
}

/// Whether the terms of a task are of what it needs.
fn is_task_of(slot_us: u32, need: &Need, task: &TaskTerms) -> bool
    ensures { IsTrue result → IsTaskOf slot_us need.now task.now }
{
    does_work(slot_us, &need.asked, task) && is_due(slot_us, need, task.deadline)
}

/// Whether the times of a task are of what it needs.
fn is_timed_task(slot_us: u32, need: &Need, task: &TaskTimes) -> bool
    ensures { IsTrue result → IsTimedTask slot_us need.now task.now }
{
    let terms = TaskTerms {
        period: task.period,
        deadline: task.period,
        held: task.period,
        work: task.work,
        writes: task.writes,
        collect_period: task.collect_period,
        collect_deadline: task.collect_period,
    };
    is_task_of(slot_us, need, &terms)
}

/// Whether the times of tasks are, one after the other, what these need.
fn are_timed_tasks(slot_us: u32, needs: &[Need], tasks: &[TaskTimes]) -> bool
    ensures { IsTrue result → AllZip (IsTimedTask slot_us) needs.now tasks.now }
{
    if needs.len() != tasks.len() {
        return false;
    }
    for i in 0..needs.len() {
        if !is_timed_task(slot_us, &needs[i], &tasks[i]) {
            return false;
        }
    }
    true
}

/// Whether the terms of tasks are, one after the other, what these need.
fn are_tasks_of(slot_us: u32, needs: &[Need], tasks: &[TaskTerms]) -> bool
    ensures { IsTrue result → AllZip (IsTaskOf slot_us) needs.now tasks.now }
{
    if needs.len() != tasks.len() {
        return false;
    }
    for i in 0..needs.len() {
        if !is_task_of(slot_us, &needs[i], &tasks[i]) {
            return false;
        }
    }
    true
}

/// Whether a plan has what a datasheet says of its part, with slots of this length.
fn is_of_part(sheet: &Sheet, slot_us: u32, plan: &DiePlan) -> bool
    ensures { IsTrue result → IsOfPart sheet.now slot_us plan.now }
{
    let part = &sheet.part;
    plan.shape.blocks == part.blocks
        && plan.shape.pages == part.pages
        && plan.logical == part.logical
        && part.allows_slot(slot_us)
        && holds_commands(part, slot_us, plan.shape.erase_slots)
        && part.allows_erases(plan.shape.erase_slots, sheet.needs.len())
}

/// Whether a plan's times are what these tasks need.
fn has_tasks_of(slot_us: u32, needs: &[Need], plan: &DiePlan) -> bool
    ensures { IsTrue result → IsSomeAnd plan.now.times (λ times. AllZip (IsTimedTask slot_us) needs.now times.tasks) }
{
    match &plan.times {
        Some(times) => are_timed_tasks(slot_us, needs, times.tasks.as_slice()),
        None => false,
    }
}

/// Whether a plan with times is one of a datasheet, with slots of this length. It isn't put to its test.
pub fn is_plan_of(sheet: &Sheet, slot_us: u32, plan: &DiePlan) -> bool
    ensures { IsTrue result → IsPlanOf sheet.now slot_us plan.now }
{
    is_of_part(sheet, slot_us, plan) && has_tasks_of(slot_us, sheet.needs.as_slice(), plan)
}

/// Whether a plan with terms is one of a datasheet, with slots of this length. It isn't put to its tests.
pub fn is_terms_of(sheet: &Sheet, slot_us: u32, die: &DieTerms) -> bool
    ensures { IsTrue result → IsTermsOf sheet.now slot_us die.now }
{
    is_of_part(sheet, slot_us, &die.plan)
        && are_tasks_of(slot_us, sheet.needs.as_slice(), die.terms.tasks.as_slice())
}
