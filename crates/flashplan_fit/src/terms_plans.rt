//! Plans with terms that are tried.

ghost use Rattle.std.specs.Prelude.{IfOk, IfSome};
ghost use Rattle.std.specs.List.{AllZip};
ghost use Rattle.flashplan_fit.specs.Fits.{IsTaskOf, IsTermsOf};

use crate::datasheets::{InSlots, Need, Sheet};
use crate::plans::untimed_plan;
use demand_rules::{TaskTerms, Terms, TermsList};
use plan_rules::bound;
use slot_types::{Caps, DiePlan, MAX_SLOT, Refusal, Shape};
use std::alloc::Global;
use terms_texts::DieTerms;

/// A collection's time to its deadline is chosen in sixteenths of its period. With 16 of them it may take the whole
/// period.
pub const SIXTEENTHS: u32 = 16;

/// The slots from a collection's arrival to its deadline, of a task that writes nothing, where it may take its whole
/// period. One comes in the first slot of a life alone, and the life goes on until it is due.
const RARE_DUE: u32 = 16_384;

/// What is chosen for a part and its tasks.
#[derive(Clone, Copy)]
pub struct TermsChoice {
    pub slot_us: u32,
    pub alpha: u32,
    /// In how many sixteenths of its period a collection is due.
    pub due: u32,
}

/// The longest collect period that gives a task back what it writes; of one that writes nothing, the longest that there
/// is.
fn longest_collect_period(alpha: u32, wanted: &InSlots) -> u32 {
    let given = u64::from(alpha).saturating_mul(u64::from(wanted.period));
    match given.checked_div(u64::from(wanted.writes)) {
        None => MAX_SLOT,
        Some(most) => u32::try_from(most).unwrap_or(u32::MAX).min(MAX_SLOT),
    }
}

/// `due` sixteenths of `slots` slots, at least 1.
fn part_of(slots: u32, due: u32) -> u32 {
    let part = u64::from(slots).saturating_mul(u64::from(due)) / u64::from(SIXTEENTHS);
    u32::try_from(part).unwrap_or(u32::MAX).max(1)
}

/// The longest in which a task's collections may be due.
fn longest_due(collect_period: u32, wanted: &InSlots) -> u32 {
    if wanted.writes == 0 {
        RARE_DUE
    } else {
        collect_period
    }
}

/// The least cap that covers what a task writes in a period, and while a job is held, and two collections.
fn least_cap(alpha: u32, wanted: &InSlots) -> u32 {
    let held = u64::from(wanted.writes).saturating_mul(u64::from(wanted.deadline));
    let while_held = held.div_ceil(u64::from(wanted.period).max(1));
    u32::try_from(while_held)
        .unwrap_or(u32::MAX)
        .saturating_add(wanted.writes)
        .saturating_add(alpha.saturating_mul(2))
}

/// What all tasks have in slots of a length.
fn wanted_of(alloc: Global, needs: &[Need], slot_us: u32) -> Result<Vec<InSlots>, Refusal> {
    let mut wanted = Vec::with_capacity(alloc, needs.len())?;
    for need in needs {
        wanted.push(need.in_slots(slot_us))?;
    }
    Ok(wanted)
}

/// The least caps that do.
fn caps_of(alloc: Global, wanted: &[InSlots], alpha: u32) -> Result<Caps, Refusal> {
    let mut caps = Caps::new(alloc);
    for task in wanted {
        caps.push(least_cap(alpha, task))?;
    }
    Ok(caps)
}

/// The greatest alpha with which a part and its tasks meet the bound, with slots of a length.
pub fn greatest_alpha(alloc: Global, sheet: &Sheet, slot_us: u32) -> Result<Option<u32>, Refusal> {
    let wanted = wanted_of(alloc, sheet.needs.as_slice(), slot_us)?;
    let pages = sheet.part.pages;
    for back in 0..pages {
        let alpha = pages - back;
        let caps = caps_of(alloc, wanted.as_slice(), alpha)?;
        if bound(&untimed_plan(&sheet.part, alpha, caps)).is_ok() {
            return Ok(Some(alpha));
        }
    }
    Ok(None)
}

/// The terms of a task. Each of its jobs comes at its release.
fn task_of(need: &Need, choice: &TermsChoice) -> TaskTerms
    ensures { IsTaskOf choice.now.slot_us need.now result }
{
    let wanted = need.in_slots(choice.slot_us);
    let collect_period = longest_collect_period(choice.alpha, &wanted);
    TaskTerms {
        period: wanted.period,
        deadline: wanted.deadline,
        held: wanted.deadline,
        work: wanted.work,
        writes: wanted.writes,
        collect_period,
        collect_deadline: part_of(longest_due(collect_period, &wanted), choice.due),
    }
}

/// The terms of all tasks.
fn tasks_of(alloc: Global, needs: &[Need], choice: &TermsChoice) -> Result<TermsList, Refusal>
    ensures { IfOk result (AllZip (IsTaskOf choice.now.slot_us) needs.now) }
{
    let mut tasks = TermsList::new(alloc);
    for i in 0..needs.len() {
        let task = task_of(&needs[i], choice);
        tasks.push(task)?;
    }
    Ok(tasks)
}

/// The plan of a choice; none where a slot isn't as long as it is to be, doesn't hold each command, or has to hold a whole
/// erase and doesn't. It isn't judged. The only refusal is NoMemory.
pub fn die_of(
    alloc: Global,
    sheet: &Sheet,
    choice: &TermsChoice,
) -> Result<Option<DieTerms>, Refusal>
    ensures { IfOk result (λ made. IfSome made (IsTermsOf sheet.now choice.now.slot_us)) }
{
    let part = &sheet.part;
    let needs = sheet.needs.as_slice();
    let Some(erase_slots) = part.erase_slots(choice.slot_us) else {
        return Ok(None);
    };
    if !part.allows_erases(erase_slots, sheet.needs.len()) || !part.allows_slot(choice.slot_us) {
        return Ok(None);
    }
    let wanted = wanted_of(alloc, needs, choice.slot_us)?;
    let caps = caps_of(alloc, wanted.as_slice(), choice.alpha)?;
    let tasks = tasks_of(alloc, needs, choice)?;
    Ok(Some(DieTerms {
        plan: DiePlan {
            shape: Shape {
                blocks: part.blocks,
                pages: part.pages,
                erase_slots,
            },
            logical: part.logical,
            alpha: choice.alpha,
            caps,
            times: None,
        },
        terms: Terms { tasks },
    }))
}
