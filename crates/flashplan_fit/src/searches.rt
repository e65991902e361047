//! The search for a plan. It tries the lengths of a slot from the shortest on, and takes of the first that serves the
//! plan with the least demand, before others one whose periods end in a life. That it is the best of all is promised by
//! nobody.

ghost use Rattle.std.specs.Prelude.{IfOk, IfSome};
ghost use Rattle.flashplan_fit.specs.Fits.{IsPlanOf};

use crate::datasheets::{InSlots, Need, Sheet};
use crate::faults::Reason;
use crate::lives::{Life, life_by};
use crate::plans::{Choice, caps_of, collect_period, collection_work, plan_of, untimed_plan};
use crate::slots::{common_of, divisors, lengths, periods};
use plan_rules::{bound, plan_test};
use slot_types::{DiePlan, MAX_ERASE_SLOTS, MAX_SLOT, Refusal};
use std::alloc::Global;

/// Multiples of the least hyperperiod are tried, up to this one.
const MOST_TIMES: u32 = 16;

const MILLION: u64 = 1_000_000;

/// Of `common` slots all tasks take at most `demand`.
#[derive(Clone, Copy, Drop)]
pub struct Share {
    pub demand: u64,
    pub common: u32,
}

impl Share {
    /// Whether it is a smaller part than another one.
    fn is_less(self, than: Share) -> bool {
        let own = self.demand.saturating_mul(u64::from(than.common));
        own < than.demand.saturating_mul(u64::from(self.common))
    }
}

/// A plan, and how long its slots are.
#[derive(Drop)]
pub struct Found {
    pub plan: DiePlan,
    pub slot_us: u32,
    pub share: Share,
    pub life: Life,
}

/// What is looked for.
#[derive(Clone, Copy, PartialEq, Eq, Debug, Drop)]
pub enum Aim {
    /// A plan that is rather taken than the others that are tried.
    Best,
    /// Any plan: whether there is one.
    Any,
}

/// A plan that was found, or what stood against the closest that was tried.
#[derive(Drop)]
pub struct Searched {
    pub found: Option<Found>,
    pub reason: Reason,
}

/// Numbers of a plan that may pass.
#[derive(Clone, Copy, Drop)]
struct Pick {
    slot_us: u32,
    powers: bool,
    common: u32,
    alpha: u32,
    share: Share,
    life: Life,
}

impl Pick {
    /// Whether it is rather taken than another one.
    fn is_before(&self, other: &Pick) -> bool {
        let (own, others) = (self.life == Life::Ends, other.life == Life::Ends);
        if own == others {
            self.share.is_less(other.share)
        } else {
            own
        }
    }
}

/// How much a task takes of `common` slots. Where its collections can't give back what it writes, they come in each slot
/// at least.
fn taken(need: &Need, period: u32, collection: u32, choice: &Choice<'_>) -> u64 {
    let InSlots { work, writes, .. } = need.in_slots(choice.slot_us);
    let collect_period = collect_period(choice, period, writes).unwrap_or(1);
    let jobs = u64::from(work).saturating_mul(u64::from(choice.common / period.max(1)));
    let collections = u64::from(collection).saturating_mul(u64::from(
        choice.common / collect_period.max(1),
    ));
    jobs.saturating_add(collections)
}

/// Of a million slots, how many a task takes at least, rounded down: the longest collect period that gives back what it
/// writes need not divide any number here.
fn least_taken(wanted: &InSlots, period: u32, collection: u32, alpha: u32) -> u64 {
    let jobs = (u64::from(wanted.work) * MILLION).checked_div(u64::from(period));
    let given = u64::from(alpha).saturating_mul(u64::from(period));
    let collections = match given.checked_div(u64::from(wanted.writes)) {
        None => Some(0),
        Some(most) => (u64::from(collection) * MILLION).checked_div(most),
    };
    match (jobs, collections) {
        (Some(jobs), Some(collections)) => jobs.saturating_add(collections),
        _ => u64::MAX,
    }
}

/// How much all tasks take by a choice.
fn share_of(sheet: &Sheet, erase_slots: u32, choice: &Choice<'_>) -> Share {
    let collection = collection_work(&sheet.part, erase_slots, choice.alpha);
    let mut demand: u64 = 0;
    for (need, period) in sheet.needs.as_slice().iter().zip(choice.periods) {
        demand = demand.saturating_add(taken(need, *period, collection, choice));
    }
    Share {
        demand,
        common: choice.common,
    }
}

/// Where the periods of a choice may end; none where it makes no plan.
fn life_of_choice(
    alloc: Global,
    sheet: &Sheet,
    choice: &Choice<'_>,
) -> Result<Option<Life>, Refusal> {
    let Some(plan) = plan_of(alloc, sheet, choice)? else {
        return Ok(None);
    };
    match &plan.times {
        Some(times) => Ok(Some(life_by(times.tasks.as_slice()))),
        None => Ok(None),
    }
}

/// What is tried for a datasheet: by the alphas with which its bound is met.
#[derive(Drop)]
struct Tries<'a> {
    alloc: Global,
    sheet: &'a Sheet,
    alphas: &'a [u32],
    aim: Aim,
    best: Option<Pick>,
    /// The least that is taken, also of those that don't pass, with the length of a slot.
    closest: Option<(Share, u32)>,
}

impl Tries<'_> {
    /// Notes how much is taken by a choice.
    fn note(&mut self, share: Share, slot_us: u32) {
        match self.closest {
            Some((least, _)) if !share.is_less(least) => {}
            _ => self.closest = Some((share, slot_us)),
        }
    }

    /// Tries a choice that takes no more slots than there are.
    fn keep(&mut self, choice: &Choice<'_>, share: Share, powers: bool) -> Result<(), Refusal> {
        if let Some(best) = &self.best {
            if self.aim == Aim::Any || best.life == Life::Ends && !share.is_less(best.share) {
                return Ok(());
            }
        }
        let Some(life) = life_of_choice(self.alloc, self.sheet, choice)? else {
            return Ok(());
        };
        let pick = Pick {
            slot_us: choice.slot_us,
            powers,
            common: choice.common,
            alpha: choice.alpha,
            share,
            life,
        };
        match &self.best {
            Some(best) if !pick.is_before(best) => {}
            _ => self.best = Some(pick),
        }
        Ok(())
    }

    /// Tries each alpha, with these periods. The greater alpha is, the less is taken: where the greatest takes more slots
    /// than there are, or any plan is looked for, no other is tried.
    fn try_alphas(
        &mut self,
        erase_slots: u32,
        choice: Choice<'_>,
        powers: bool,
    ) -> Result<(), Refusal> {
        let Some(greatest) = self.alphas.last() else {
            return Ok(());
        };
        let most = Choice {
            alpha: *greatest,
            ..choice
        };
        let share = share_of(self.sheet, erase_slots, &most);
        self.note(share, choice.slot_us);
        if share.demand > u64::from(share.common) {
            return Ok(());
        }
        if self.aim == Aim::Any {
            return self.keep(&most, share, powers);
        }
        for alpha in self.alphas {
            let choice = Choice {
                alpha: *alpha,
                ..choice
            };
            let share = share_of(self.sheet, erase_slots, &choice);
            if share.demand <= u64::from(share.common) {
                self.keep(&choice, share, powers)?;
            }
        }
        Ok(())
    }

    /// Whether more slots are asked for than there are, whatever collect periods are chosen.
    fn is_too_much(&self, erase_slots: u32, slot_us: u32, periods: &[u32]) -> bool {
        let Some(alpha) = self.alphas.last() else {
            return true;
        };
        let collection = collection_work(&self.sheet.part, erase_slots, *alpha);
        let mut asked: u64 = 0;
        for (need, period) in self.sheet.needs.as_slice().iter().zip(periods) {
            let least = least_taken(&need.in_slots(slot_us), *period, collection, *alpha);
            asked = asked.saturating_add(least);
        }
        asked > MILLION
    }

    /// Tries a length of a slot, with the periods as they are or as powers of two.
    fn try_length(&mut self, erase_slots: u32, slot_us: u32, powers: bool) -> Result<(), Refusal> {
        let periods = periods(self.alloc, self.sheet.needs.as_slice(), slot_us, powers)?;
        if self.aim == Aim::Any && self.is_too_much(erase_slots, slot_us, periods.as_slice()) {
            return Ok(());
        }
        let Some(least) = common_of(periods.as_slice()) else {
            return Ok(());
        };
        for times in 1..=MOST_TIMES {
            let common = least.saturating_mul(times);
            if common > MAX_SLOT {
                break;
            }
            let divisors = divisors(self.alloc, common)?;
            let choice = Choice {
                slot_us,
                periods: periods.as_slice(),
                common,
                divisors: divisors.as_slice(),
                alpha: 1,
            };
            self.try_alphas(erase_slots, choice, powers)?;
        }
        Ok(())
    }

    /// Whether there is a plan, whose periods end in a life if the best is looked for.
    fn is_content(&self) -> bool {
        match &self.best {
            Some(best) => self.aim == Aim::Any || best.life == Life::Ends,
            None => false,
        }
    }

    /// Whether the part allows erases of `erase_slots` slots.
    fn allows(&self, erase_slots: u32) -> bool {
        let tasks = self.sheet.needs.len();
        self.sheet.part.allows_erases(erase_slots, tasks)
    }

    /// Tries the lengths of a slot from the shortest on, until there is a plan whose periods end in a life. Answers the
    /// fewest slots of an erase that were too many, if no length had fewer.
    fn try_lengths(&mut self, lengths: &[u32]) -> Result<Option<u32>, Refusal> {
        let mut fewest: Option<u32> = None;
        for slot_us in lengths {
            match self.sheet.part.erase_slots(*slot_us) {
                Some(slots) if slots <= MAX_ERASE_SLOTS && self.allows(slots) => {
                    self.try_length(slots, *slot_us, false)?;
                    if !self.is_content() {
                        self.try_length(slots, *slot_us, true)?;
                    }
                }
                Some(slots) => fewest = Some(slots.min(fewest.unwrap_or(u32::MAX))),
                None => {}
            }
            if self.is_content() {
                break;
            }
        }
        Ok(fewest)
    }
}

/// Whether a part and its tasks meet the bound with an alpha.
fn meets_bound(alloc: Global, sheet: &Sheet, alpha: u32) -> Result<bool, Refusal> {
    let slot_us = sheet.first_slot();
    let caps = caps_of(alloc, sheet.needs.as_slice(), slot_us, alpha)?;
    Ok(bound(&untimed_plan(&sheet.part, alpha, caps)).is_ok())
}

/// The alphas with which a part and its tasks meet the bound, rising; where any plan is looked for, the greatest alone.
fn alphas_of(alloc: Global, sheet: &Sheet, aim: Aim) -> Result<Vec<u32>, Refusal> {
    let mut alphas = Vec::new(alloc);
    let pages = sheet.part.pages;
    for back in 0..pages {
        let alpha = match aim {
            Aim::Best => back + 1,
            Aim::Any => pages - back,
        };
        if meets_bound(alloc, sheet, alpha)? {
            alphas.push(alpha)?;
            if aim == Aim::Any {
                break;
            }
        }
    }
    Ok(alphas)
}

/// The plan of a pick, put to the test.
fn found_of(alloc: Global, sheet: &Sheet, pick: &Pick) -> Result<Option<Found>, Refusal>
    ensures of_sheet { IfOk result (λ made. IfSome made (λ found.
        IsPlanOf sheet.now found.slot_us found.plan)) }
{
    let periods = periods(alloc, sheet.needs.as_slice(), pick.slot_us, pick.powers)?;
    let divisors = divisors(alloc, pick.common)?;
    let choice = Choice {
        slot_us: pick.slot_us,
        periods: periods.as_slice(),
        common: pick.common,
        divisors: divisors.as_slice(),
        alpha: pick.alpha,
    };
    match plan_of(alloc, sheet, &choice)? {
        Some(plan) => Ok(Some(Found {
            plan,
            slot_us: pick.slot_us,
            share: pick.share,
            life: pick.life,
        })),
        None => Ok(None),
    }
}

/// Whether a task's period or deadline is shorter than the shortest slot that is tried.
fn has_short_period(sheet: &Sheet) -> bool {
    let shortest = sheet.first_slot();
    for need in sheet.needs.as_slice() {
        let wanted = need.in_slots(shortest);
        if wanted.period == 0 || wanted.deadline == 0 {
            return true;
        }
    }
    false
}

/// What stands against each slot that is tried: it is to be too short for the part, or too long for a task.
pub fn slot_reason(sheet: &Sheet) -> Option<Reason> {
    let (slot_us, least) = (sheet.first_slot(), sheet.least_slot());
    if sheet.part.slot_us.is_some() && slot_us < least {
        return Some(Reason::Slot { slot_us, least });
    }
    if has_short_period(sheet) {
        return Some(Reason::Period { slot_us });
    }
    None
}

/// What stood against the closest that was tried.
fn reason_of(
    sheet: &Sheet,
    alphas: &[u32],
    closest: Option<(Share, u32)>,
    erase: Option<u32>,
) -> Reason {
    if let Some(reason) = slot_reason(sheet) {
        return reason;
    }
    match (closest, erase) {
        (Some((share, slot_us)), _) => Reason::Demand {
            demand: share.demand,
            common: share.common,
            slot_us,
        },
        (None, Some(slots)) if !alphas.is_empty() => Reason::Erase { slots },
        _ => Reason::Bound,
    }
}

/// Looks for a plan of a datasheet. The only refusal is NoMemory.
pub fn search(alloc: Global, sheet: &Sheet, aim: Aim) -> Result<Searched, Refusal>
    ensures { IfOk result (λ searched. IfSome searched.found (λ found.
        IsPlanOf sheet.now found.slot_us found.plan)) }
{
    let alphas = alphas_of(alloc, sheet, aim)?;
    let lengths = lengths(alloc, sheet)?;
    let mut tries = Tries {
        alloc,
        sheet,
        alphas: alphas.as_slice(),
        aim,
        best: None,
        closest: None,
    };
    let erase = tries.try_lengths(lengths.as_slice())?;
    let found = match &tries.best {
        Some(pick) => found_of(alloc, sheet, pick)?,
        None => None,
    };
    let reason = reason_of(sheet, alphas.as_slice(), tries.closest, erase);
    Ok(Searched { found, reason })
}
