//! The search for a plan with terms. It tries the lengths of a slot from the shortest on. With each it takes the greatest
//! alpha that meets the bound, and the longest collect periods that give back what is written: with these the least is
//! asked of any interval by those that write. That the plan is the best of all is promised by nobody.

ghost use Rattle.std.specs.Prelude.{IfOk, IfSome};
ghost use Rattle.flashplan_fit.specs.Fits.{IsTermsOf};

use crate::datasheets::Sheet;
use crate::faults::Reason;
use crate::searches::{Aim, slot_reason};
use crate::slots::lengths;
use crate::terms_plans::{SIXTEENTHS, TermsChoice, die_of, greatest_alpha};
use demand_rules::{DemandFault, DemandLoad, TermsFault, terms_test};
use plan_rules::bound;
use slot_types::{MAX_ERASE_SLOTS, Refusal};
use std::alloc::Global;
use terms_texts::DieTerms;

/// How many lengths of a slot are tried, in addition to the shortest.
const MOST: usize = 4;

/// The fewest sixteenths of its period in which a collection is due.
const FEWEST: u32 = 4;

/// A plan with terms, how long its slots are, and what is asked of them.
#[derive(Drop)]
pub struct FoundTerms {
    pub die: DieTerms,
    pub slot_us: u32,
    pub load: DemandLoad,
}

/// A plan that was found, or what stood against the closest that was tried.
#[derive(Drop)]
pub struct SearchedTerms {
    pub found: Option<FoundTerms>,
    pub reason: Reason,
}

/// Why a choice is no plan that passes.
#[derive(Clone, Copy, Drop)]
enum Miss {
    /// It doesn't meet its bound, or a slot doesn't hold what it has to.
    Bound,
    Fails(TermsFault),
}

/// The plan of a choice, put to the test.
fn tried(
    alloc: Global,
    sheet: &Sheet,
    choice: &TermsChoice,
) -> Result<Result<FoundTerms, Miss>, Refusal>
    ensures { IfOk result (λ made. IfOk made (λ found. IsTermsOf sheet.now found.slot_us found.die)) }
{
    let Some(die) = die_of(alloc, sheet, choice)? else {
        return Ok(Err(Miss::Bound));
    };
    if bound(&die.plan).is_err() {
        return Ok(Err(Miss::Bound));
    }
    match terms_test(&die.plan, &die.terms) {
        Ok(load) => Ok(Ok(FoundTerms {
            die,
            slot_us: choice.slot_us,
            load,
        })),
        Err(fault) => Ok(Err(Miss::Fails(fault))),
    }
}

/// What stood against a choice.
fn reason_of(miss: Miss, slot_us: u32) -> Reason {
    match miss {
        Miss::Bound => Reason::Bound,
        Miss::Fails(TermsFault::Demand(DemandFault::Load(load))) => Reason::Load { load, slot_us },
        Miss::Fails(TermsFault::Demand(DemandFault::Overfull { slots, excess })) => {
            Reason::Overfull {
                slots,
                excess,
                slot_us,
            }
        }
        Miss::Fails(_) => Reason::Writes { slot_us },
    }
}

/// How far a choice was from passing: in microseconds of its shortest overfull interval, where it has one.
fn distance(reason: &Reason) -> u64 {
    let far = u64::MAX / 2;
    match *reason {
        Reason::Overfull {
            excess,
            slot_us,
            ..
        } => excess.saturating_mul(u64::from(slot_us)).min(far),
        Reason::Load { load, .. } => far.saturating_add(load),
        _ => u64::MAX,
    }
}

/// The closer of two, the first where both are as close.
fn closer(first: Option<Reason>, second: Reason) -> Reason {
    match first {
        Some(first) if distance(&first) <= distance(&second) => first,
        _ => second,
    }
}

/// The fewest sixteenths of its period, from four on, in which a collection may be due for the plan to pass, found by
/// halves: with sixteen it passes.
fn least_due(alloc: Global, sheet: &Sheet, choice: &TermsChoice) -> Result<u32, Refusal> {
    let (mut fails, mut passes) = (FEWEST - 1, SIXTEENTHS);
    for _ in 0..4 {
        let due = fails.saturating_add(passes) / 2;
        if passes.saturating_sub(fails) <= 1 {
            break;
        }
        match tried(alloc, sheet, &TermsChoice { due, ..*choice })? {
            Ok(_) => passes = due,
            Err(_) => fails = due,
        }
    }
    Ok(passes)
}

/// A plan whose collections are due sooner, so that a life may end more often; else the plan as it is.
fn with_sooner_collections(
    alloc: Global,
    sheet: &Sheet,
    choice: &TermsChoice,
    found: FoundTerms,
) -> Result<FoundTerms, Refusal>
    requires { IsTermsOf sheet.now found.slot_us found.die }
    ensures { IfOk result (λ found. IsTermsOf sheet.now found.slot_us found.die) }
{
    let due = least_due(alloc, sheet, choice)?;
    match tried(alloc, sheet, &TermsChoice { due, ..*choice })? {
        Ok(sooner) => Ok(sooner),
        Err(_) => Ok(found),
    }
}

/// The plan with slots of a length, or what stands against it.
fn try_length(
    alloc: Global,
    sheet: &Sheet,
    aim: Aim,
    slot_us: u32,
) -> Result<Result<FoundTerms, Reason>, Refusal>
    ensures { IfOk result (λ made. IfOk made (λ found. IsTermsOf sheet.now found.slot_us found.die)) }
{
    let Some(alpha) = greatest_alpha(alloc, sheet, slot_us)? else {
        return Ok(Err(Reason::Bound));
    };
    let choice = TermsChoice {
        slot_us,
        alpha,
        due: SIXTEENTHS,
    };
    match tried(alloc, sheet, &choice)? {
        Err(miss) => Ok(Err(reason_of(miss, slot_us))),
        Ok(found) if aim == Aim::Any => Ok(Ok(found)),
        Ok(found) => Ok(Ok(with_sooner_collections(alloc, sheet, &choice, found)?)),
    }
}

/// The lengths of a slot with which an erase has as many slots as it may, at most five; and the fewest that were too many,
/// if an erase has more.
fn usable_lengths(alloc: Global, sheet: &Sheet) -> Result<(Vec<u32>, Option<u32>), Refusal> {
    let lengths = lengths(alloc, sheet)?;
    let mut usable = Vec::with_capacity(alloc, lengths.len())?;
    let mut fewest: Option<u32> = None;
    let last = lengths.len().saturating_sub(1);
    for (i, slot_us) in lengths.iter().enumerate() {
        match sheet.part.erase_slots(*slot_us) {
            Some(slots) if slots > MAX_ERASE_SLOTS => {
                fewest = Some(slots.min(fewest.unwrap_or(u32::MAX)));
            }
            Some(slots) if sheet.part.allows_erases(slots, sheet.needs.len()) => {
                if i == last || usable.len() < MOST {
                    usable.push(*slot_us)?;
                }
            }
            _ => {}
        }
    }
    Ok((usable, fewest))
}

/// What stood against the closest that was tried.
fn closest_reason(sheet: &Sheet, closest: Option<Reason>, fewest: Option<u32>) -> Reason {
    if let Some(reason) = slot_reason(sheet) {
        return reason;
    }
    match (closest, fewest) {
        (Some(reason), _) => reason,
        (None, Some(slots)) => Reason::Erase { slots },
        (None, None) => Reason::Bound,
    }
}

/// Looks for a plan with terms of a datasheet. The only refusal is NoMemory.
pub fn search_terms(alloc: Global, sheet: &Sheet, aim: Aim) -> Result<SearchedTerms, Refusal>
    ensures { IfOk result (λ searched. IfSome searched.found (λ found.
        IsTermsOf sheet.now found.slot_us found.die)) }
{
    let (lengths, fewest) = usable_lengths(alloc, sheet)?;
    let mut closest = None;
    for slot_us in lengths.as_slice() {
        match try_length(alloc, sheet, aim, *slot_us)? {
            Ok(found) => {
                return Ok(SearchedTerms {
                    found: Some(found),
                    reason: Reason::Bound,
                });
            }
            Err(reason) => closest = Some(closer(closest, reason)),
        }
    }
    Ok(SearchedTerms {
        found: None,
        reason: closest_reason(sheet, closest, fewest),
    })
}
