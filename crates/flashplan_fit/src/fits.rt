//! From a datasheet to the text of a plan.

ghost use Rattle.std.specs.Prelude.{◌≡◌, ◌++◌, ℕ, IfOk, IsTrue, List};
ghost use Rattle.flashplan_fit.specs.Fits.{IsPlanFor, IsTextOfPlan, IsTextOfTerms, slot_line};
ghost use Rattle.flashplan_fit.specs.Sheets.{IsSheetOf};

use crate::advices::advice_of;
use crate::datasheets::Sheet;
use crate::faults::{FitFault, Reason, Unfound};
use crate::found_texts::{terms_text_of, text_of};
use crate::plan_checks::{is_plan_of, is_terms_of};
use crate::searches::{Aim, Found, search};
use crate::sheet_texts::read_sheet;
use crate::terms_searches::{FoundTerms, search_terms};
use plan_rules::plan_test;
use plan_texts::read_plan;
use slot_types::Refusal;
use std::alloc::Global;
use terms_texts::read_terms;

/// Whether a text is a plan of one die with times, a plan of the datasheet, which meets its bound and passes its test.
fn is_text_of_plan(alloc: Global, sheet: &Sheet, slot_us: u32, text: &[u8]) -> Result<bool, Refusal>
    ensures { IfOk result (λ is_it. IsTrue is_it → IsTextOfPlan sheet.now slot_us text.now) }
{
    let store = read_plan(alloc, text)?;
    let [die] = store.as_slice() else {
        return Ok(false);
    };
    Ok(sheet.is_plain() && is_plan_of(sheet, slot_us, die) && plan_test(die).is_ok())
}

/// Whether a text is a plan of one die with terms, a plan of the datasheet, which meets its bound and passes its tests.
fn is_text_of_terms(
    alloc: Global,
    sheet: &Sheet,
    slot_us: u32,
    text: &[u8],
) -> Result<bool, Refusal>
    ensures { IfOk result (λ is_it. IsTrue is_it → IsTextOfTerms sheet.now slot_us text.now) }
{
    let store = match read_terms(alloc, text) {
        Ok(store) => store,
        Err(refusal) => return Err(refusal.refusal()),
    };
    let [die] = store.as_slice() else {
        return Ok(false);
    };
    Ok(is_terms_of(sheet, slot_us, die))
}

/// The text of a plan that was found. It is read again, since what is promised is promised of the text.
fn checked_text(alloc: Global, sheet: &Sheet, found: &Found) -> Result<Vec<u8>, Refusal>
    ensures plan { IfOk result (λ text. (bytes : List ℕ) → IsSheetOf bytes sheet.now → IsPlanFor bytes text.items) }
    ensures slot { IfOk result (λ text. (rest : List ℕ) × (text.items ≡ slot_line found.now.slot_us ++ rest)) }
{
    let text = text_of(alloc, &sheet.part, found)?;
    if is_text_of_plan(alloc, sheet, found.slot_us, &text)? {
        Ok(text)
    } else {
        Err(Refusal::BadPlan)
    }
}

/// The text of a plan with terms that was found, which is read again, too.
fn checked_terms(alloc: Global, sheet: &Sheet, found: &FoundTerms) -> Result<Vec<u8>, Refusal>
    ensures plan { IfOk result (λ text. (bytes : List ℕ) → IsSheetOf bytes sheet.now → IsPlanFor bytes text.items) }
    ensures slot { IfOk result (λ text. (rest : List ℕ) × (text.items ≡ slot_line found.now.slot_us ++ rest)) }
{
    let text = terms_text_of(alloc, &sheet.part, found)?;
    if is_text_of_terms(alloc, sheet, found.slot_us, &text)? {
        Ok(text)
    } else {
        Err(Refusal::BadPlan)
    }
}

/// Why no plan was found, and what would do.
fn unfound(alloc: Global, sheet: &Sheet, reason: Reason) -> Result<Unfound, Refusal> {
    Ok(Unfound {
        reason,
        whole_erase: sheet.whole_erase(),
        advice: advice_of(alloc, sheet)?,
    })
}

/// The text of a plan, and how long its slots are, in microseconds.
#[derive(Drop)]
struct Text {
    bytes: Vec<u8>,
    slot_us: u32,
}

/// The text of a plan with times for a datasheet.
fn fit_times(alloc: Global, sheet: &Sheet) -> Result<Text, FitFault>
    ensures plan { IfOk result (λ text. (bytes : List ℕ) → IsSheetOf bytes sheet.now → IsPlanFor bytes text.bytes.items) }
    ensures slot { IfOk result (λ text. (rest : List ℕ) × (text.bytes.items ≡ slot_line text.slot_us ++ rest)) }
{
    let searched = search(alloc, sheet, Aim::Best)?;
    match &searched.found {
        Some(found) => Ok(Text {
            bytes: checked_text(alloc, sheet, found)?,
            slot_us: found.slot_us,
        }),
        None => Err(FitFault::NotFound(unfound(alloc, sheet, searched.reason)?)),
    }
}

/// The text of a plan with terms for a datasheet.
fn fit_terms(alloc: Global, sheet: &Sheet) -> Result<Text, FitFault>
    ensures plan { IfOk result (λ text. (bytes : List ℕ) → IsSheetOf bytes sheet.now → IsPlanFor bytes text.bytes.items) }
    ensures slot { IfOk result (λ text. (rest : List ℕ) × (text.bytes.items ≡ slot_line text.slot_us ++ rest)) }
{
    let searched = search_terms(alloc, sheet, Aim::Best)?;
    match &searched.found {
        Some(found) => Ok(Text {
            bytes: checked_terms(alloc, sheet, found)?,
            slot_us: found.slot_us,
        }),
        None => Err(FitFault::NotFound(unfound(alloc, sheet, searched.reason)?)),
    }
}

/// The text of a plan for what a datasheet says.
fn fit_read(alloc: Global, sheet: &Sheet) -> Result<Text, FitFault>
    ensures plan { IfOk result (λ text. (bytes : List ℕ) → IsSheetOf bytes sheet.now → IsPlanFor bytes text.bytes.items) }
    ensures slot { IfOk result (λ text. (rest : List ℕ) × (text.bytes.items ≡ slot_line text.slot_us ++ rest)) }
{
    if sheet.is_plain() {
        fit_times(alloc, sheet)
    } else {
        fit_terms(alloc, sheet)
    }
}

/// A plan that was found, and for what.
#[derive(Drop)]
pub struct Fitted {
    /// The plan's text.
    pub text: Vec<u8>,
    /// How long its slots are, in microseconds.
    pub slot_us: u32,
    /// What the datasheet says.
    pub sheet: Sheet,
}

/// A plan for a datasheet, as [`fit`] finds it, with the length of its slots, and what the datasheet says. It is refused as
/// `fit` refuses it.
pub fn fit_sheet(alloc: Global, sheet: &[u8]) -> Result<Fitted, FitFault>
    ensures plan { IfOk result (λ fitted. IsPlanFor sheet.now fitted.text.items) }
    ensures slot { IfOk result (λ fitted. (rest : List ℕ) × (fitted.text.items ≡ slot_line fitted.slot_us ++ rest)) }
    ensures sheet { IfOk result (λ fitted. IsSheetOf sheet.now fitted.sheet) }
{
    let read = read_sheet(alloc, sheet)?;
    let Text { bytes, slot_us } = fit_read(alloc, &read)?;
    Ok(Fitted {
        text: bytes,
        slot_us,
        sheet: read,
    })
}

/// The text of a plan for a datasheet, which is a TOML text: a plan of one die that is a plan of the datasheet, meets its
/// bound and passes its test. The plan has terms where a task asks for a deadline, bursts or a rate, and else times. Its
/// text begins with how long a slot is, and says what is to spare, and of a plan with times where no life is long enough
/// for its periods to end. Else why there is none: the datasheet's fault, and where; or what stood against the closest
/// plan that was tried, and with which other numbers, one at a time, a plan is found; or NoMemory.
pub fn fit(alloc: Global, sheet: &[u8]) -> Result<Vec<u8>, FitFault>
    ensures { IfOk result (λ text. IsPlanFor sheet.now text.items) }
{
    let Fitted {
        text,
        slot_us: _,
        sheet: _,
    } = fit_sheet(alloc, sheet)?;
    Ok(text)
}
