//! The plan that is found for a datasheet.

ghost use Rattle.std.specs.Prelude.{◌≡◌, IfOk, OnErr, OnOk};
ghost use Rattle.text_base.specs.Writing.{IsNotWhole};
ghost use Rattle.flashplan_commands.specs.Acts.{EndsFit, IsFoundFor, IsReadOf, IsUnfound, PrintsPlanFor, fit_status};

use crate::endings::end_refused;
use flashplan_fit::{FitFault, fit};
use plan_texts::plan_text;
use slot_types::Refusal;
use std::alloc::Global;
use std::io::{Read, Write};
use text_base::{FlaggedReader, Output, write_whole};

/// What is read of a datasheet.
pub(crate) fn read_sheet<R: Read + Drop>(alloc: Global, sheet: R) -> Result<Vec<u8>, Refusal>
    ensures { IfOk result (λ text. IsReadOf (R.remaining sheet) text.items) }
{
    plan_text(alloc, &mut FlaggedReader::new(sheet))
}

/// The text of the plan that is found for a datasheet.
#[tactic(auto, using(crate::proofs::EndedSo::found_for))]
fn found_plan<R: Read + Drop>(alloc: Global, sheet: R) -> Result<Vec<u8>, FitFault>
    ensures { IfOk result (λ plan. IsFoundFor (R.remaining sheet) plan.items) }
{
    let text = read_sheet(alloc, sheet)?;
    let plan = fit(alloc, &text)?;
    Ok(plan)
}

/// Prints the plan that was found for a datasheet.
fn print_fit<R: Read + Drop, W: Output>(
    alloc: Global,
    sheet: R,
    out: &mut W,
) -> Result<(), FitFault>
    ensures printed { OnOk result
        (PrintsPlanFor (R.remaining sheet) (W.contents out.old) (W.contents out.new)) }
    ensures part { OnErr result
        (IsNotWhole W.contents W.has_failed (PrintsPlanFor (R.remaining sheet)) out.old out.new) }
    ensures unfound { IsUnfound result → out.new ≡ out.old }
{
    let plan = found_plan(alloc, sheet)?;
    match write_whole(out, &plan) {
        Ok(()) => Ok(()),
        Err(refusal) => Err(FitFault::Refused(refusal)),
    }
}

/// Reports why no plan was found, and answers the status. A writer that fails is passed over.
pub(crate) fn end_fit<E: Write>(err: &mut E, fitted: Result<(), FitFault>) -> u8
    ensures { result ≡ fit_status fitted }
{
    match fitted {
        Ok(()) => 0,
        Err(FitFault::Refused(refusal)) => end_refused(err, refusal),
        Err(FitFault::Sheet(fault)) => {
            let _ = writeln!(err, "error: {fault}");
            1
        }
        Err(FitFault::NotFound(unfound)) => {
            let _ = writeln!(err, "no plan was found: {unfound}");
            3
        }
    }
}

/// Prints the plan that is found for a datasheet, whole. Answers the status: 0; 3 where none was found, which is reported,
/// and nothing written; 1 where something was refused, which is reported: nothing was written then, or not the whole.
pub fn act_fit<R: Read + Drop, W: Output, E: Write>(
    alloc: Global,
    sheet: R,
    out: &mut W,
    err: &mut E,
) -> u8
    ensures { EndsFit W.contents W.has_failed (R.remaining sheet) out.old out.new result }
{
    let fitted = print_fit(alloc, sheet, out);
    end_fit(err, fitted)
}
