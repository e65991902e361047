//! The page of a datasheet.

ghost use Rattle.std.specs.Prelude.{◌≡◌, IfOk, OnErr, OnOk};
ghost use Rattle.text_base.specs.Writing.{IsNotWhole};
ghost use Rattle.flashplan_commands.specs.Acts.{EndsDesign, IsUnfound};
ghost use Rattle.flashplan_commands.specs.Designing.{IsDesignOf, PrintsDesign};

use crate::fitting::{end_fit, read_sheet};
use flashplan_design_pages::design;
use flashplan_fit::FitFault;
use std::alloc::Global;
use std::io::{Read, Write};
use text_base::{Output, write_whole};

/// The page of a datasheet.
#[tactic(auto, using(crate::proofs::DesignedSo::design_of))]
fn page_of<R: Read + Drop>(alloc: Global, sheet: R) -> Result<Vec<u8>, FitFault>
    ensures { IfOk result (λ page. IsDesignOf (R.remaining sheet) page.items) }
{
    let text = read_sheet(alloc, sheet)?;
    let page = design(alloc, &text)?;
    Ok(page)
}

/// Prints the page of a datasheet.
fn print_design<R: Read + Drop, W: Output>(
    alloc: Global,
    sheet: R,
    out: &mut W,
) -> Result<(), FitFault>
    ensures printed { OnOk result
        (PrintsDesign (R.remaining sheet) (W.contents out.old) (W.contents out.new)) }
    ensures part { OnErr result
        (IsNotWhole W.contents W.has_failed (PrintsDesign (R.remaining sheet)) out.old out.new) }
    ensures unfound { IsUnfound result → out.new ≡ out.old }
{
    let page = page_of(alloc, sheet)?;
    match write_whole(out, &page) {
        Ok(()) => Ok(()),
        Err(refusal) => Err(FitFault::Refused(refusal)),
    }
}

/// Prints the page of a datasheet, whole. Answers the status: 0; 3 where no plan was found, which is reported, and nothing
/// written; 1 where something was refused, which is reported: nothing was written then, or not the whole.
pub fn act_design<R: Read + Drop, W: Output, E: Write>(
    alloc: Global,
    sheet: R,
    out: &mut W,
    err: &mut E,
) -> u8
    ensures { EndsDesign W.contents W.has_failed (R.remaining sheet) out.old out.new result }
{
    let designed = print_design(alloc, sheet, out);
    end_fit(err, designed)
}
