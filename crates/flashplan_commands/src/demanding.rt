//! The picture of what a plan's tasks may ask for.

ghost use Rattle.std.specs.Prelude.{◌≡◌, OnErr, OnOk, if◌then◌else◌, is_ok};
ghost use Rattle.text_base.specs.Writing.{IsNotWhole};
ghost use Rattle.flashplan_commands.specs.Acts.{Ends, PrintsText};

use crate::endings::end_refused;
use flashplan_demand_pictures::{Undrawn, draw_demand};
use flashplan_terms_design::is_terms_text;
use plan_texts::{plan_text, read_plan};
use slot_types::Refusal;
use std::alloc::Global;
use std::io::{Read, Write};
use text_base::{FlaggedReader, Output, write_whole};

/// Why no picture is drawn.
#[derive(Clone, Copy, Drop)]
enum Unpictured {
    /// The plan is accepted, and has no terms.
    NoTerms,
    Undrawn(Undrawn),
}

impl From<Undrawn> for Unpictured {
    fn from(undrawn: Undrawn) -> Unpictured {
        Unpictured::Undrawn(undrawn)
    }
}

impl From<Refusal> for Unpictured {
    fn from(refusal: Refusal) -> Unpictured {
        Unpictured::Undrawn(Undrawn::Refused(refusal))
    }
}

/// The picture of a die of a plan with terms, whether or not it is accepted.
fn picture<R: Read + Drop>(alloc: Global, plan: R, die: u32) -> Result<Vec<u8>, Unpictured> {
    let text = plan_text(alloc, &mut FlaggedReader::new(plan))?;
    if is_terms_text(alloc, &text)? {
        let picture = draw_demand(alloc, &text, die)?;
        Ok(picture)
    } else {
        read_plan(alloc, &text)?;
        Err(Unpictured::NoTerms)
    }
}

/// Prints the picture of a die.
fn print_picture<R: Read + Drop, W: Output>(
    alloc: Global,
    plan: R,
    die: u32,
    out: &mut W,
) -> Result<(), Unpictured>
    ensures printed { OnOk result (PrintsText (W.contents out.old) (W.contents out.new)) }
    ensures part { OnErr result (IsNotWhole W.contents W.has_failed PrintsText out.old out.new) }
{
    let picture = picture(alloc, plan, die)?;
    write_whole(out, &picture)?;
    Ok(())
}

/// Reports why no picture is drawn of a plan with terms, and answers the status. A writer that fails is passed over.
fn end_undrawn<E: Write>(err: &mut E, die: u32, undrawn: Undrawn) -> u8
    ensures { result ≡ 1 }
{
    match undrawn {
        Undrawn::Refused(refusal) => end_refused(err, refusal),
        Undrawn::NoDie { .. } => end_refused(err, Refusal::UnknownDie),
        Undrawn::NoInterval => {
            let _ = writeln!(
                err,
                "error: die {die} has no picture: it doesn't meet its bound, a number of its tasks is out of its limits, or in the \
                 long run more is asked of it than it has; flashplan explain says which"
            );
            1
        }
    }
}

/// Answers the status of a picture, and reports why there is none. A writer that fails is passed over.
fn end_picture<E: Write>(err: &mut E, die: u32, drawn: Result<(), Unpictured>) -> u8
    ensures { result ≡ (if is_ok drawn then 0 else 1) }
{
    match drawn {
        Ok(()) => 0,
        Err(Unpictured::Undrawn(undrawn)) => end_undrawn(err, die, undrawn),
        Err(Unpictured::NoTerms) => {
            let _ = writeln!(
                err,
                "error: --demand is for plans with terms, and this one has none"
            );
            1
        }
    }
}

/// Prints the picture of what the tasks of a die of a plan with terms may ask for, as
/// [`draw_demand`](flashplan_demand_pictures::draw_demand) draws it, whole. Answers the status: 0, or 1 where something was
/// refused, which is reported: nothing was written then, or not the whole. A plan without terms is refused; one with terms
/// that don't pass their test is drawn, with the shortest interval of which too much is asked.
#[tactic(auto, using(crate::proofs::EndedSo::ends))]
pub fn act_demand<R: Read + Drop, W: Output, E: Write>(
    alloc: Global,
    plan: R,
    die: u32,
    out: &mut W,
    err: &mut E,
) -> u8
    ensures { Ends W.contents W.has_failed PrintsText out.old out.new result }
{
    let drawn = print_picture(alloc, plan, die, out);
    end_picture(err, die, drawn)
}
