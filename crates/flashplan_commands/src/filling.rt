//! Full dies, whose checkpoint is put into a file.

ghost use Rattle.std.specs.Prelude.{◌≡◌, ◌≤◌, IfOk, OnErr, OnOk, length};
ghost use Rattle.text_base.specs.Writing.{IsNotWhole};
ghost use Rattle.flashplan_commands.specs.Acts.{EndsFill, PrintsFilled};

use crate::checkpoint_acts::{end_unrun, put_text};
use crate::endings::end_refused;
use crate::plan_faults::end_unread;
use crate::shelves::Shelf;
use crate::stores::{Unread, store_of};
use checkpoint_texts::{SavedStore, write_checkpoint};
use flashplan_arrivals::Fault as Unplanned;
use flashplan_checkpoint_runs::{RunFault, Unsaved, explain};
use flashplan_full_dies::{FillFault, Filled, MOST_LIVES, fill};
use slot_types::{Refusal, StorePlan};
use std::alloc::Global;
use std::io::{Read, Write};
use text_base::{Output, write_whole};

/// What is reported beside a plan without times.
const WANTED: &str =
    "fill wants a plan that is accepted, with times (version 2): flashplan explain says more";

/// Why no dies are filled.
#[derive(Clone, Copy, Drop)]
enum Unfilled {
    Unread(Unread),
    Fault(FillFault),
}

impl From<Unread> for Unfilled {
    fn from(unread: Unread) -> Unfilled {
        Unfilled::Unread(unread)
    }
}

impl From<FillFault> for Unfilled {
    fn from(fault: FillFault) -> Unfilled {
        Unfilled::Fault(fault)
    }
}

impl From<RunFault> for Unfilled {
    fn from(fault: RunFault) -> Unfilled {
        Unfilled::Fault(FillFault::Unrun(fault))
    }
}

impl From<Refusal> for Unfilled {
    fn from(refusal: Refusal) -> Unfilled {
        Unfilled::Unread(Unread::Refused(refusal))
    }
}

/// What stands on full dies, in sentences.
fn sentences_of(alloc: Global, store: &StorePlan, saved: &SavedStore) -> Result<Vec<u8>, Unfilled> {
    let mut text = Vec::new(alloc);
    explain(alloc, &mut text, store, saved)?;
    Ok(text)
}

/// Fills the dies of a plan, and prints what stands on them, which is made whole before its first byte.
fn print_filled<P: Read + Drop, W: Output>(
    alloc: Global,
    plan: P,
    lives: u32,
    seed: u32,
    out: &mut W,
) -> Result<Filled, Unfilled>
    ensures printed { OnOk result
        (PrintsFilled (P.remaining plan) lives (W.contents out.old) (W.contents out.new)) }
    ensures part { OnErr result
        (IsNotWhole W.contents W.has_failed (PrintsFilled (P.remaining plan) lives) out.old
        out.new) }
    ensures few { IfOk result (λ filled. length filled.saved ≤ 8) }
{
    let store = store_of(alloc, plan)?;
    let filled = fill(alloc, &store, lives, seed)?;
    let text = sentences_of(alloc, &store, &filled.saved)?;
    write_whole(out, &text)?;
    Ok(filled)
}

/// Reports why dies aren't filled, and answers the status. A writer that fails is passed over.
fn end_fault<E: Write>(err: &mut E, fault: FillFault) -> u8
    ensures { result ≡ 1 }
{
    let _ = match fault {
        FillFault::Unplanned(Unplanned::Refused(refusal)) => {
            let _ = end_refused(err, refusal);
            if refusal == Refusal::BadPlan {
                writeln!(err, "{WANTED}")
            } else {
                Ok(())
            }
        }
        FillFault::Unplanned(fault) => writeln!(err, "error: {fault}"),
        FillFault::Unrun(fault) => {
            let _ = end_unrun(err, fault);
            Ok(())
        }
        FillFault::Unsaved(Unsaved::NoMemory) => {
            let _ = end_refused(err, Refusal::NoMemory);
            Ok(())
        }
        FillFault::Unsaved(unsaved) => writeln!(err, "error: {unsaved}"),
        FillFault::NeverFull { die } => writeln!(
            err,
            "error: die {die} is never full: none of its tasks writes, and one has to"
        ),
        FillFault::TooManyLives => writeln!(
            err,
            "error: at most {MOST_LIVES} lives are run: --lives has to be {MOST_LIVES} at most"
        ),
        FillFault::TooSlow => writeln!(
            err,
            "error: the dies aren't full after {MOST_LIVES} lives: their tasks write too few pages in each"
        ),
    };
    1
}

/// Reports how many lives full dies had. A writer that fails is passed over.
fn report_lives<E: Write>(err: &mut E, filled: &Filled) {
    let (lives, refused) = (filled.lives, filled.refused);
    let unit = if lives == 1 { "life" } else { "lives" };
    let _ = writeln!(err, "the dies are full after {lives} {unit}");
    if refused > 0 {
        let rows = if refused == 1 { "row was" } else { "rows were" };
        let _ = writeln!(err, "{refused} {rows} refused in these");
    }
}

/// The text of a checkpoint. The only refusal is NoMemory.
fn text_of(alloc: Global, saved: &SavedStore) -> Result<Vec<u8>, Refusal>
    requires few { length saved.now ≤ 8 }
{
    let mut text = Vec::new(alloc);
    match write_checkpoint(alloc, &mut text, saved) {
        Ok(()) => Ok(text),
        Err(_) => Err(Refusal::NoMemory),
    }
}

/// Fills the dies of a plan, prints what stands on them, and puts their checkpoint into the file `to`. Answers the status:
/// 0; 1 where something was refused, which is reported, and nothing was written, or not the whole; where it is printed, 1
/// where the file can't be written, or memory runs out.
pub fn act_fill<P: Read + Drop, K: Shelf, W: Output, E: Write>(
    alloc: Global,
    plan: P,
    lives: u32,
    seed: u32,
    shelf: &K,
    to: &str,
    out: &mut W,
    err: &mut E,
) -> u8
    ensures { EndsFill W.contents W.has_failed (P.remaining plan) lives out.old out.new result }
{
    let filled = match print_filled(alloc, plan, lives, seed, out) {
        Ok(filled) => filled,
        Err(Unfilled::Unread(unread)) => return end_unread(err, unread),
        Err(Unfilled::Fault(fault)) => return end_fault(err, fault),
    };
    report_lives(err, &filled);
    match text_of(alloc, &filled.saved) {
        Ok(text) => put_text(shelf, to, &text, err),
        Err(refusal) => end_refused(err, refusal),
    }
}
