//! Runs that go on from a checkpoint, and end with one.

ghost use Rattle.std.specs.Prelude.{◌≡◌, ◌⊎◌, ◌≤◌, IfOk, None, OnErr, OnOk, if◌then◌else◌, is_none, is_ok, is_some, length, true};
ghost use Rattle.text_base.specs.Writing.{IsNotWhole};
ghost use Rattle.flashplan_commands.specs.Acts.{Ends, EndsRun, PrintsFailing, PrintsRun};

use crate::endings::{end_refused, report_failure, report_refused};
use crate::outputs::written_path;
use crate::plan_faults::end_unread;
use crate::shelves::{Shelf, report_unput};
use crate::stores::{Unread, timed_store_of};
use checkpoint_texts::{CheckpointReader, SavedStore, TextFault};
use flashplan_checkpoint_runs::{
    FailingRun, RunFault, StoreDies, StoreRun, Unsaved, run_failing, run_script, save,
};
use flashplan_slot_times::Slots;
use flashplan_watched_runs::{FailAt, Failure, RefusedRows};
use slot_types::{MAX_SLOT, Refusal};
use std::alloc::Global;
use std::io::{Read, Write};
use text_base::Output;

/// The checkpoints of a command: the one from which dies go on, if there is one, and where the one of their end is put.
#[derive(Drop)]
pub struct Kept<'a, C, K> {
    pub from: Option<C>,
    pub shelf: &'a K,
}

/// What was saved of dies, in a text.
pub fn saved_in<C: Read + Drop>(alloc: Global, text: C) -> Result<SavedStore, RunFault> {
    match CheckpointReader::new(alloc, text).checkpoint() {
        Ok(saved) => Ok(saved),
        Err(TextFault::NoMemory) => Err(RunFault::Refused(Refusal::NoMemory)),
        Err(TextFault::ReadFault) => Err(RunFault::Refused(Refusal::ReadFault)),
        Err(fault) => Err(RunFault::Text(fault)),
    }
}

/// What was saved of dies, in a text that there may be.
pub fn begun_in<C: Read + Drop>(
    alloc: Global,
    from: Option<C>,
) -> Result<Option<SavedStore>, RunFault>
    ensures { IfOk result (λ saved. is_none from ≡ true → saved ≡ None) }
{
    match from {
        Some(text) => Ok(Some(saved_in(alloc, text)?)),
        None => Ok(None),
    }
}

/// What came of a run whose report was printed.
#[derive(Drop)]
struct PrintedRun {
    dies: StoreDies,
    refused: RefusedRows,
    idle: Vec<u32>,
    /// How many us a slot takes, where that is known.
    slot_us: Option<u32>,
}

/// What is reported of a run in which a device failed.
#[derive(Clone, Copy, Drop)]
struct FailingReported {
    refused: RefusedRows,
    failure: Failure,
    /// How many us a slot takes, where that is known.
    slot_us: Option<u32>,
}

/// Why nothing of a run is printed.
#[derive(Clone, Copy, Drop)]
pub enum Unprinted {
    Unread(Unread),
    Unrun(RunFault),
}

impl From<Unread> for Unprinted {
    fn from(unread: Unread) -> Unprinted {
        Unprinted::Unread(unread)
    }
}

impl From<RunFault> for Unprinted {
    fn from(fault: RunFault) -> Unprinted {
        Unprinted::Unrun(fault)
    }
}

impl From<Refusal> for Unprinted {
    fn from(refusal: Refusal) -> Unprinted {
        Unprinted::Unrun(RunFault::Refused(refusal))
    }
}

/// Runs a script on the dies of a plan, and prints their report, which is made whole before its first byte.
fn print_run<P: Read + Drop, S: Read + Drop, C: Read + Drop, W: Output>(
    alloc: Global,
    plan: P,
    script: S,
    from: Option<C>,
    slots: u32,
    saves: bool,
    out: &mut W,
) -> Result<PrintedRun, Unprinted>
    requires slots { slots ≤ MAX_SLOT }
    ensures printed { OnOk result
        (PrintsRun (P.remaining plan) (S.remaining script) slots (is_none from) saves
        (W.contents out.old) (W.contents out.new)) }
    ensures part { OnErr result
        (IsNotWhole W.contents W.has_failed
        (PrintsRun (P.remaining plan) (S.remaining script) slots (is_none from) saves) out.old out.new) }
    ensures few { IfOk result (λ run. length run.dies.items ≤ 8) }
{
    let timed = timed_store_of(alloc, plan, None)?;
    let slot_us = timed.slot_us;
    let from = begun_in(alloc, from)?;
    let StoreRun {
        dies,
        report,
        refused,
        idle,
    } = run_script(alloc, timed.store, from, script, slots, saves)?;
    report.write(out)?;
    Ok(PrintedRun {
        dies,
        refused,
        idle,
        slot_us,
    })
}

/// Reports why there is no run, and answers the status. A writer that fails is passed over.
pub fn end_unrun<E: Write>(err: &mut E, fault: RunFault) -> u8
    ensures { result ≡ 1 }
{
    match fault {
        RunFault::Refused(refusal) => end_refused(err, refusal),
        _ => {
            let _ = writeln!(err, "error: {fault}");
            1
        }
    }
}

/// Reports why nothing of a run is printed, and answers the status. A writer that fails is passed over.
pub fn end_unprinted<E: Write>(err: &mut E, unprinted: Unprinted) -> u8
    ensures { result ≡ 1 }
{
    match unprinted {
        Unprinted::Unread(unread) => end_unread(err, unread),
        Unprinted::Unrun(fault) => end_unrun(err, fault),
    }
}

/// Reports the rows that were refused, or why nothing was printed, and answers the status. A writer that fails is passed
/// over.
pub fn end_ran<E: Write>(err: &mut E, ran: Result<RefusedRows, Unprinted>) -> u8
    ensures { result ≡ (if is_ok ran then 0 else 1) }
{
    match ran {
        Ok(refused) => {
            report_refused(err, refused);
            0
        }
        Err(unprinted) => end_unprinted(err, unprinted),
    }
}

/// Reports how long dies went on until all was done. A writer that fails is passed over.
fn report_idle<E: Write>(err: &mut E, idle: &[u32], slot_us: Option<u32>) {
    for die in 0..idle.len() {
        let count = u64::from(idle[die]);
        let slots = Slots { count, slot_us };
        let unit = if count == 1 { "slot" } else { "slots" };
        if count > 0 {
            let _ = writeln!(
                err,
                "die {die} went on for {slots} {unit} until all was done"
            );
        }
    }
}

/// Puts the text of a checkpoint into a file, and answers the status: 0 where it stands there, 1 where the file fails. A
/// writer that fails is passed over.
pub fn put_text<K: Shelf, E: Write>(shelf: &K, name: &str, text: &[u8], err: &mut E) -> u8
    ensures { (result ≡ 0) ⊎ (result ≡ 1) }
{
    match shelf.put(written_path(name), text) {
        Ok(()) => 0,
        Err(unput) => {
            report_unput(err, name, &unput);
            1
        }
    }
}

/// Puts the checkpoint of dies into a file, and answers the status: 0 where it stands there, 3 where none may be taken,
/// 1 where memory or the file fails. A writer that fails is passed over.
fn put_checkpoint<K: Shelf, E: Write>(
    alloc: Global,
    dies: StoreDies,
    shelf: &K,
    name: &str,
    err: &mut E,
) -> u8
    requires few { length dies.items ≤ 8 }
    ensures { (result ≡ 0) ⊎ ((result ≡ 1) ⊎ (result ≡ 3)) }
{
    let text = match save(alloc, dies) {
        Ok(text) => text,
        Err(Unsaved::NoMemory) => return end_refused(err, Refusal::NoMemory),
        Err(unsaved) => {
            let _ = writeln!(err, "no checkpoint: {unsaved}");
            return 3;
        }
    };
    put_text(shelf, name, &text, err)
}

/// Runs a script on the dies of a plan, fresh or from a checkpoint, prints the report, and puts the checkpoint of the
/// dies' end into the file `to`, if there is one. Answers the status: 0; 1 where something was refused, which is reported,
/// and nothing was written, or not the whole; where the report is printed, and there is such a file, 1 where it can't be
/// written, or memory runs out, and 3 where no checkpoint may be taken.
pub fn act_run<P: Read + Drop, S: Read + Drop, C: Read + Drop, K: Shelf, W: Output, E: Write>(
    alloc: Global,
    plan: P,
    script: S,
    from: Option<C>,
    shelf: &K,
    slots: u32,
    to: Option<&str>,
    out: &mut W,
    err: &mut E,
) -> u8
    requires slots { slots ≤ MAX_SLOT }
    ensures { EndsRun W.contents W.has_failed
        (PrintsRun (P.remaining plan) (S.remaining script) slots (is_none from) (is_some to.entry))
        (is_none to.entry) out.old out.new result }
{
    let ran = match print_run(alloc, plan, script, from, slots, to.is_some(), out) {
        Ok(ran) => ran,
        Err(unprinted) => return end_unprinted(err, unprinted),
    };
    report_idle(err, ran.idle.as_slice(), ran.slot_us);
    report_refused(err, ran.refused);
    match to {
        Some(name) => put_checkpoint(alloc, ran.dies, shelf, name, err),
        None => 0,
    }
}

/// Runs a script on fresh dies of a plan, the device of one of which fails, and prints the report, which is made whole
/// before its first byte.
fn print_failing<P: Read + Drop, S: Read + Drop, W: Output>(
    alloc: Global,
    plan: P,
    script: S,
    slots: u32,
    fail: FailAt,
    out: &mut W,
) -> Result<FailingReported, Unread>
    requires slots { slots ≤ MAX_SLOT }
    ensures printed { OnOk result
        (PrintsFailing (P.remaining plan) (S.remaining script) slots (W.contents out.old)
        (W.contents out.new)) }
    ensures part { OnErr result
        (IsNotWhole W.contents W.has_failed
        (PrintsFailing (P.remaining plan) (S.remaining script) slots) out.old out.new) }
{
    let timed = timed_store_of(alloc, plan, None)?;
    let slot_us = timed.slot_us;
    let FailingRun {
        dies,
        report,
        refused,
        failure,
    } = run_failing(alloc, timed.store, script, slots, fail)?;
    report.write(out)?;
    Ok(FailingReported {
        refused,
        failure,
        slot_us,
    })
}

/// Runs a script on fresh dies of a plan, the device of one of which fails, prints the report of what was done until
/// then, and reports in which slot it failed. Answers the status: 0, or 1 where something was refused, which is reported:
/// nothing was written then, or not the whole.
pub fn act_failing<P: Read + Drop, S: Read + Drop, W: Output, E: Write>(
    alloc: Global,
    plan: P,
    script: S,
    slots: u32,
    fail: FailAt,
    out: &mut W,
    err: &mut E,
) -> u8
    requires slots { slots ≤ MAX_SLOT }
    ensures { Ends W.contents W.has_failed
        (PrintsFailing (P.remaining plan) (S.remaining script) slots) out.old out.new result }
{
    match print_failing(alloc, plan, script, slots, fail, out) {
        Ok(reported) => {
            report_failure(err, Some(reported.failure), reported.slot_us);
            report_refused(err, reported.refused);
            0
        }
        Err(unread) => end_unread(err, unread),
    }
}
