//! Commands that are carried out.

ghost use Rattle.std.specs.Prelude.{◌≡◌, ◌≤◌, ◌⊎◌, IfOk, IfErr, OnOk, if◌then◌else◌};
ghost use Rattle.flash_commands.specs.Acts.{AuditsSome, HasThree, IsFaultOf, IsRefused, IsRefusedFor, Prints, PrintsAudit};
ghost use Rattle.flash_commands.specs.Acts.{PrintsFigures, PrintsRun, RefusesAudit, RefusesRun};
ghost use Rattle.plan_texts.specs.PlanReading.{RefusesPlanOf};
ghost use Rattle.flash_commands.specs.Faults.{outcome_status};
ghost use Rattle.text_base.specs.Flags.{KeepsFlag};
ghost use Rattle.text_base.specs.Writing.{RefusesOrCuts};

use crate::audits::audit_by_threads;
use crate::commands::Command;
use crate::faults::{Fault, end};
use crate::figures::figures_text;
use crate::refusal_names::refusal_name;
use example_texts::built_in;
use plan_texts::read_plan_from;
use report_texts::ReportReader;
use slot_types::{MAX_SLOT, Refusal};
use std::alloc::Global;
use std::io::{Read, Write};
use std::sync::Wait;
use std::thread::Threads;
use task_script::{RunCount, run_text};
use text_base::{FlaggedReader, Output, write_whole};

/// Prints the figures of a plan.
fn print_figures<R: Read + Drop, W: Output>(
    alloc: Global,
    first: R,
    out: &mut W,
) -> Result<(), Refusal>
    ensures printed { OnOk result
        (PrintsFigures (R.remaining first) (W.contents out.old) (W.contents out.new)) }
    ensures works { OnOk result (KeepsFlag (W.has_failed out.old) (W.has_failed out.new)) }
    ensures refused { IfErr result
        (RefusesOrCuts W.contents W.has_failed (RefusesPlanOf (R.remaining first))
        (PrintsFigures (R.remaining first)) out.old out.new) }
{
    let store = read_plan_from(alloc, &mut FlaggedReader::new(first))?;
    let text = figures_text(alloc, &store)?;
    write_whole(out, &text)
}

/// Prints the audit of a report, and says whether a certificate is refused. Its dies are judged by as many threads as
/// have work, at most four.
fn print_audit<T: Threads + Sync, R: Read + Drop, W: Output>(
    rt: &T,
    alloc: Global,
    first: R,
    out: &mut W,
) -> Result<bool, Refusal>
    ensures printed { IfOk result (λ refused.
        PrintsAudit (R.remaining first) (W.contents out.old) (W.contents out.new)
        (if refused then 3 else 0)) }
    ensures works { OnOk result (KeepsFlag (W.has_failed out.old) (W.has_failed out.new)) }
    ensures refused { IfErr result
        (RefusesOrCuts W.contents W.has_failed (RefusesAudit (R.remaining first))
        (AuditsSome (R.remaining first)) out.old out.new) }
{
    let work = ReportReader::new(alloc, first).work()?;
    let audit = audit_by_threads(rt, alloc, &work)?;
    write_whole(out, &audit.text)?;
    Ok(audit.refused)
}

/// Runs a script on the store of a plan, and prints its report.
fn print_run<R: Threads + Wait + Sync, F: Read + Drop, S: Read + Drop, W: Output>(
    rt: &R,
    alloc: Global,
    first: F,
    second: S,
    slots: u32,
    workers: u32,
    out: &mut W,
) -> Result<RunCount, Refusal>
    requires slots { slots ≤ MAX_SLOT }
    requires workers { (1 ≤ workers) × (workers ≤ 16) }
    ensures printed { OnOk result
        (PrintsRun (F.remaining first) (S.remaining second) slots (W.contents out.old)
        (W.contents out.new)) }
    ensures works { OnOk result (KeepsFlag (W.has_failed out.old) (W.has_failed out.new)) }
    ensures refused { IfErr result
        (RefusesOrCuts W.contents W.has_failed
        (RefusesRun (F.remaining first) (S.remaining second) slots)
        (PrintsRun (F.remaining first) (S.remaining second) slots) out.old out.new) }
{
    let store = read_plan_from(alloc, &mut FlaggedReader::new(first))?;
    let count = run_text(rt, alloc, &store, second, out, slots, workers)?;
    Ok(count)
}

/// Reports how many rows were refused with the refusal of a number, by its name. A writer that fails is passed over.
fn report_kind<E: Write>(err: &mut E, number: u8, count: u32) {
    if let Some(named) = refusal_name(number) {
        let (name, meaning) = (named.name, named.meaning);
        let _ = writeln!(err, "{count} with {number} {name}: {meaning}");
    }
}

/// Reports how many rows were refused, and the first of them, if there is one; and after that, in a line a refusal, how
/// many it refused. A writer that fails is passed over.
fn report_refused<E: Write>(err: &mut E, count: &RunCount) {
    let Some((line, number)) = count.first else {
        return;
    };
    let refused = count.refused;
    let _ = writeln!(err, "refused {refused} first line {line} with {number}");
    let mut number: u8 = 0;
    for rows in &count.kinds {
        if *rows > 0 {
            report_kind(err, number, *rows);
        }
        number = number.saturating_add(1);
    }
}

/// Runs a script on the store of a plan, or says why not.
fn run<R: Threads + Wait + Sync, F: Read + Drop, S: Read + Drop, W: Output, E: Write>(
    rt: &R,
    alloc: Global,
    first: F,
    second: S,
    slots: u32,
    workers: u32,
    out: &mut W,
    err: &mut E,
) -> Result<(), Fault>
    requires slots { slots ≤ MAX_SLOT }
    requires workers { (1 ≤ workers) × (workers ≤ 16) }
    ensures printed { (outcome_status result ≡ 1)
        ⊎ (PrintsRun (F.remaining first) (S.remaining second) slots (W.contents out.old)
        (W.contents out.new) × (outcome_status result ≡ 0)) }
    ensures works { (outcome_status result ≡ 1)
        ⊎ KeepsFlag (W.has_failed out.old) (W.has_failed out.new) }
    ensures refused { IfErr result (IsFaultOf
        (RefusesOrCuts W.contents W.has_failed
        (RefusesRun (F.remaining first) (S.remaining second) slots)
        (PrintsRun (F.remaining first) (S.remaining second) slots) out.old out.new)) }
{
    let count = print_run(rt, alloc, first, second, slots, workers, out)?;
    report_refused(err, &count);
    Ok(())
}

/// Shows the figures of a plan, or says why not.
fn figures<R: Read + Drop, W: Output>(alloc: Global, first: R, out: &mut W) -> Result<(), Fault>
    ensures printed { (outcome_status result ≡ 1)
        ⊎ (PrintsFigures (R.remaining first) (W.contents out.old) (W.contents out.new)
        × (outcome_status result ≡ 0)) }
    ensures works { (outcome_status result ≡ 1)
        ⊎ KeepsFlag (W.has_failed out.old) (W.has_failed out.new) }
    ensures refused { IfErr result (IsFaultOf
        (RefusesOrCuts W.contents W.has_failed (RefusesPlanOf (R.remaining first))
        (PrintsFigures (R.remaining first)) out.old out.new)) }
{
    print_figures(alloc, first, out)?;
    Ok(())
}

/// Audits a report, or says why not.
fn audit<T: Threads + Sync, R: Read + Drop, W: Output>(
    rt: &T,
    alloc: Global,
    first: R,
    out: &mut W,
) -> Result<(), Fault>
    ensures printed { (outcome_status result ≡ 1)
        ⊎ PrintsAudit (R.remaining first) (W.contents out.old) (W.contents out.new)
        (outcome_status result) }
    ensures works { (outcome_status result ≡ 1)
        ⊎ KeepsFlag (W.has_failed out.old) (W.has_failed out.new) }
    ensures refused { IfErr result (IsFaultOf
        (RefusesOrCuts W.contents W.has_failed (RefusesAudit (R.remaining first))
        (AuditsSome (R.remaining first)) out.old out.new)) }
{
    if print_audit(rt, alloc, first, out)? {
        return Err(Fault::Certificate);
    }
    Ok(())
}

/// Carries a command out, with `first` in place of the file of the plan or of the report, and `second` in place of
/// that of the script, which no other command than `run` reads.
///
/// What it prints is what [`act`] says. `Certificate` comes exactly where a report was read and audited, its audit is
/// printed whole, and some certificate is refused; any other error is a refusal. A refusal leaves `out` as it was,
/// but for `WriteFault`, which comes exactly where `out` failed: it then took a front of what was to be printed, and
/// not the whole.
pub fn carry_out<R: Threads + Wait + Sync, F: Read + Drop, S: Read + Drop, W: Output, E: Write>(
    rt: &R,
    alloc: Global,
    command: Command<'_>,
    first: F,
    second: S,
    out: &mut W,
    err: &mut E,
) -> Result<(), Fault>
    ensures printed { (outcome_status result ≡ 1)
        ⊎ Prints command.entry (F.remaining first) (S.remaining second) (W.contents out.old)
        (W.contents out.new) (outcome_status result) }
    ensures works { (outcome_status result ≡ 1)
        ⊎ KeepsFlag (W.has_failed out.old) (W.has_failed out.new) }
    ensures refused { IfErr result
        (IsFaultOf (IsRefusedFor W.contents W.has_failed command.entry (F.remaining first)
        (S.remaining second) out.old out.new)) }
{
    match command {
        Command::Alone => {
            let (plan, script) = (built_in::PLAN.as_bytes(), built_in::SCRIPT.as_bytes());
            run(rt, alloc, plan, script, built_in::SLOTS, 1, out, err)
        }
        Command::Run { slots, workers, .. } => {
            let (slots, workers) = (slots.count, workers.count);
            run(rt, alloc, first, second, slots, workers, out, err)
        }
        Command::Audit { .. } => audit(rt, alloc, first, out),
        Command::Plan { .. } => figures(alloc, first, out),
    }
}

/// Carries a command out, as [`carry_out`] does, says why not in a line to `err`, and answers the status.
///
/// `run` runs the script on the store of the plan by its workers, and prints the report of what became of it, which is
/// the same for any number of them. Without words the plan and the script are built in. On a die whose rows keep its
/// plan, with times that pass their test, no lateness in the report is above 0, and no row is refused but out of
/// memory, or after one that was. Where rows were refused, `err` gets a line, as `refused 1 first line 6 with 6`, and
/// after it one for each refusal, as `1 with 6 EmptyJob: a job has 1 to 64 operations, and it has none`.
///
/// `audit` prints for each die of the report the lateness and the job of its certificate, and whether it holds, as
/// `die 0 worst -1 job 0 holds` or `die 0 worst 0 job 1 refused 5 EarlyRelease`, or that it has none, as
/// `die 0 no lateness`; the status is 3 exactly where this is written whole and some certificate is refused. The dies are
/// judged by at most four threads.
///
/// `plan` prints for each die the figures of its plan, as `die 0 fmax 7 closed 6 live 18 logical 12 accepted`, and
/// after them, where the plan has times, its demand, as `die 0 load 11 of 20`; no more of the plan is read than
/// 1,048,577 bytes.
///
/// Each text for `out` is made whole before its first byte. A refusal is reported in a line to `err`, as
/// `error 19 ScriptRow 6 Fields`, and the status is 1: nothing was written to `out`, or `out` failed before it had the
/// whole text. Where `err` fails, that is passed over. Neither is flushed. A run may wait for its workers.
pub fn act<R: Threads + Wait + Sync, F: Read + Drop, S: Read + Drop, W: Output, E: Write>(
    rt: &R,
    alloc: Global,
    command: Command<'_>,
    first: F,
    second: S,
    out: &mut W,
    err: &mut E,
) -> u8
    ensures printed { (result ≡ 1)
        ⊎ Prints command.entry (F.remaining first) (S.remaining second) (W.contents out.old)
        (W.contents out.new)
        result }
    ensures three { HasThree command.entry (F.remaining first) (W.contents out.old)
        (W.contents out.new) result }
    ensures works { (result ≡ 1) ⊎ KeepsFlag (W.has_failed out.old) (W.has_failed out.new) }
    ensures refused { result ≡ 1
        → IsRefused W.contents W.has_failed command.entry (F.remaining first) (S.remaining second)
        out.old out.new }
{
    let done = carry_out(rt, alloc, command, first, second, out, err);
    end(err, done)
}
