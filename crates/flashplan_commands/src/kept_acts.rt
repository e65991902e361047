//! Runs on dies that keep their plans.

ghost use Rattle.std.specs.Prelude.{◌≡◌, ◌≤◌, IfOk, OnErr, OnOk, if◌then◌else◌, is_ok, length, map};
ghost use Rattle.text_base.specs.Writing.{IsNotWhole};
ghost use Rattle.report_texts.specs.TextSoFar.{text_so_far};
ghost use Rattle.task_script.specs.StoreRuns.{reports_of};
ghost use Rattle.flashplan_kept_runs.specs.KeptDies.{cores_of, kept_of};
ghost use Rattle.flashplan_kept_runs.specs.KeptRuns.{IsKeptRun};
ghost use Rattle.flashplan_commands.specs.Acts.{Ends};
ghost use Rattle.flashplan_commands.specs.KeptActs.{PrintsKeptRun, ReadsKept};

use crate::plan_faults::end_unread;
use crate::stores::{PlanRead, TimedPlan, Unread, timed_plan_in};
use flashplan_kept_runs::{
    KeptFault, KeptReason, KeptRun, KindCount, RowCounts, RowReason, kept_plans, run_kept,
};
use slot_types::{MAX_SLOT, Refusal};
use std::alloc::Global;
use std::io::{Read, Write};
use terms_texts::StoreTerms;
use text_base::Output;

/// What is reported beside a plan that no die can keep.
const WANTED: &str =
    "--keep wants a plan that is accepted, with times (version 2) or terms: flashplan explain says more";

/// Why no report of a run is printed.
#[derive(Clone, Copy, Drop)]
enum Unkept {
    Unread(Unread),
    Unrun(KeptReason),
}

impl From<Unread> for Unkept {
    fn from(unread: Unread) -> Unkept {
        Unkept::Unread(unread)
    }
}

impl From<KeptReason> for Unkept {
    fn from(reason: KeptReason) -> Unkept {
        Unkept::Unrun(reason)
    }
}

impl From<Refusal> for Unkept {
    fn from(refusal: Refusal) -> Unkept {
        Unkept::Unread(Unread::Refused(refusal))
    }
}

/// The plans that dies keep, and how many us a slot takes, where that is known.
#[derive(Drop)]
struct KeptPlans {
    plans: StoreTerms,
    slot_us: Option<u32>,
}

/// Reads the plans that dies keep: of a text with terms as they stand there, of one without as the terms that its times
/// mean. It is refused as [`timed_plan_in`] refuses it; BadPlan, where there are no times either.
fn kept_in<R: Read + Drop>(alloc: Global, plan: R) -> Result<KeptPlans, Unread>
    ensures kept { IfOk result (λ kept. ReadsKept (R.remaining plan) kept.plans) }
    ensures few { IfOk result (λ kept. length kept.plans ≤ 8) }
{
    let TimedPlan { plan, slot_us } = timed_plan_in(alloc, plan, None)?;
    match plan {
        PlanRead::Plain(store) => {
            let plans = kept_plans(alloc, &store)?;
            Ok(KeptPlans { plans, slot_us })
        }
        PlanRead::WithTerms(plans) => Ok(KeptPlans { plans, slot_us }),
    }
}

/// Runs a script on dies that keep these plans, as [`run_kept`](flashplan_kept_runs::run_kept) does.
fn run_plans<S: Read + Drop>(
    alloc: Global,
    plans: StoreTerms,
    script: S,
    slots: u32,
    slot_us: Option<u32>,
) -> Result<KeptRun, KeptReason>
    requires few_dies { length plans ≤ 8 }
    requires few_slots { slots ≤ MAX_SLOT }
    ensures ran { IfOk result (λ run.
        IsKeptRun plans (S.remaining script) slots (map kept_of run.dies.items)) }
    ensures report { IfOk result (λ run.
        run.report ≡ text_so_far (reports_of 0 (cores_of run.dies.items))) }
{
    match run_kept(alloc, plans, script, slots) {
        Ok(run) => Ok(run),
        Err(fault) => Err(KeptReason { fault, slot_us }),
    }
}

/// What is reported beside a run.
#[derive(Clone, Copy, Drop)]
struct Beside {
    rows: RowCounts,
    /// How many us a slot takes, where that is known.
    slot_us: Option<u32>,
}

/// Runs a script on dies that keep their plans, and prints their report, which is made whole before its first byte.
fn print_kept<P: Read + Drop, S: Read + Drop, W: Output>(
    alloc: Global,
    plan: P,
    script: S,
    slots: u32,
    out: &mut W,
) -> Result<Beside, Unkept>
    requires slots { slots ≤ MAX_SLOT }
    ensures printed { OnOk result
        (PrintsKeptRun (P.remaining plan) (S.remaining script) slots (W.contents out.old)
        (W.contents out.new)) }
    ensures part { OnErr result
        (IsNotWhole W.contents W.has_failed
        (PrintsKeptRun (P.remaining plan) (S.remaining script) slots) out.old out.new) }
{
    let KeptPlans { plans, slot_us } = kept_in(alloc, plan)?;
    let KeptRun { dies, report, rows } = run_plans(alloc, plans, script, slots, slot_us)?;
    report.write(out)?;
    Ok(Beside { rows, slot_us })
}

/// Reports the rows that were refused for one cause. A writer that fails is passed over.
fn report_kind<E: Write>(err: &mut E, kind: KindCount, slot_us: Option<u32>) {
    let KindCount { count, line, first } = kind;
    let name = first.name();
    let reason = RowReason {
        refusal: first,
        slot_us,
    };
    let _ = writeln!(err, "{count} with {name}, first line {line}: {reason}");
}

/// Reports the rows that were refused, if there are any: how many, the first of them, and then a line a cause, with its
/// first one. A writer that fails is passed over.
fn report_refused<E: Write>(err: &mut E, beside: Beside) {
    let Beside { rows, slot_us } = beside;
    let Some((line, first)) = rows.first else {
        return;
    };
    let (all, name) = (rows.count, first.name());
    let _ = writeln!(err, "refused {all} first line {line} with {name}");
    for kind in rows.kinds {
        if let Some(kind) = kind {
            report_kind(err, kind, slot_us);
        }
    }
}

/// Reports how many rows of collections were passed over, if there are any. A writer that fails is passed over.
fn report_passed<E: Write>(err: &mut E, passed: u32) {
    let rows = if passed == 1 { "row" } else { "rows" };
    if passed > 0 {
        let _ = writeln!(
            err,
            "passed over {passed} {rows} of collections: a die that keeps its plan enters its own"
        );
    }
}

/// Reports why there is no run, and answers the status. A writer that fails is passed over.
fn end_fault<E: Write>(err: &mut E, reason: KeptReason) -> u8
    ensures { result ≡ 1 }
{
    match reason.fault {
        KeptFault::Refused(refusal) => end_unkept(err, Unread::Refused(refusal)),
        _ => {
            let _ = writeln!(err, "error: {reason}");
            1
        }
    }
}

/// Reports why a plan isn't kept, and answers the status. A writer that fails is passed over.
fn end_unkept<E: Write>(err: &mut E, unread: Unread) -> u8
    ensures { result ≡ 1 }
{
    let _ = end_unread(err, unread);
    if unread == Unread::Refused(Refusal::BadPlan) {
        let _ = writeln!(err, "{WANTED}");
    }
    1
}

/// Reports what was refused of a run, or why there is none, and answers the status. A writer that fails is passed over.
fn end_kept<E: Write>(err: &mut E, ran: Result<Beside, Unkept>) -> u8
    ensures { result ≡ (if is_ok ran then 0 else 1) }
{
    match ran {
        Ok(beside) => {
            report_refused(err, beside);
            report_passed(err, beside.rows.passed_over);
            0
        }
        Err(Unkept::Unread(unread)) => end_unkept(err, unread),
        Err(Unkept::Unrun(reason)) => end_fault(err, reason),
    }
}

/// Runs a script on fresh dies that keep their plans, and prints their report, as [`run_kept`](flashplan_kept_runs::run_kept)
/// makes it: each job in it that is due by slot `slots` was done by its deadline. Answers the status: 0, or 1 where
/// something was refused, which is reported: nothing was written then, or not the whole. Rows that a die refused are
/// reported by cause, each with its first one, and how many rows of collections were passed over.
#[tactic(auto, using(crate::proofs::EndedSo::ends))]
pub fn act_run_kept<P: Read + Drop, S: Read + Drop, W: Output, E: Write>(
    alloc: Global,
    plan: P,
    script: S,
    slots: u32,
    out: &mut W,
    err: &mut E,
) -> u8
    requires slots { slots ≤ MAX_SLOT }
    ensures { Ends W.contents W.has_failed
        (PrintsKeptRun (P.remaining plan) (S.remaining script) slots) out.old out.new result }
{
    let ran = print_kept(alloc, plan, script, slots, out);
    end_kept(err, ran)
}
