//! Scripts that are run on the dies of a store.

ghost use Rattle.std.specs.Prelude.{◌≡◌, ◌<◌, ◌≤◌, ◌^◌, All, List, None, Ok, length, map, true, IfOk, IfErr, IsSomeAnd, OnOk};
ghost use Rattle.script_texts.specs.ScriptLeft.{reader_failed};
ghost use Rattle.slot_types.specs.Refusal.{FailsForMemory};
ghost use Rattle.slot_types.specs.declared.refusals.Refusal.TheVariants.{ReadFault};
ghost use Rattle.plan_rules.specs.Bound.{MeetsBound};
ghost use Rattle.task_script.specs.RanScripts.{AreReported, dies_in, total_rows, with_die, with_dies};
ghost use Rattle.task_script.specs.RowDies.{core_of};
ghost use Rattle.task_script.specs.RowTexts.{order_of};
ghost use Rattle.task_script.specs.PlannedRuns.{RunsAsPlanned, RunsSo};
ghost use Rattle.task_script.specs.TextRuns.{RanScript, RunsText};
ghost use Rattle.task_script.specs.Feeds.{RefusesScript};
ghost use Rattle.text_base.specs.Flags.{KeepsFlag};
ghost use Rattle.text_base.specs.Writing.{RefusesOrCuts};

use crate::die_texts::parts_of;
use crate::feeds::ReadEnd;
use crate::row_dies::RowDie;
use crate::row_runners::RowRunner;
use crate::run_counts::RunCount;
use crate::sending::{RanRows, send_script};
use report_texts::{ReportText, write_parts};
use script_texts::ScriptReader;
use slot_types::{MAX_SLOT, Refusal, StorePlan};
use std::alloc::Global;
use std::io::Read;
use std::sync::Wait;
use std::thread::Threads;
use text_base::Output;

/// Dies that carried out their slots: the parts of their report, and how many of their rows were accepted and refused.
#[derive(Drop)]
struct RanStore {
    parts: Vec<ReportText>,
    count: RunCount,
}

/// A run of a script that was refused.
#[derive(Drop)]
pub struct RefusedRun<S> {
    pub refusal: Refusal,
    /// The script's reader, where it is the script that was refused.
    pub reader: Option<ScriptReader<S>>,
}

/// Memory ran out, or the operations of rows are at fault.
impl<S> From<Refusal> for RefusedRun<S> {
    ghost use Rattle.std.specs.Prelude.{◌≡◌};

    ghost from_gives = { λ refusal run. run.refusal ≡ refusal };

    fn from(refusal: Refusal) -> RefusedRun<S> {
        RefusedRun {
            refusal,
            reader: None,
        }
    }
}

impl<S: Drop> From<RefusedRun<S>> for Refusal {
    ghost use Rattle.std.specs.Prelude.{◌≡◌};

    ghost from_gives = { λ run refusal. refusal ≡ run.refusal };

    fn from(run: RefusedRun<S>) -> Refusal {
        run.refusal
    }
}

/// Of the refusals of dies the one that is reported.
fn first_refusal(dies: &[RowRunner]) -> Option<Refusal>
    ensures { result ≡ with_dies None (map (λ runner. runner.die) dies.now) }
{
    let mut first = None;
    for runner in dies {
        first = with_die(first, &runner.die);
    }
    first
}

/// Makes the report of dies that have carried out their slots, by `workers` threads. The only refusal is NoMemory.
fn finish<R: Threads + Sync>(
    rt: &R,
    alloc: Global,
    runners: Vec<RowRunner>,
    workers: u32,
) -> Result<RanStore, Refusal>
    requires whole { map (λ runner. runner.die) runners.items ≡ map Ok (dies_in runners.items) }
    requires few { length (dies_in runners.items) ≤ 8 }
    requires counted { total_rows (dies_in runners.items) < 2 ^ 64 }
    requires workers { 1 ≤ workers }
    ensures reported { IfOk result (λ ran.
        AreReported (dies_in runners.items) ran.parts.items ran.count) }
    ensures refused { FailsForMemory result }
{
    let mut cores = Vec::new(alloc);
    let mut count = RunCount::none();
    for runner in runners {
        let Ok(die) = runner.die else { unreachable!() };
        let (core, own) = die.into_parts();
        cores.push(Box::into_inner(core))?;
        count.add_all(&own);
    }
    let parts = parts_of(rt, alloc, cores, workers)?;
    Ok(RanStore { parts, count })
}

/// In which order refusals are reported: out of memory, and then the faults by their records.
fn order_of(refusal: Refusal) -> u64
    ensures { result ≡ order_of refusal }
{
    match refusal {
        Refusal::NoMemory => 0,
        Refusal::ScriptRow { line, .. } => line as u64 + 1,
        _ => 1,
    }
}

/// Of a refusal that is known, if any, and that of one die more the one that is reported.
fn with_die(known: Option<Refusal>, die: &Result<RowDie, Refusal>) -> Option<Refusal>
    ensures { result ≡ with_die known die.now }
{
    let Err(refusal) = die else {
        return known;
    };
    match known {
        Some(first) if order_of(first) <= order_of(*refusal) => known,
        _ => Some(*refusal),
    }
}

/// Runs a script on fresh dies in memory.
///
/// Refused as the first fault of the script, as NoMemory, or as ReadFault. A ReadFault comes with the script's reader,
/// in which csv's reader has failed.
fn run_script<R: Threads + Wait + Sync, S: Read + Drop>(
    rt: &R,
    alloc: Global,
    plan: &StorePlan,
    script: S,
    slots: u32,
    workers: u32,
) -> Result<RanStore, RefusedRun<S>>
    requires dies { length plan.now ≤ 8 }
    requires bound { All MeetsBound plan.now }
    requires few { slots ≤ MAX_SLOT }
    requires workers { 1 ≤ workers }
    ensures ran { IfOk result (λ ran.
        RanScript (S.remaining script) plan.now slots ran.parts.items ran.count) }
    ensures refused { IfErr result (λ run.
        RefusesScript (S.remaining script) (length plan.now) slots run.refusal) }
    ensures failed { IfErr result (λ run. run.refusal ≡ ReadFault →
        IsSomeAnd run.reader (λ reader. reader_failed reader ≡ true)) }
{
    let reader = ScriptReader::new(alloc, script, plan, slots)?;
    let sent = send_script(rt, alloc, plan.as_slice(), reader, slots, workers)?;
    let RanRows { script, dies, end } = sent;
    match first_refusal(dies.as_slice()) {
        Some(refusal) => return Err(RefusedRun::from(refusal)),
        None => {}
    }
    match end {
        ReadEnd::Ended => {
            let whole = finish(rt, alloc, dies, workers)?;
            Ok(whole)
        }
        ReadEnd::Refused(refusal) => Err(RefusedRun {
            refusal,
            reader: Some(script),
        }),
        ReadEnd::More => unreachable!(),
    }
}

/// Runs a script on a store of 1 to 8 dies in memory by 1 to 16 workers, and writes the report of what became of it.
/// Each die carries out `slots` slots, from 0 to 1,048,576. A row comes before the slot of its `at`, those of one die
/// in their order, and those whose `at` is the number of slots come after the last one. A row that its die refuses is
/// no event, and doesn't stop the run; it is counted.
///
/// What is written is proved to be the report read off the exact logs of the accepted rows and the slots, whatever the
/// number of workers. By one worker no thread is started. By more, each that has dies is a thread for the whole run: it
/// reads the operations of their rows and runs these, while this thread takes further rows off the script and sends
/// them. It alone reads the script, within the bounds of [`ScriptReader`](crate::ScriptReader) on bytes and on calls,
/// which are the same by any number of workers. At the end as many threads make the lines of the report. A thread that
/// can't be started is done without: its work is done by this one. May wait for the workers.
///
/// This is proved, too: on a die whose rows keep its plan, with times that pass their test, no lateness in the report
/// is above 0, and no row is refused except out of memory, or after one that was.
///
/// Rows are read and run batch by batch, so that the script is never kept whole: what is kept of it are the rows of
/// four batches, in four lists of each die, which keep the memory of the die's largest batch. A die is given up once its
/// lines are made.
///
/// It ends with the first fault of the script, as [`ScriptReader`](crate::ScriptReader) says it; with `ReadFault`,
/// where reading the script fails; or with `NoMemory`. A `ReadFault` comes with the script's reader, in which csv's
/// reader has failed. Nothing is written before the whole script was read and run, and nothing where it ends so.
/// `WriteFault` comes exactly where the writer fails: a front of the report was then written that isn't the whole.
pub fn run_text<R: Threads + Wait + Sync, S: Read + Drop, W: Output>(
    rt: &R,
    alloc: Global,
    plan: &StorePlan,
    script: S,
    writer: &mut W,
    slots: u32,
    workers: u32,
) -> Result<RunCount, RefusedRun<S>>
    requires some { 1 ≤ length plan.now }
    requires dies { length plan.now ≤ 8 }
    requires bound { All MeetsBound plan.now }
    requires few { slots ≤ MAX_SLOT }
    requires workers { (1 ≤ workers) × (workers ≤ 16) }
    ensures ran { IfOk result (λ count.
        RunsText (S.remaining script) plan.now slots count (W.contents writer.old)
        (W.contents writer.new)) }
    ensures planned { IfOk result (λ count.
        RunsAsPlanned (S.remaining script) plan.now slots count (W.contents writer.old)
        (W.contents writer.new)) }
    ensures works { OnOk result
        (KeepsFlag (W.has_failed writer.old) (W.has_failed writer.new)) }
    ensures refused { IfErr result (λ run.
        RefusesOrCuts W.contents W.has_failed
        (RefusesScript (S.remaining script) (length plan.now) slots)
        (RunsSo (S.remaining script) plan.now slots) writer.old writer.new run.refusal) }
    ensures failed { IfErr result (λ run. run.refusal ≡ ReadFault →
        IsSomeAnd run.reader (λ reader. reader_failed reader ≡ true)) }
{
    let ran = run_script(rt, alloc, plan, script, slots, workers)?;
    match write_parts(writer, ran.parts.as_slice()) {
        Ok(()) => Ok(ran.count),
        Err(refusal) => Err(RefusedRun {
            refusal,
            reader: None,
        }),
    }
}
