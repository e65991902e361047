//! The rows of a script, sent to its dies as they are read.

ghost use Rattle.std.specs.Prelude.{◌≡◌, ◌≤◌, [], All, IfOk, List, length, replicate};
ghost use Rattle.std.specs.List.{AllZip};
ghost use Rattle.slot_types.specs.Refusal.{FailsForMemory};
ghost use Rattle.plan_rules.specs.Bound.{MeetsBound};
ghost use Rattle.script_texts.specs.ScriptLeft.{dies_of, line_of, slots_of};
ghost use Rattle.task_script.specs.RanScripts.{AreSent, HasRanFrom, HasRanRows, MayAllFollow, NoneSent, sent_more};
ghost use Rattle.task_script.specs.RowRunners.{IsFresh, IsFreshOf};

use crate::feeds::{ReadEnd, read_rows};
use crate::row_batches::RowBatch;
use crate::row_runners::RowRunner;
use die_service::{Run, Signals};
use script_texts::{RowTexts, ScriptReader};
use slot_types::{DiePlan, MAX_SLOT, Refusal};
use std::alloc::Global;
use std::io::Read;
use std::sync::Wait;
use std::thread;
use std::thread::{Scope, Threads};

/// What became of a script that was read: its reader, its dies, which have run all rows, and how reading ended.
#[derive(Drop)]
pub struct RanRows<S> {
    pub script: ScriptReader<S>,
    pub dies: Vec<RowRunner>,
    pub end: ReadEnd,
}

/// By die an empty list: one that came back, with its memory, or a new one. The only refusal is NoMemory.
fn empty_lists(
    alloc: Global,
    run: &mut Run<'_, RowRunner, RowBatch>,
) -> Result<Vec<RowTexts>, Refusal>
    ensures empty { IfOk result (λ lists. lists.items ≡ replicate (length run.old) []) }
    ensures same { run.new ≡ run.old }
    ensures refused { FailsForMemory result }
{
    let count = run.len();
    let mut lists = Vec::with_capacity(alloc, count)?;
    for place in 0..count {
        lists.push(match run.emptied(place) {
            Some(batch) => batch.rows,
            None => RowTexts::new(alloc),
        })?;
    }
    Ok(lists)
}

/// Sends each die its rows.
fn send_rows<R: Wait>(
    rt: &R,
    run: &mut Run<'_, RowRunner, RowBatch>,
    rows: Vec<RowTexts>,
    until: u32,
)
    requires follow { MayAllFollow until rows.items run.old }
    ensures { run.new ≡ sent_more until rows.items run.old }
{
    let mut place = 0;
    for own in rows {
        run.send(rt, place, RowBatch { rows: own, until });
        place += 1;
    }
}

/// Reads the rows of a script, and sends them to its dies, until it ends or is refused. Dies that no worker has are run
/// batch by batch. The run of a die that is refused stops nothing: a script with a fault takes no longer than one without.
/// The only refusal of this call is NoMemory.
fn send_all<R: Wait, S: Read + Drop>(
    rt: &R,
    alloc: Global,
    script: &mut ScriptReader<S>,
    run: &mut Run<'_, RowRunner, RowBatch>,
    slots: u32,
) -> Result<ReadEnd, Refusal>
    requires dies { length run.old ≡ dies_of script.old }
    requires first { 1 ≤ line_of script.old }
    requires slots { slots_of script.old ≡ slots }
    requires few { slots ≤ MAX_SLOT }
    requires none { NoneSent run.old }
    ensures sent { IfOk result
        (AreSent S.remaining slots script.old script.new run.old run.new) }
    ensures refused { FailsForMemory result }
{
    for _ in 0..u32::MAX {
        let empty = empty_lists(alloc, run)?;
        let read = read_rows(script, empty)?;
        let until = match read.end {
            ReadEnd::Ended => slots,
            _ => 0,
        };
        send_rows(rt, run, read.dies, until);
        run.go_on(alloc);
        let ReadEnd::More = read.end else {
            return Ok(read.end);
        };
    }
    // No script has 4,294,967,295 batches: each except the last has a row, and no row has a number above 1,000,001.
    unreachable!()
}

/// Begins the run, reads the script, and ends the run. The only refusal of this call is NoMemory.
fn send_by<'s, 'e: 's, R: Threads + Wait + Sync, S: Read + Drop>(
    scope: &Scope<'s, &'e ()>,
    rt: &'e R,
    alloc: Global,
    script: ScriptReader<S>,
    runners: Vec<RowRunner>,
    signals: &'e Signals,
    slots: u32,
) -> Result<RanRows<S>, Refusal>
    requires fresh { All IsFresh runners.items }
    requires dies { length runners.items ≡ dies_of script }
    requires first { 1 ≤ line_of script }
    requires slots { slots_of script ≡ slots }
    requires few { slots ≤ MAX_SLOT }
    ensures ran { IfOk result (HasRanFrom S.remaining runners.items slots script) }
    ensures refused { FailsForMemory result }
{
    let mut run = match Run::begin(scope, rt, alloc, runners, signals) {
        Ok(run) => run,
        Err(refusal) => return Err(refusal),
    };
    let mut script = script;
    let end = send_all(rt, alloc, &mut script, &mut run, slots);
    let dies = run.end(rt, alloc)?;
    let end = end?;
    Ok(RanRows { script, dies, end })
}

/// Fresh dies of plans. The only refusal is NoMemory.
fn fresh_runners(alloc: Global, plans: &[DiePlan]) -> Result<Vec<RowRunner>, Refusal>
    requires bound { All MeetsBound plans.now }
    ensures fresh { IfOk result (λ runners. AllZip IsFreshOf plans.now runners.items) }
    ensures refused { FailsForMemory result }
{
    let mut runners = Vec::new(alloc);
    for plan in plans {
        runners.push(RowRunner::new(alloc, plan)?)?;
    }
    Ok(runners)
}

/// Reads a script, sends its rows to fresh dies of these plans, and runs them, by `workers` workers, or by this thread
/// where there is only one. The only refusal of this call is NoMemory.
pub fn send_script<R: Threads + Wait + Sync, S: Read + Drop>(
    rt: &R,
    alloc: Global,
    plans: &[DiePlan],
    script: ScriptReader<S>,
    slots: u32,
    workers: u32,
) -> Result<RanRows<S>, Refusal>
    requires dies { length plans.now ≡ dies_of script }
    requires first { 1 ≤ line_of script }
    requires slots { slots_of script ≡ slots }
    requires few { slots ≤ MAX_SLOT }
    requires bound { All MeetsBound plans.now }
    ensures ran { IfOk result (HasRanRows S.remaining plans.now slots script) }
    ensures refused { FailsForMemory result }
{
    let runners = fresh_runners(alloc, plans)?;
    let signals = Signals::new(alloc, if workers == 1 { 0 } else { workers })?;
    let told = &signals;
    thread::scope(
        thread::scope_env(),
        rt,
        move |scope| -> Result<RanRows<S>, Refusal>
            requires { All IsFresh runners.items × (length runners.items ≡ dies_of script)
                × (1 ≤ line_of script) × (slots_of script ≡ slots) × (slots ≤ MAX_SLOT) }
            ensures { FailsForMemory result × IfOk result
                (HasRanFrom S.remaining runners.items slots script) }
        { send_by(scope, rt, alloc, script, runners, told, slots) },
    )
}
