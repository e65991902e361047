//! A script that is run on the dies of a store.

ghost use Rattle.std.specs.Prelude.{◌≡◌, ℕ, ◌≤◌, false, All, List, Option, IfErr, IfOk, OnOk, length, map};
ghost use Rattle.std.specs.List.{AllZip};
ghost use Rattle.slot_types.specs.Refusal.{FailsForMemory};
ghost use Rattle.plan_rules.specs.Bound.{MeetsBound};
ghost use Rattle.report_texts.specs.TextSoFar.{text_so_far};
ghost use Rattle.task_script.specs.StoreRuns.{reports_of};
ghost use Rattle.script_texts.specs.ScriptLeft.{dies_of, script_left, slots_of};
ghost use Rattle.flashplan_script_runs.specs.RunningDies.{HasEmptyLog};
ghost use Rattle.flashplan_script_runs.specs.ScriptRuns.{GoesOn, script_in};
ghost use Rattle.flashplan_checkpoint_runs.specs.Refusals.{RefusesRun, RefusesStart};
ghost use Rattle.flashplan_checkpoint_runs.specs.Runs.{NoneStopped, RanAndWentOn, boxed_starts, running, running_in, starts_by, starts_of};

use crate::dies::{DiesOn, StoreDies, in_box, push_die};
use crate::faults::RunFault;
use crate::settling::settle;
use crate::starts::{fresh_store, saved_store};
use checkpoint_texts::SavedStore;
use flash_die::{MemoryNand, Nand};
use flashplan_script_runs::{RefusedRows, run_dies};
use report_texts::ReportText;
use script_texts::ScriptReader;
use slot_core::DieCore;
use slot_types::{MAX_SLOT, Refusal, StorePlan};
use std::alloc::Global;
use std::io::Read;
use task_script::add_die;

/// What came of a run.
#[derive(Drop)]
pub struct StoreRun {
    pub dies: StoreDies,
    /// What each die's log says over its start.
    pub report: ReportText,
    pub refused: RefusedRows,
    /// By die how many slots it went on for until all was done; empty where the run ended with its last slot.
    pub idle: Vec<u32>,
}

/// The dies of a plan as they start. Refused with the first fault of what was saved, of the first die that has one; or with
/// NoMemory.
fn dies_of(alloc: Global, plan: StorePlan, from: Option<SavedStore>) -> Result<StoreDies, RunFault>
    requires bound { All MeetsBound plan }
    ensures starts { IfOk result (λ dies. starts_of dies.items ≡ starts_by plan from) }
    ensures empty { IfOk result (λ dies. All HasEmptyLog (running dies.items)) }
    ensures run { IfOk result (λ dies. All (λ die. die.stopped ≡ false) dies.items) }
    ensures count { IfOk result (λ dies. length dies.items ≡ length plan) }
    ensures refused { IfErr result (RefusesStart plan from) }
{
    match from {
        None => Ok(fresh_store(alloc, plan)?),
        Some(saved) => saved_store(alloc, plan, &saved),
    }
}

/// Dies, each in a box. The only refusal is NoMemory.
fn boxed(alloc: Global, dies: StoreDies) -> Result<Vec<Box<DieCore<MemoryNand>>>, Refusal>
    ensures same { IfOk result (λ boxed. map running_in boxed.items ≡ running dies.items) }
    ensures refused { FailsForMemory result }
{
    let mut boxed = Vec::new(alloc);
    for die in dies {
        let own = in_box(alloc, die)?;
        push_die(&mut boxed, own)?;
    }
    Ok(boxed)
}

/// The dies of a plan as they start, each in a box: fresh, or as they were saved. Refused with the first fault of what was
/// saved, of the first die that has one; or with NoMemory.
pub fn started_store(
    alloc: Global,
    plan: StorePlan,
    from: Option<SavedStore>,
) -> Result<Vec<Box<DieCore<MemoryNand>>>, RunFault>
    requires bound { All MeetsBound plan }
    ensures starts { IfOk result (λ dies. boxed_starts dies.items ≡ starts_by plan from) }
    ensures empty { IfOk result (λ dies. All HasEmptyLog (map running_in dies.items)) }
    ensures run { IfOk result (λ dies. NoneStopped (map running_in dies.items)) }
    ensures count { IfOk result (λ dies. length dies.items ≡ length plan) }
    ensures refused { IfErr result (RefusesStart plan from) }
{
    let dies = dies_of(alloc, plan, from)?;
    let own = boxed(alloc, dies)?;
    Ok(own)
}

/// The report of dies, by number: what each log says over its start. The only refusal is NoMemory.
pub(crate) fn report_of<N: Nand>(alloc: Global, dies: &DiesOn<N>) -> Result<ReportText, Refusal>
    requires { length dies.now.items ≤ 8 }
    ensures text { IfOk result (λ text. text ≡ text_so_far (reports_of 0 dies.now.items)) }
    ensures refused { FailsForMemory result }
{
    let mut text = ReportText::new(alloc)?;
    for number in 0..dies.len() {
        add_die(alloc, &mut text, number as u32, &dies[number])?;
    }
    Ok(text)
}

/// Lets each die go on until all that it accepted is done or was waived, where the run is to be saved; answers by die how
/// many slots it took. The only refusal is NoMemory.
fn settled(alloc: Global, dies: &mut StoreDies, saves: bool) -> Result<Vec<u32>, Refusal>
    ensures went_on { OnOk result (AllZip GoesOn (running dies.old.items) (running dies.new.items)) }
    ensures no_more { saves ≡ false → running dies.new.items ≡ running dies.old.items }
    ensures refused { FailsForMemory result }
    ensures starts { starts_of dies.new.items ≡ starts_of dies.old.items }
    ensures count { length dies.new.items ≡ length dies.old.items }
{
    if !saves {
        return Ok(Vec::new(alloc));
    }
    settle(alloc, dies)
}

/// Runs a script on the dies of a plan, as [`run_script`] does. It is lent, since a reader is large to free where the
/// run stops.
fn run_lent<R: Read + Drop>(
    alloc: Global,
    plan: StorePlan,
    from: Option<SavedStore>,
    script: &mut ScriptReader<R>,
    slots: u32,
    saves: bool,
) -> Result<StoreRun, RunFault>
    requires few_dies { length plan ≤ 8 }
    requires bound { All MeetsBound plan }
    requires few_slots { slots ≤ MAX_SLOT }
    requires slots { slots_of script.old ≡ slots }
    requires dies { dies_of script.old ≡ length plan }
    ensures ran { (text : Option (List ℕ)) →
        script_left R.remaining script.old ≡ script_in (length plan) slots text →
        IfOk result (λ run.
        RanAndWentOn (starts_by plan from) text slots saves run.refused (running run.dies.items)) }
    ensures starts { IfOk result (λ run. starts_of run.dies.items ≡ starts_by plan from) }
    ensures report { IfOk result (λ run. run.report ≡ text_so_far (reports_of 0 run.dies.items)) }
    ensures count { IfOk result (λ run. length run.dies.items ≡ length plan) }
    ensures refused { IfErr result (RefusesRun plan from (script_left R.remaining script.old)) }
{
    let mut dies = dies_of(alloc, plan, from)?;
    let refused = run_dies(alloc, script, &mut dies, slots)?;
    let refused = RefusedRows::of(&refused);
    let idle = settled(alloc, &mut dies, saves)?;
    let report = report_of(alloc, &dies)?;
    Ok(StoreRun {
        dies,
        report,
        refused,
        idle,
    })
}

/// Runs a script on the dies of a plan, fresh ones or from what was saved of them, each up to slot `slots`. A row comes before the slot of
/// its `at`; one that its die refuses is no event, and is counted. Where the run is to be saved, each die goes on until all that it
/// accepted is done or was waived, at most as many slots as that work can take, and not beyond slot 1,048,576.
///
/// The report is read off the log of each die over its start. Refused with the first fault of what was saved, of the first die that
/// has one; of the script, as [`ScriptReader`] tells it; or with ReadFault or NoMemory.
pub fn run_script<R: Read + Drop>(
    alloc: Global,
    plan: StorePlan,
    from: Option<SavedStore>,
    script: R,
    slots: u32,
    saves: bool,
) -> Result<StoreRun, RunFault>
    requires few_dies { length plan ≤ 8 }
    requires bound { All MeetsBound plan }
    requires few_slots { slots ≤ MAX_SLOT }
    ensures ran { IfOk result (λ run.
        RanAndWentOn (starts_by plan from) (R.remaining script) slots saves run.refused
        (running run.dies.items)) }
    ensures starts { IfOk result (λ run. starts_of run.dies.items ≡ starts_by plan from) }
    ensures report { IfOk result (λ run. run.report ≡ text_so_far (reports_of 0 run.dies.items)) }
    ensures count { IfOk result (λ run. length run.dies.items ≡ length plan) }
    ensures refused { IfErr result
        (RefusesRun plan from (script_in (length plan) slots (R.remaining script))) }
{
    let mut script = ScriptReader::new(alloc, script, &plan, slots)?;
    run_lent(alloc, plan, from, &mut script, slots, saves)
}
