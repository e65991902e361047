//! A script that is run on the dies of a store that keep their plans.

ghost use Rattle.std.specs.Prelude.{◌≡◌, ◌≤◌, All, IfOk, length, map};
ghost use Rattle.std.specs.List.{AllZip};
ghost use Rattle.slot_types.specs.Refusal.{FailsForMemory};
ghost use Rattle.report_texts.specs.TextSoFar.{text_so_far};
ghost use Rattle.task_script.specs.StoreRuns.{reports_of};
ghost use Rattle.script_texts.specs.ScriptLeft.{dies_of, script_left, slots_of};
ghost use Rattle.flashplan_kept_runs.specs.KeptDies.{AreWithin, BeginsBy, HasEmptyLog, begins_of, cores_of, kept_of};
ghost use Rattle.flashplan_kept_runs.specs.KeptRuns.{IsKeptRun, RanKept};

use crate::fresh_dies::fresh_die;
use crate::lists::push;
use crate::memory_dies::MemoryDie;
use crate::refusals::KeptFault;
use crate::row_counts::RowCounts;
use crate::script_runs::run_dies;
use report_texts::ReportText;
use script_texts::ScriptReader;
use slot_types::{MAX_SLOT, Refusal};
use std::alloc::Global;
use std::io::Read;
use task_script::add_die;
use terms_texts::{StoreTerms, plans_of};

/// What came of a run.
#[derive(Drop)]
pub struct KeptRun {
    pub dies: Vec<MemoryDie>,
    /// What each die's log says over its start.
    pub report: ReportText,
    pub rows: RowCounts,
}

/// Dies on which nothing was done, one of each plan, that may run `slots` slots.
fn fresh_store(alloc: Global, plans: StoreTerms, slots: u32) -> Result<Vec<MemoryDie>, KeptFault>
    ensures begin { IfOk result (λ dies. AllZip BeginsBy plans (begins_of (map kept_of dies.items))) }
    ensures empty { IfOk result (λ dies. All HasEmptyLog (map kept_of dies.items)) }
    ensures within { IfOk result (λ dies. AreWithin slots (map kept_of dies.items)) }
{
    let mut dies = Vec::new(alloc);
    for plan in plans.into_vec() {
        let number = u32::try_from(dies.len()).unwrap_or(u32::MAX);
        let die = fresh_die(alloc, number, plan, slots)?;
        push(&mut dies, die)?;
    }
    Ok(dies)
}

/// The report of dies, by number: what each log says over its start. The only refusal is NoMemory.
fn report_of(alloc: Global, dies: &Vec<MemoryDie>) -> Result<ReportText, Refusal>
    requires { length dies.now.items ≤ 8 }
    ensures text { IfOk result (λ text. text ≡ text_so_far (reports_of 0 (cores_of dies.now.items))) }
    ensures refused { FailsForMemory result }
{
    let mut text = ReportText::new(alloc)?;
    for number in 0..dies.len() {
        let core = dies[number].core();
        add_die(alloc, &mut text, number as u32, core)?;
    }
    Ok(text)
}

/// Runs a script on fresh dies, as [`run_kept`] does. It is lent, since a reader is large to free where the run stops.
fn run_lent<R: Read + Drop>(
    alloc: Global,
    plans: StoreTerms,
    script: &mut ScriptReader<R>,
    slots: u32,
) -> Result<KeptRun, KeptFault>
    requires few_dies { length plans ≤ 8 }
    requires slots { slots_of script.old ≡ slots }
    requires dies { dies_of script.old ≡ length plans }
    ensures begin { IfOk result (λ run. AllZip BeginsBy plans (begins_of (map kept_of run.dies.items))) }
    ensures ran { IfOk result (λ run.
        RanKept (script_left R.remaining script.old) slots (map kept_of run.dies.items)) }
    ensures report { IfOk result (λ run.
        run.report ≡ text_so_far (reports_of 0 (cores_of run.dies.items))) }
{
    let mut dies = fresh_store(alloc, plans, slots)?;
    let rows = run_dies(alloc, script, &mut dies, slots)?;
    let report = report_of(alloc, &dies)?;
    Ok(KeptRun { dies, report, rows })
}

/// Runs a script on fresh dies in memory that keep these plans, each up to slot `slots`. A row comes before the slot of its
/// `at`: one of a job is an ask of its task, and has to say the release and the deadline that the plan gives such a job;
/// one of a collection is passed over, since each die enters its collections itself. What isn't taken is counted by its
/// cause. A die has the longest life that its plan has.
///
/// Each job that is due by slot `slots` was done by its deadline. The report is read off the log of each die over its
/// start.
///
/// Refused with the first die that can't run so: BadPlan where its plan doesn't pass its tests, NoLife where that has no life,
/// LongerThanLife where a life has fewer slots. Nothing of the script was read then. Else with the first fault of the script, as
/// [`ScriptReader`] tells it; or with ReadFault or NoMemory.
pub fn run_kept<R: Read + Drop>(
    alloc: Global,
    plans: StoreTerms,
    script: R,
    slots: u32,
) -> Result<KeptRun, KeptFault>
    requires few_dies { length plans ≤ 8 }
    requires few_slots { slots ≤ MAX_SLOT }
    ensures ran { IfOk result (λ run.
        IsKeptRun plans (R.remaining script) slots (map kept_of run.dies.items)) }
    ensures report { IfOk result (λ run.
        run.report ≡ text_so_far (reports_of 0 (cores_of run.dies.items))) }
{
    let bare = plans_of(alloc, &plans)?;
    let mut script = ScriptReader::new(alloc, script, &bare, slots)?;
    run_lent(alloc, plans, &mut script, slots)
}
