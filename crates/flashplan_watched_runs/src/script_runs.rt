//! Scripts that are run, row by row, on dies whose devices are in memory.

ghost use Rattle.std.specs.Prelude.{◌≡◌, ℕ, ◌≤◌, ◌++◌, ◌∷◌, [], List, Option, false, All, length, map, IfErr, IfOk, OnOk};
ghost use Rattle.std.specs.Box.{box_value};
ghost use Rattle.plan_rules.specs.Bound.{MeetsBound};
ghost use Rattle.slot_types.specs.Refusal.{FailsForMemory};
ghost use Rattle.script_texts.specs.ScriptLeft.{dies_of, script_left, slots_of};
ghost use Rattle.flashplan_script_runs.specs.RunningDies.{HasEmptyLog, starts_of};
ghost use Rattle.flashplan_script_runs.specs.ScriptRuns.{IsRunOf, RefusesScript, script_in};
ghost use Rattle.flashplan_watched_runs.specs.Failing.{RunsWell};
ghost use Rattle.flashplan_watched_runs.specs.Runs.{StartsWell, begun, core_of, failure_among, running, worn_of};
ghost use Rattle.flashplan_watched_runs.specs.Wear.{IsWorn};
ghost use Rattle.flashplan_watched_runs.specs.WearText.{IsWearFrom, IsWearText};

use crate::die_runs::DieRun;
use crate::failing::{FailAt, Failure, failure_in};
use crate::started_dies::{StartedDie, fresh_dies};
use crate::{Tally, wear_text};
use flashplan_script_runs::{RefusedRow, RefusedRows, run_dies};
use script_texts::ScriptReader;
use slot_types::{MAX_SLOT, Refusal, StorePlan};
use std::alloc::Global;
use std::io::Read;

/// What of a run is worth a picture.
#[derive(Clone, Copy, Drop)]
pub struct Sights {
    /// From which slot on, and before which one, the worst was carried, or what was due no later.
    pub worst: Option<(u32, u32)>,
    /// The slot in which the first collection reads or erases.
    pub collection: Option<u32>,
}

/// What is reported of a run, as a text, and which rows were refused.
#[derive(Drop)]
pub struct Reported {
    pub text: Vec<u8>,
    pub refused: RefusedRows,
    pub sights: Sights,
    /// What became of the device that was to fail; none where none was, or its die didn't run.
    pub failure: Option<Failure>,
}

/// Dies that ran a script, and which of its rows they refused.
#[derive(Drop)]
pub struct Ran {
    pub dies: Vec<Box<DieRun>>,
    pub refused: Vec<RefusedRow>,
}

impl Sights {
    /// Nothing was seen.
    pub const NONE: Sights = Sights {
        worst: None,
        collection: None,
    };
}

/// Adds a die. The only refusal is NoMemory.
pub fn push_run(dies: &mut Vec<Box<DieRun>>, run: Box<DieRun>) -> Result<(), Refusal>
    ensures ok { OnOk result (dies.new.items ≡ dies.old.items ++ run ∷ []) }
    ensures refused { FailsForMemory result }
{
    dies.push(run)?;
    Ok(())
}

/// Dies that are watched while they run: those that were started. The only refusal is NoMemory.
fn watched(alloc: Global, dies: Vec<StartedDie>) -> Result<Vec<Box<DieRun>>, Refusal>
    requires { All HasEmptyLog (map begun dies.items) }
    ensures same { IfOk result (λ runs. map running runs.items ≡ map begun dies.items) }
    ensures well { IfOk result (λ runs. All StartsWell dies.items →
        All (λ run. RunsWell (core_of run)) runs.items) }
    ensures refused { FailsForMemory result }
{
    let mut runs = Vec::new(alloc);
    let mut die: u32 = 0;
    for started in dies {
        let run = DieRun::boxed(alloc, die, started, (0, 0))?;
        push_run(&mut runs, run)?;
        die = die.saturating_add(1);
    }
    Ok(runs)
}

/// What became of the device that was to fail; none where none was, or its die isn't one of these.
pub fn failure_of(fail: Option<FailAt>, dies: &[Box<DieRun>]) -> Option<Failure>
    ensures { result ≡ failure_among fail (map core_of dies.now) }
{
    let at = fail?;
    let run = dies.get(at.die as usize)?;
    Some(failure_in(at, &run.core))
}

/// Runs a script on dies that were started. The script is lent, since a reader is large to free where a row stops the
/// run.
///
/// Refused with the first fault of the script, as [`ScriptReader`] says it; or with ReadFault or NoMemory.
pub fn run_started<R: Read + Drop>(
    alloc: Global,
    script: &mut ScriptReader<R>,
    dies: Vec<StartedDie>,
    slots: u32,
) -> Result<Ran, Refusal>
    requires few { slots ≤ MAX_SLOT }
    requires slots { slots_of script.old ≡ slots }
    requires dies { dies_of script.old ≡ length dies.items }
    requires empty { All HasEmptyLog (map begun dies.items) }
    ensures ran { (text : Option (List ℕ)) →
        script_left R.remaining script.old ≡ script_in (length dies.items) slots text →
        IfOk result (λ ran.
        IsRunOf (starts_of (map begun dies.items)) text slots ran.refused.items
        (map running ran.dies.items)) }
    ensures well { IfOk result (λ ran. All StartsWell dies.items →
        All (λ run. (running run).stopped ≡ false) ran.dies.items) }
    ensures refused { IfErr result (RefusesScript (script_left R.remaining script.old)) }
{
    let mut runs = watched(alloc, dies)?;
    let refused = run_dies(alloc, script, &mut runs, slots)?;
    Ok(Ran {
        dies: runs,
        refused,
    })
}

/// What a die wore, which is given up.
fn tally_of(run: Box<DieRun>) -> Tally
    ensures tally { result ≡ (box_value run).tally }
    ensures worn { IsWorn (worn_of run) }
{
    run.core.promises();
    let DieRun { tally, .. } = Box::into_inner(run);
    tally
}

/// Adds what a die wore. The only refusal is NoMemory.
fn push_tally(tallies: &mut Vec<Tally>, tally: Tally) -> Result<(), Refusal>
    ensures ok { OnOk result (tallies.new.items ≡ tallies.old.items ++ tally ∷ []) }
    ensures refused { FailsForMemory result }
{
    tallies.push(tally)?;
    Ok(())
}

/// What dies wore. The only refusal is NoMemory.
fn tallies_of(alloc: Global, dies: Vec<Box<DieRun>>) -> Result<Vec<Tally>, Refusal>
    ensures tallies { IfOk result (λ tallies.
        tallies.items ≡ map (λ die. (worn_of die).tally) dies.items) }
    ensures worn { IfOk result (λ _. All (λ die. IsWorn (worn_of die)) dies.items) }
    ensures refused { FailsForMemory result }
{
    let mut tallies = Vec::new(alloc);
    for run in dies {
        push_tally(&mut tallies, tally_of(run))?;
    }
    Ok(tallies)
}

/// Runs a script on dies that were started, whose devices make all calls of a life well, and reports what it wore, as a
/// text of records: the counts are those of the dies' logs. The script is lent, since a reader is large to free where a row
/// stops the run.
///
/// Refused with the first fault of the script, as [`ScriptReader`] says it; or with ReadFault or NoMemory.
pub fn wear_of<R: Read + Drop>(
    alloc: Global,
    script: &mut ScriptReader<R>,
    dies: Vec<StartedDie>,
    slots: u32,
) -> Result<Reported, Refusal>
    requires few { slots ≤ MAX_SLOT }
    requires slots { slots_of script.old ≡ slots }
    requires dies { dies_of script.old ≡ length dies.items }
    requires empty { All HasEmptyLog (map begun dies.items) }
    requires well { All StartsWell dies.items }
    ensures text { (text : Option (List ℕ)) →
        script_left R.remaining script.old ≡ script_in (length dies.items) slots text →
        IfOk result (λ reported.
        IsWearFrom (starts_of (map begun dies.items)) text slots reported.refused
        reported.text.items) }
    ensures refused { IfErr result (RefusesScript (script_left R.remaining script.old)) }
{
    let Ran { dies, refused } = run_started(alloc, script, dies, slots)?;
    let counts = RefusedRows::of(&refused);
    let tallies = tallies_of(alloc, dies)?;
    let text = wear_text(alloc, &tallies)?;
    Ok(Reported {
        text,
        refused: counts,
        sights: Sights::NONE,
        failure: None,
    })
}

/// Runs a script on a store of fresh dies in memory, and reports what it wore, as [`wear_of`] does. It is refused as there.
pub fn wear<R: Read + Drop>(
    alloc: Global,
    plan: StorePlan,
    script: R,
    slots: u32,
) -> Result<Reported, Refusal>
    requires few { slots ≤ MAX_SLOT }
    requires bound { All MeetsBound plan }
    ensures text { IfOk result (λ reported.
        IsWearText plan (R.remaining script) slots reported.refused reported.text.items) }
    ensures refused { IfErr result
        (RefusesScript (script_in (length plan) slots (R.remaining script))) }
{
    let mut script = ScriptReader::new(alloc, script, &plan, slots)?;
    let dies = fresh_dies(alloc, plan, None)?;
    wear_of(alloc, &mut script, dies, slots)
}
