//! The rows of a script on the dies of a store, or on one of them, and then the slots that are left.

ghost use Rattle.std.specs.Prelude.{◌≡◌, ◌≤◌, ◌++◌, ◌∷◌, [], All, List, length, map, IfErr, IfOk, OnOk};
ghost use Rattle.slot_types.specs.Arrivals.{IsArrival};
ghost use Rattle.slot_types.specs.Refusal.{FailsForMemory};
ghost use Rattle.script_texts.specs.ScriptLeft.{dies_of, script_left, slots_of};
ghost use Rattle.flashplan_script_runs.specs.RunningDies.{HasEmptyLog, starts_of};
ghost use Rattle.script_texts.specs.declared.script_rows.ScriptItem.{ScriptItem};
ghost use Rattle.flashplan_script_runs.specs.ScriptRuns.{HasEnded, RanAsDie, RanScript, RefusesScript, items_of_die};

use crate::refused::{RefusedRow, asker_of, note_refused};
use crate::rows::{carry_all, run_row, take_row};
use crate::script_dies::ScriptDie;
use script_texts::{ScriptItem, ScriptReader};
use slot_types::{Cause, MAX_SLOT, Refusal};
use std::alloc::Global;
use std::io::Read;

/// The record of a script that no reader reads.
const LINE_PAST_ALL: u32 = 1_000_002;

/// More rows than any script has.
const MORE_THAN_ALL: u32 = 1_000_003;

/// That a script has too many rows. Its reader says so before it is called [`MORE_THAN_ALL`] times.
const fn too_many_rows() -> Refusal {
    Refusal::ScriptRow {
        line: LINE_PAST_ALL,
        cause: Cause::TooManyRows,
    }
}

/// Runs the rows that a reader has left. It is lent, since a reader is large to free where a row stops the run.
fn read_rows<R: Read + Drop, D: ScriptDie>(
    alloc: Global,
    script: &mut ScriptReader<R>,
    dies: &mut Vec<D>,
) -> Result<Vec<RefusedRow>, Refusal>
    requires few { slots_of script.old ≤ MAX_SLOT }
    requires dies { dies_of script.old ≡ length dies.old.items }
    requires empty { All HasEmptyLog (map D.running dies.old.items) }
    ensures ran { IfOk result (λ refused. RanScript (script_left R.remaining script.old) 0
        refused.items (map D.running dies.new.items)) }
    ensures starts { starts_of (map D.running dies.new.items)
        ≡ starts_of (map D.running dies.old.items) }
    ensures count { length dies.new.items ≡ length dies.old.items }
    ensures well { All D.runs_well dies.old.items → All D.runs_well dies.new.items }
    ensures refused { IfErr result (RefusesScript (script_left R.remaining script.old)) }
{
    let mut refused = Vec::new(alloc);
    for _ in 0..MORE_THAN_ALL {
        let Some(item) = script.next()? else {
            return Ok(refused);
        };
        run_row(alloc, dies, &mut refused, item)?;
    }
    Err(too_many_rows())
}

/// Runs the rows that a reader has left on the dies of a store, and then what is left of `slots` slots. A row comes on
/// its die once the slots before its `at` were carried out. One that its die refuses is no event. A die whose device
/// fails stays in that slot, and refuses the rows that are left. Answers the rows that were refused, in their order.
///
/// Refused with the first fault of the script, as [`ScriptReader`] says it; or with ReadFault or NoMemory. Nothing is said
/// of the logs of the dies then.
pub fn run_dies<R: Read + Drop, D: ScriptDie>(
    alloc: Global,
    script: &mut ScriptReader<R>,
    dies: &mut Vec<D>,
    slots: u32,
) -> Result<Vec<RefusedRow>, Refusal>
    requires few { slots ≤ MAX_SLOT }
    requires slots { slots_of script.old ≡ slots }
    requires dies { dies_of script.old ≡ length dies.old.items }
    requires empty { All HasEmptyLog (map D.running dies.old.items) }
    ensures ran { IfOk result (λ refused. RanScript (script_left R.remaining script.old) slots
        refused.items (map D.running dies.new.items)) }
    ensures starts { starts_of (map D.running dies.new.items)
        ≡ starts_of (map D.running dies.old.items) }
    ensures count { length dies.new.items ≡ length dies.old.items }
    ensures well { All D.runs_well dies.old.items → All D.runs_well dies.new.items }
    ensures refused { IfErr result (RefusesScript (script_left R.remaining script.old)) }
{
    let refused = read_rows(alloc, script, dies)?;
    carry_all(alloc, dies, slots)?;
    Ok(refused)
}

/// Runs a row on the die of this number. One of another die is passed over.
fn run_own<D: ScriptDie>(
    alloc: Global,
    die: &mut D,
    number: u32,
    refused: &mut Vec<RefusedRow>,
    item: ScriptItem,
) -> Result<(), Refusal>
    requires few { item.at ≤ MAX_SLOT }
    requires arrival { IsArrival item.event }
    ensures ran { OnOk result ((items : List ScriptItem) →
        HasEnded (items_of_die items number) refused.old.items 0 (D.running die.old) →
        HasEnded (items_of_die (items ++ item ∷ []) number) refused.new.items 0 (D.running die.new)) }
    ensures start { (D.running die.new).start ≡ (D.running die.old).start }
    ensures well { D.runs_well die.old → D.runs_well die.new }
    ensures refused { FailsForMemory result }
{
    if item.die != number {
        return Ok(());
    }
    let asker = asker_of(&item);
    let refusal = take_row(alloc, die, item)?;
    note_refused(refused, asker, refusal)
}

/// Runs the rows that a reader has left on the die of this number alone.
fn read_own<R: Read + Drop, D: ScriptDie>(
    alloc: Global,
    script: &mut ScriptReader<R>,
    die: &mut D,
    number: u32,
) -> Result<Vec<RefusedRow>, Refusal>
    requires few { slots_of script.old ≤ MAX_SLOT }
    requires empty { HasEmptyLog (D.running die.old) }
    ensures ran { IfOk result (λ refused. RanAsDie (script_left R.remaining script.old) 0 number
        refused.items (D.running die.new)) }
    ensures start { (D.running die.new).start ≡ (D.running die.old).start }
    ensures well { D.runs_well die.old → D.runs_well die.new }
    ensures refused { IfErr result (RefusesScript (script_left R.remaining script.old)) }
{
    let mut refused = Vec::new(alloc);
    for _ in 0..MORE_THAN_ALL {
        let Some(item) = script.next()? else {
            return Ok(refused);
        };
        run_own(alloc, die, number, &mut refused, item)?;
    }
    Err(too_many_rows())
}

/// Runs the rows that a reader has left on the die of this number alone, as [`run_dies`] does on all, and then what is
/// left of `slots` slots. Rows of other dies are passed over. It is refused as there.
pub fn run_die<R: Read + Drop, D: ScriptDie>(
    alloc: Global,
    script: &mut ScriptReader<R>,
    die: &mut D,
    number: u32,
    slots: u32,
) -> Result<Vec<RefusedRow>, Refusal>
    requires few { slots ≤ MAX_SLOT }
    requires slots { slots_of script.old ≡ slots }
    requires empty { HasEmptyLog (D.running die.old) }
    ensures ran { IfOk result (λ refused. RanAsDie (script_left R.remaining script.old) slots number
        refused.items (D.running die.new)) }
    ensures start { (D.running die.new).start ≡ (D.running die.old).start }
    ensures well { D.runs_well die.old → D.runs_well die.new }
    ensures refused { IfErr result (RefusesScript (script_left R.remaining script.old)) }
{
    let refused = read_own(alloc, script, die, number)?;
    die.carry_to(alloc, slots)?;
    Ok(refused)
}
