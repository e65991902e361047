//! One row of a script on its die.

ghost use Rattle.std.specs.Prelude.{◌≡◌, ℕ, ◌+◌, All, ◌<◌, ◌≤◌, ◌++◌, ◌∷◌, [], List, length, map, IfOk, OnOk};
ghost use Rattle.slot_types.specs.Arrivals.{IsArrival};
ghost use Rattle.slot_types.specs.Refusal.{FailsForMemory};
ghost use Rattle.script_texts.specs.declared.script_rows.ScriptItem.{ScriptItem};
ghost use Rattle.flashplan_script_runs.specs.RunningDies.{starts_of};
ghost use Rattle.flashplan_script_runs.specs.ScriptRuns.{EndedRow, HaveEnded, HaveRun, HaveRunBelow, TakesRow, ended_row, rows_of_die};

use crate::refused::{RefusedRow, asker_of, note_refused};
use crate::script_dies::ScriptDie;
use script_texts::ScriptItem;
use slot_types::{MAX_SLOT, Refusal};
use std::alloc::Global;

/// Carries a die to the slot of a row, and asks for what the row says. Answers why it was refused, if it was. The only
/// refusal of this call is NoMemory.
pub fn take_row<D: ScriptDie>(
    alloc: Global,
    die: &mut D,
    item: ScriptItem,
) -> Result<Option<Refusal>, Refusal>
    requires few { item.at ≤ MAX_SLOT }
    requires arrival { IsArrival item.event }
    ensures taken { IfOk result (λ refusal.
        TakesRow (ended_row item refusal) (D.running die.old) (D.running die.new)) }
    ensures start { (D.running die.new).start ≡ (D.running die.old).start }
    ensures well { D.runs_well die.old → D.runs_well die.new }
    ensures refused { FailsForMemory result }
{
    die.carry_to(alloc, item.at)?;
    die.ask(alloc, item.event)
}

/// The same on its die among all.
fn take_own<D: ScriptDie>(
    alloc: Global,
    dies: &mut Vec<D>,
    item: ScriptItem,
) -> Result<Option<Refusal>, Refusal>
    requires few { item.at ≤ MAX_SLOT }
    requires arrival { IsArrival item.event }
    requires there { item.die < length dies.old.items }
    ensures ran { IfOk result (λ refusal. (rows : List EndedRow) →
        HaveRun (rows_of_die rows) 0 (map D.running dies.old.items) →
        HaveRun (rows_of_die (rows ++ ended_row item refusal ∷ [])) 0 (map D.running dies.new.items)) }
    ensures starts { starts_of (map D.running dies.new.items)
        ≡ starts_of (map D.running dies.old.items) }
    ensures count { length dies.new.items ≡ length dies.old.items }
    ensures well { All D.runs_well dies.old.items → All D.runs_well dies.new.items }
    ensures refused { FailsForMemory result }
{
    let place = item.die as usize;
    take_row(alloc, &mut dies[place], item)
}

/// Runs a row on its die among all, whose rows so far are then these and this one; where it is refused, it is one more of
/// those that were refused.
pub fn run_row<D: ScriptDie>(
    alloc: Global,
    dies: &mut Vec<D>,
    refused: &mut Vec<RefusedRow>,
    item: ScriptItem,
) -> Result<(), Refusal>
    requires few { item.at ≤ MAX_SLOT }
    requires arrival { IsArrival item.event }
    requires there { item.die < length dies.old.items }
    ensures ran { OnOk result ((items : List ScriptItem) →
        HaveEnded items refused.old.items 0 (map D.running dies.old.items) →
        HaveEnded (items ++ item ∷ []) refused.new.items 0 (map D.running dies.new.items)) }
    ensures starts { starts_of (map D.running dies.new.items)
        ≡ starts_of (map D.running dies.old.items) }
    ensures count { length dies.new.items ≡ length dies.old.items }
    ensures well { All D.runs_well dies.old.items → All D.runs_well dies.new.items }
    ensures refused { FailsForMemory result }
{
    let asker = asker_of(&item);
    let refusal = take_own(alloc, dies, item)?;
    note_refused(refused, asker, refusal)
}

/// Carries the die at a place to a slot.
fn carry_at<D: ScriptDie>(
    alloc: Global,
    dies: &mut Vec<D>,
    place: usize,
    slot: u32,
) -> Result<(), Refusal>
    requires few { slot ≤ MAX_SLOT }
    requires there { place < length dies.old.items }
    ensures ran { OnOk result ((rows : ℕ → List EndedRow) →
        HaveRunBelow place rows slot (map D.running dies.old.items) →
        HaveRunBelow (place + 1) rows slot (map D.running dies.new.items)) }
    ensures starts { starts_of (map D.running dies.new.items)
        ≡ starts_of (map D.running dies.old.items) }
    ensures count { length dies.new.items ≡ length dies.old.items }
    ensures well { All D.runs_well dies.old.items → All D.runs_well dies.new.items }
    ensures refused { FailsForMemory result }
{
    dies[place].carry_to(alloc, slot)
}

/// Carries each die to a slot, once its rows were run.
pub fn carry_all<D: ScriptDie>(alloc: Global, dies: &mut Vec<D>, slot: u32) -> Result<(), Refusal>
    requires few { slot ≤ MAX_SLOT }
    ensures ran { OnOk result ((rows : ℕ → List EndedRow) →
        HaveRun rows 0 (map D.running dies.old.items) →
        HaveRun rows slot (map D.running dies.new.items)) }
    ensures starts { starts_of (map D.running dies.new.items)
        ≡ starts_of (map D.running dies.old.items) }
    ensures count { length dies.new.items ≡ length dies.old.items }
    ensures well { All D.runs_well dies.old.items → All D.runs_well dies.new.items }
    ensures refused { FailsForMemory result }
{
    for place in 0..dies.len() {
        carry_at(alloc, dies, place, slot)?;
    }
    Ok(())
}
