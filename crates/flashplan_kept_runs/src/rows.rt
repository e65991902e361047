//! One row of a script on its die.

ghost use Rattle.std.specs.Prelude.{◌≡◌, ℕ, ◌+◌, ◌<◌, ◌≤◌, ◌++◌, ◌∷◌, [], All, List, length, map, OnOk};
ghost use Rattle.slot_types.specs.Arrivals.{IsArrival};
ghost use Rattle.script_texts.specs.declared.script_rows.ScriptItem.{ScriptItem};
ghost use Rattle.flashplan_script_runs.specs.ScriptRuns.{items_of_die};
ghost use Rattle.flashplan_kept_runs.specs.KeptDies.{AreWithin, begins_of};
ghost use Rattle.flashplan_kept_runs.specs.KeptRuns.{HaveKeptTo, HaveTaken, TakesRow};

use crate::row_counts::RowCounts;
use crate::script_dies::KeptScriptDie;
use script_texts::ScriptItem;
use slot_types::{Event, Refusal};
use std::alloc::Global;

/// Carries a die to the slot of a row, and takes the row. One that is refused is counted, and so is one of a collection,
/// which is passed over. The only refusal is NoMemory.
fn take_row<D: KeptScriptDie>(
    alloc: Global,
    die: &mut D,
    rows: &mut RowCounts,
    item: ScriptItem,
) -> Result<(), Refusal>
    requires within { item.at ≤ (D.kept die.old).begun.life }
    requires arrival { IsArrival item.event }
    ensures taken { OnOk result (TakesRow item (D.kept die.old) (D.kept die.new)) }
    ensures begun { (D.kept die.new).begun ≡ (D.kept die.old).begun }
{
    let ScriptItem {
        line,
        at,
        event,
        ..
    } = item;
    if let Event::Collect { .. } = &event {
        rows.pass_over();
    }
    die.carry_to(alloc, at);
    if let Some(refusal) = die.take(alloc, event)? {
        rows.add(line, refusal);
    }
    Ok(())
}

/// The same on its die among all, whose rows so far are then these and this one.
pub(crate) fn run_row<D: KeptScriptDie>(
    alloc: Global,
    dies: &mut Vec<D>,
    rows: &mut RowCounts,
    item: ScriptItem,
) -> Result<(), Refusal>
    requires within { AreWithin item.at (map D.kept dies.old.items) }
    requires arrival { IsArrival item.event }
    requires there { item.die < length dies.old.items }
    ensures ran { OnOk result ((items : List ScriptItem) →
        HaveTaken (items_of_die items) (map D.kept dies.old.items) →
        HaveTaken (items_of_die (items ++ item ∷ [])) (map D.kept dies.new.items)) }
    ensures begins { begins_of (map D.kept dies.new.items)
        ≡ begins_of (map D.kept dies.old.items) }
    ensures count { length dies.new.items ≡ length dies.old.items }
{
    let place = item.die as usize;
    take_row(alloc, &mut dies[place], rows, item)
}

/// Carries the die at a place to a slot.
fn carry_at<D: KeptScriptDie>(alloc: Global, dies: &mut Vec<D>, place: usize, slot: u32)
    requires within { AreWithin slot (map D.kept dies.old.items) }
    requires there { place < length dies.old.items }
    ensures ran { (rows : ℕ → List ScriptItem) →
        HaveKeptTo place rows slot (map D.kept dies.old.items) →
        HaveKeptTo (place + 1) rows slot (map D.kept dies.new.items) }
    ensures begins { begins_of (map D.kept dies.new.items)
        ≡ begins_of (map D.kept dies.old.items) }
    ensures count { length dies.new.items ≡ length dies.old.items }
{
    dies[place].carry_to(alloc, slot);
}

/// Carries each die to a slot, once its rows were taken.
pub(crate) fn carry_all<D: KeptScriptDie>(alloc: Global, dies: &mut Vec<D>, slot: u32)
    requires within { AreWithin slot (map D.kept dies.old.items) }
    ensures ran { (rows : ℕ → List ScriptItem) →
        HaveTaken rows (map D.kept dies.old.items) →
        HaveKeptTo (length dies.new.items) rows slot (map D.kept dies.new.items) }
    ensures begins { begins_of (map D.kept dies.new.items)
        ≡ begins_of (map D.kept dies.old.items) }
    ensures count { length dies.new.items ≡ length dies.old.items }
{
    for place in 0..dies.len() {
        carry_at(alloc, dies, place, slot);
    }
}
