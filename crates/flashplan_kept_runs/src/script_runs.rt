//! The rows of a script on dies that keep their plans, and then the slots that are left.

ghost use Rattle.std.specs.Prelude.{◌≡◌, ◌≤◌, All, length, map, OnOk};
ghost use Rattle.script_texts.specs.ScriptLeft.{dies_of, script_left, slots_of};
ghost use Rattle.flashplan_kept_runs.specs.KeptDies.{AreWithin, HasEmptyLog, begins_of};
ghost use Rattle.flashplan_kept_runs.specs.KeptRuns.{HaveRead, RanKept};

use crate::row_counts::RowCounts;
use crate::rows::{carry_all, run_row};
use crate::script_dies::KeptScriptDie;
use script_texts::ScriptReader;
use slot_types::{Cause, Refusal};
use std::alloc::Global;
use std::io::Read;

/// The record of a script that no reader reads.
const LINE_PAST_ALL: u32 = 1_000_002;

/// That a script has too many rows. Its reader says so before one that calls it so often can.
const fn too_many_rows() -> Refusal {
    Refusal::ScriptRow {
        line: LINE_PAST_ALL,
        cause: Cause::TooManyRows,
    }
}

/// Takes the rows that a reader has left. It is lent, since a reader is large to free where a row stops the run.
fn read_rows<R: Read + Drop, D: KeptScriptDie>(
    alloc: Global,
    script: &mut ScriptReader<R>,
    dies: &mut Vec<D>,
) -> Result<RowCounts, Refusal>
    requires within { AreWithin (slots_of script.old) (map D.kept dies.old.items) }
    requires dies { dies_of script.old ≡ length dies.old.items }
    requires empty { All HasEmptyLog (map D.kept dies.old.items) }
    ensures read { OnOk result
        (HaveRead (script_left R.remaining script.old) (map D.kept dies.new.items)) }
    ensures begins { begins_of (map D.kept dies.new.items)
        ≡ begins_of (map D.kept dies.old.items) }
    ensures count { length dies.new.items ≡ length dies.old.items }
{
    let mut rows = RowCounts::NONE;
    for _ in 0..LINE_PAST_ALL {
        let Some(item) = script.next()? else {
            return Ok(rows);
        };
        run_row(alloc, dies, &mut rows, item)?;
    }
    Err(too_many_rows())
}

/// Runs the rows that a reader has left on the dies of a store, which keep their plans, up to slot `slots`, which each
/// die's life has: a row comes on its die once the slots before its `at` were carried out. One that its die refuses is
/// counted, and is no job; one of a collection is passed over and counted, since a die enters its collections itself.
///
/// Refused with the first fault of the script, as [`ScriptReader`] says it; or with ReadFault or NoMemory. Nothing is said
/// of the logs of the dies then.
pub fn run_dies<R: Read + Drop, D: KeptScriptDie>(
    alloc: Global,
    script: &mut ScriptReader<R>,
    dies: &mut Vec<D>,
    slots: u32,
) -> Result<RowCounts, Refusal>
    requires within { AreWithin slots (map D.kept dies.old.items) }
    requires slots { slots_of script.old ≡ slots }
    requires dies { dies_of script.old ≡ length dies.old.items }
    requires empty { All HasEmptyLog (map D.kept dies.old.items) }
    ensures ran { OnOk result
        (RanKept (script_left R.remaining script.old) slots (map D.kept dies.new.items)) }
    ensures begins { begins_of (map D.kept dies.new.items)
        ≡ begins_of (map D.kept dies.old.items) }
    ensures count { length dies.new.items ≡ length dies.old.items }
{
    let rows = read_rows(alloc, script, dies)?;
    carry_all(alloc, dies, slots);
    Ok(rows)
}
