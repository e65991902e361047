//! Rows that a run refused.

ghost use Rattle.std.specs.Prelude.{◌≡◌, ◌++◌, OnOk};
ghost use Rattle.slot_types.specs.Refusal.{FailsForMemory};
ghost use Rattle.flashplan_script_runs.specs.ScriptRuns.{asker_of, refused_by};

use script_texts::ScriptItem;
use slot_types::{Event, Refusal};

/// Which row of a script asked, and for whom.
#[derive(Clone, Copy, PartialEq, Eq, Debug, Drop)]
pub struct Asker {
    /// The number of its record, the header being 1.
    pub line: u32,
    pub die: u32,
    pub task: u32,
    /// Whether it asked for a collection.
    pub collects: bool,
}

/// A row that was refused.
#[derive(Clone, Copy, PartialEq, Eq, Debug, Drop)]
pub struct RefusedRow {
    pub asker: Asker,
    pub refusal: Refusal,
}

/// Which row it is, and for whom it asks.
pub(crate) fn asker_of(item: &ScriptItem) -> Asker
    ensures { result ≡ asker_of item.now }
{
    let (task, collects) = match &item.event {
        Event::Submit { task, .. } => (task.0, false),
        Event::Collect { task, .. } => (task.0, true),
        Event::Slot => (0, false),
    };
    Asker {
        line: item.line,
        die: item.die,
        task,
        collects,
    }
}

/// Adds a row to those that were refused, if it was. The only refusal is NoMemory.
pub(crate) fn note_refused(
    rows: &mut Vec<RefusedRow>,
    asker: Asker,
    refusal: Option<Refusal>,
) -> Result<(), Refusal>
    ensures ok { OnOk result (rows.new.items ≡ rows.old.items ++ refused_by asker refusal) }
    ensures refused { FailsForMemory result }
{
    if let Some(refusal) = refusal {
        rows.push(RefusedRow { asker, refusal })?;
    }
    Ok(())
}
