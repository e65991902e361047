//! Changes of a plan's numbers, in lines.

ghost use Rattle.std.specs.Prelude.{◌≡◌, ◌++◌, ℕ, List, IfOk, OnOk, codes, take};
ghost use Rattle.slot_types.specs.Refusal.{FailsForMemory};
ghost use Rattle.flashplan_design.specs.Changes.{of_text};
ghost use Rattle.flashplan_terms_changes.specs.Changes.{SaysCheapest, change_line, change_text, changes_text, key_text, step_text};
ghost use Rattle.flashplan_terms_changes.specs.Changes.{unit_of, with_text};

use crate::changes::{Change, ranked_changes};
use crate::outputs::written;
use crate::plan_numbers::PlanNumber;
use flashplan_design::TaskName;
use flashplan_slot_times::Slots;
use slot_types::Refusal;
use std::alloc::Global;
use std::io;
use std::io::Write;
use terms_texts::TermsNumbers;

/// How many changes are said at most.
const MOST_CHANGES: usize = 10;

/// The key of a number.
fn key_of(which: PlanNumber) -> &'static str
    ensures { result.now ≡ key_text which }
{
    match which {
        PlanNumber::Alpha => "alpha",
        PlanNumber::Logical => "logical",
        PlanNumber::Blocks => "blocks",
        PlanNumber::Cap => "cap",
        PlanNumber::CollectPeriod => "collect_period",
        PlanNumber::CollectDeadline => "collect_deadline",
        PlanNumber::Period => "period",
        PlanNumber::Deadline => "deadline",
        PlanNumber::Held => "held",
        PlanNumber::Work => "work",
        PlanNumber::Writes => "writes",
    }
}

/// The length of a slot, where a number is one of slots.
fn unit_of(slot_us: Option<u32>, which: PlanNumber) -> Option<u32>
    ensures { result ≡ unit_of slot_us which }
{
    match which {
        PlanNumber::CollectPeriod
        | PlanNumber::CollectDeadline
        | PlanNumber::Period
        | PlanNumber::Deadline
        | PlanNumber::Held => slot_us,
        PlanNumber::Alpha
        | PlanNumber::Logical
        | PlanNumber::Blocks
        | PlanNumber::Cap
        | PlanNumber::Work
        | PlanNumber::Writes => None,
    }
}

/// Adds whose number is changed.
fn put_of(text: &mut Vec<u8>, of: Option<TaskName>) -> io::Result<()>
    ensures { OnOk result (text.new.items ≡ text.old.items ++ (codes "change: " ++ of_text of ++ codes ": ")) }
{
    match of {
        None => write!(text, "change: plan: "),
        Some(name) => write!(text, "change: {name}: "),
    }
}

/// Adds from what to what a number is changed.
fn put_step(text: &mut Vec<u8>, change: Change, slot_us: Option<u32>) -> io::Result<()>
    ensures { OnOk result (text.new.items ≡ text.old.items ++ step_text slot_us change) }
{
    let key = key_of(change.which);
    let slot_us = unit_of(slot_us, change.which);
    let from = Slots {
        count: u64::from(change.from),
        slot_us,
    };
    let to = Slots {
        count: u64::from(change.to),
        slot_us,
    };
    write!(text, "{key} from {from} to {to}")
}

/// Adds what changes besides, and ends the line.
fn put_with(text: &mut Vec<u8>, which: PlanNumber) -> io::Result<()>
    ensures { OnOk result (text.new.items ≡ text.old.items ++ with_text which) }
{
    match which {
        PlanNumber::Alpha => writeln!(
            text,
            ", with the caps, collect_periods and collect_deadlines that go with it."
        ),
        PlanNumber::CollectPeriod => writeln!(text, ", with a collect_deadline of at most that."),
        _ => writeln!(text, "."),
    }
}

/// Adds both.
fn put_rest(text: &mut Vec<u8>, change: Change, slot_us: Option<u32>) -> io::Result<()>
    ensures { OnOk result (text.new.items ≡ text.old.items ++ change_text slot_us change) }
{
    put_step(text, change, slot_us)?;
    put_with(text, change.which)
}

/// Adds a change, a line.
fn put_line(text: &mut Vec<u8>, change: Change, slot_us: Option<u32>) -> io::Result<()>
    ensures { OnOk result (text.new.items ≡ text.old.items ++ change_line slot_us change) }
{
    put_of(text, change.of)?;
    put_rest(text, change, slot_us)
}

/// Adds changes, a line each.
fn put_lines(text: &mut Vec<u8>, changes: &[Change], slot_us: Option<u32>) -> io::Result<()>
    ensures { OnOk result (text.new.items ≡ text.old.items ++ changes_text slot_us changes.now) }
{
    for change in changes {
        put_line(text, *change, slot_us)?;
    }
    Ok(())
}

/// The first ten changes, or all where there are fewer.
fn first_changes(changes: &[Change]) -> &[Change]
    ensures { result.now ≡ take 10 changes.entry.now }
{
    if changes.len() < MOST_CHANGES {
        changes
    } else {
        &changes[..MOST_CHANGES]
    }
}

/// Adds the cheapest changes with which a plan does, a line each, at most ten. The only refusal is NoMemory.
pub fn put_cheapest(
    alloc: Global,
    text: &mut Vec<u8>,
    numbers: &TermsNumbers,
    slot_us: Option<u32>,
) -> Result<(), Refusal>
    ensures said { IfOk result (λ _. (said : List ℕ) × SaysCheapest slot_us numbers.now said
        × (text.new.items ≡ text.old.items ++ said)) }
    ensures refused { FailsForMemory result }
{
    let changes = ranked_changes(alloc, numbers)?;
    written(put_lines(text, first_changes(&changes), slot_us))
}
