//! How far the numbers of a die's tasks may change, as lines of a text.

ghost use Rattle.std.specs.Prelude.{◌≡◌, ◌++◌, ℕ, List, IfOk, OnOk, codes};
ghost use Rattle.flashplan_terms_margins.specs.MarginTexts.{SaysCaps, SaysMargins, asked_text, cap_line, margins_line, number_text, room_line};
ghost use Rattle.flashplan_terms_margins.specs.MarginTexts.{of_bound, room_text, shortest_text, times_text};

use crate::caps::{CapMargin, cap_margin};
use crate::margins::{Margins, TaskMargins, task_margins};
use flashplan_slot_times::Slots;
use std::io;
use std::io::Write;
use terms_texts::DieTerms;

/// Adds the greatest number that would do, or that none would.
fn put_greatest(text: &mut Vec<u8>, name: &str, found: Option<u32>) -> io::Result<()>
    ensures { OnOk result (text.new.items
        ≡ text.old.items ++ number_text (codes "greatest ") name.now found) }
{
    match found {
        Some(n) => write!(text, "greatest {name} {n}"),
        None => write!(text, "no {name}"),
    }
}

/// Adds the least number that would do, or that none would.
fn put_least(text: &mut Vec<u8>, name: &str, found: Option<u32>) -> io::Result<()>
    ensures { OnOk result (text.new.items
        ≡ text.old.items ++ number_text (codes "least ") name.now found) }
{
    match found {
        Some(n) => write!(text, "least {name} {n}"),
        None => write!(text, "no {name}"),
    }
}

/// Adds the least number of slots that would do, or that none would.
fn put_shortest(
    text: &mut Vec<u8>,
    name: &str,
    found: Option<u32>,
    slot_us: Option<u32>,
) -> io::Result<()>
    ensures { OnOk result (text.new.items
        ≡ text.old.items ++ shortest_text slot_us name.now found) }
{
    match found {
        Some(n) => {
            let slots = Slots {
                count: u64::from(n),
                slot_us,
            };
            write!(text, "least {name} {slots}")
        }
        None => write!(text, "no {name}"),
    }
}

/// Adds what a line on what a die's bound allows begins with.
fn put_of_bound(text: &mut Vec<u8>, die: usize) -> io::Result<()>
    ensures { OnOk result (text.new.items ≡ text.old.items ++ of_bound die) }
{
    write!(text, "die {die}: by its bound alone, one at a time: ")
}

/// Adds the greatest number of logical pages, and the least of blocks.
fn put_least_and_greatest(
    text: &mut Vec<u8>,
    logical: Option<u32>,
    blocks: Option<u32>,
) -> io::Result<()>
    ensures { OnOk result (text.new.items ≡ text.old.items ++ room_text logical blocks) }
{
    put_greatest(text, "logical", logical)?;
    write!(text, ", ")?;
    put_least(text, "blocks", blocks)?;
    writeln!(text, ".")
}

/// Adds the greatest number of logical pages of a die, and the least of its blocks, that its bound allows.
pub fn put_room(
    text: &mut Vec<u8>,
    die: usize,
    logical: Option<u32>,
    blocks: Option<u32>,
) -> io::Result<()>
    ensures { OnOk result (text.new.items ≡ text.old.items ++ room_line die logical blocks) }
{
    put_of_bound(text, die)?;
    put_least_and_greatest(text, logical, blocks)
}

/// Adds the greatest cap of a task that its die's bound allows.
fn put_cap(text: &mut Vec<u8>, die: usize, task: usize, found: Option<u32>) -> io::Result<()>
    ensures { OnOk result (text.new.items ≡ text.old.items ++ cap_line die task found) }
{
    write!(text, "die {die} task {task}: ")?;
    match found {
        Some(cap) => writeln!(text, "by the bound alone, the greatest cap is {cap}."),
        None => writeln!(text, "by the bound alone, no cap would do."),
    }
}

/// Adds the greatest cap of each task with which a die meets its bound, a line for each task; and gives the die back.
pub fn put_caps(text: &mut Vec<u8>, die: usize, made: DieTerms) -> io::Result<DieTerms>
    ensures same { IfOk result (λ same. same ≡ made) }
    ensures said { OnOk result ((said : List ℕ) × SaysCaps made.plan die 0 made.plan.caps said
        × (text.new.items ≡ text.old.items ++ said)) }
{
    let tasks = made.plan.caps.len();
    let mut trial = made;
    for task in 0..tasks {
        let CapMargin { made, found } = cap_margin(trial, task);
        put_cap(text, die, task, found)?;
        trial = made;
    }
    Ok(trial)
}

/// Adds how far what a task asks for may grow.
fn put_asked(text: &mut Vec<u8>, margins: &TaskMargins) -> io::Result<()>
    ensures { OnOk result (text.new.items ≡ text.old.items ++ asked_text margins.now) }
{
    put_greatest(text, "work", margins.work)?;
    write!(text, ", ")?;
    put_greatest(text, "writes", margins.writes)
}

/// Adds how far its times may shrink.
fn put_times(text: &mut Vec<u8>, margins: &TaskMargins, slot_us: Option<u32>) -> io::Result<()>
    ensures { OnOk result (text.new.items ≡ text.old.items ++ times_text slot_us margins.now) }
{
    put_shortest(text, "period", margins.period, slot_us)?;
    write!(text, ", ")?;
    put_shortest(text, "deadline", margins.deadline, slot_us)?;
    write!(text, ", ")?;
    put_shortest(text, "collect_deadline", margins.collect_deadline, slot_us)
}

/// Adds how far the numbers of a task may change, one at a time.
fn put_line(
    text: &mut Vec<u8>,
    die: usize,
    task: usize,
    margins: &TaskMargins,
    slot_us: Option<u32>,
) -> io::Result<()>
    ensures { OnOk result (text.new.items ≡ text.old.items ++ margins_line slot_us die task margins.now) }
{
    write!(
        text,
        "die {die} task {task}: one at a time, with these its die would do: "
    )?;
    put_asked(text, margins)?;
    write!(text, ", ")?;
    put_times(text, margins, slot_us)?;
    writeln!(text, ".")
}

/// Adds how far the numbers of each task of a die may change, one at a time, a line for each task. Numbers of slots are
/// followed by their times, where it is known how many us a slot takes.
pub fn put_margins(
    text: &mut Vec<u8>,
    die: usize,
    made: DieTerms,
    slot_us: Option<u32>,
) -> io::Result<()>
    ensures { OnOk result ((said : List ℕ) × SaysMargins slot_us made die 0 made.terms.tasks said
        × (text.new.items ≡ text.old.items ++ said)) }
{
    let tasks = made.terms.tasks.len();
    let mut trial = made;
    for task in 0..tasks {
        let Margins { made, margins } = task_margins(trial, task);
        put_line(text, die, task, &margins, slot_us)?;
        trial = made;
    }
    Ok(())
}
