//! The numbers of a die with terms, as lines of a text.

ghost use Rattle.std.specs.Prelude.{◌≡◌, ◌++◌, OnOk, slice_index_or};
ghost use Rattle.flashplan_terms_design.specs.DieTexts.{collections_line, die_line, jobs_line, numbers_text, of_die, of_task};
ghost use Rattle.flashplan_terms_design.specs.DieTexts.{plan_line, task_line, task_lines, work_text};

use crate::timed::{Collections, ComingJobs, DueJobs};
use demand_rules::TaskTerms;
use slot_types::DiePlan;
use std::io;
use std::io::Write;
use terms_texts::DieTerms;

/// Adds what a sentence on a die begins with.
pub fn put_die(text: &mut Vec<u8>, die: usize) -> io::Result<()>
    ensures { OnOk result (text.new.items ≡ text.old.items ++ of_die die) }
{
    write!(text, "die {die}: ")
}

/// Adds what a sentence on a task of a die begins with.
pub fn put_task(text: &mut Vec<u8>, die: usize, task: usize) -> io::Result<()>
    ensures { OnOk result (text.new.items ≡ text.old.items ++ of_task die task) }
{
    write!(text, "die {die} task {task}: ")
}

/// The cap of a task; 0 where there is none.
pub fn cap_of(caps: &[u32], task: usize) -> u32
    ensures { result ≡ slice_index_or caps.now task 0 }
{
    if task < caps.len() { caps[task] } else { 0 }
}

/// Adds the numbers of a plan.
fn put_plan(text: &mut Vec<u8>, plan: &DiePlan) -> io::Result<()>
    ensures { OnOk result (text.new.items ≡ text.old.items ++ plan_line plan.now) }
{
    let (blocks, pages, erase_slots) = (
        plan.shape.blocks,
        plan.shape.pages,
        plan.shape.erase_slots,
    );
    let (logical, alpha) = (plan.logical, plan.alpha);
    writeln!(
        text,
        "blocks {blocks}, pages {pages}, erase_slots {erase_slots}, logical {logical}, alpha {alpha}."
    )
}

/// Adds the numbers of a die.
fn put_die_line(text: &mut Vec<u8>, die: usize, plan: &DiePlan) -> io::Result<()>
    ensures { OnOk result (text.new.items ≡ text.old.items ++ die_line die plan.now) }
{
    put_die(text, die)?;
    put_plan(text, plan)
}

/// Adds how many operations may be released in a period.
fn put_work(text: &mut Vec<u8>, task: TaskTerms) -> io::Result<()>
    ensures { OnOk result (text.new.items ≡ text.old.items ++ work_text task) }
{
    let work = task.work;
    write!(text, ", work {work}")
}

/// Adds what a task's jobs ask for.
fn put_jobs(text: &mut Vec<u8>, cap: u32, task: &TaskTerms, slot_us: Option<u32>) -> io::Result<()>
    ensures { OnOk result (text.new.items ≡ text.old.items ++ jobs_line slot_us cap task.now) }
{
    let terms = *task;
    let coming = ComingJobs {
        cap,
        terms,
        slot_us,
    };
    let due = DueJobs { terms, slot_us };
    write!(text, "{coming}{due}")?;
    put_work(text, terms)
}

/// Adds what a task's jobs write, and its collections.
fn put_collections(text: &mut Vec<u8>, task: &TaskTerms, slot_us: Option<u32>) -> io::Result<()>
    ensures { OnOk result (text.new.items ≡ text.old.items ++ collections_line slot_us task.now) }
{
    let terms = *task;
    let collections = Collections { terms, slot_us };
    writeln!(text, "{collections}.")
}

/// Adds the numbers of a task.
fn put_task_line(
    text: &mut Vec<u8>,
    die: usize,
    task: usize,
    cap: u32,
    terms: &TaskTerms,
    slot_us: Option<u32>,
) -> io::Result<()>
    ensures { OnOk result (text.new.items ≡ text.old.items ++ task_line slot_us die task cap terms.now) }
{
    put_task(text, die, task)?;
    put_jobs(text, cap, terms, slot_us)?;
    put_collections(text, terms, slot_us)
}

/// Adds the numbers of a die's tasks.
fn put_task_lines(
    text: &mut Vec<u8>,
    die: usize,
    caps: &[u32],
    tasks: &[TaskTerms],
    slot_us: Option<u32>,
) -> io::Result<()>
    ensures { OnOk result (text.new.items ≡ text.old.items ++ task_lines slot_us die caps.now tasks.now) }
{
    for task in 0..tasks.len() {
        put_task_line(text, die, task, cap_of(caps, task), &tasks[task], slot_us)?;
    }
    Ok(())
}

/// Adds the numbers of a die and of its tasks.
pub fn put_numbers(
    text: &mut Vec<u8>,
    die: usize,
    made: &DieTerms,
    slot_us: Option<u32>,
) -> io::Result<()>
    ensures { OnOk result (text.new.items ≡ text.old.items ++ numbers_text slot_us die made.now) }
{
    put_die_line(text, die, &made.plan)?;
    put_task_lines(
        text,
        die,
        made.plan.caps.as_slice(),
        made.terms.tasks.as_slice(),
        slot_us,
    )
}
