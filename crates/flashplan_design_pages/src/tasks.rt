//! The tasks: what each asks for, what its tokens come to, and what it takes of the slots.

use crate::design_plans::{Design, Load};
use crate::facts::{put, put_cell, put_columns, put_heading, put_name, put_table_end};
use crate::needs::NeedText;
use crate::numbers::{Count, Span};
use demand_rules::TaskTerms;
use flashplan_fit::Need;
use std::fmt::{Display, Formatter};
use std::{fmt, io};

/// The number of a task.
#[derive(Clone, Copy, Drop)]
pub(crate) struct TaskName(pub(crate) u32);

impl Display for TaskName {
    fn fmt<W: fmt::Write>(&self, f: &mut Formatter<W>) -> fmt::Result {
        let task = self.0;
        write!(f, "task {task}")
    }
}

fn span(design: &Design<'_>, slots: u32) -> Span {
    Span {
        slots: u64::from(slots),
        slot_us: design.slot_us,
    }
}

/// Adds the row of what a task asks for.
fn put_asked(
    text: &mut Vec<u8>,
    design: &Design<'_>,
    number: u32,
    need: Need,
    task: &TaskTerms,
) -> io::Result<()> {
    put_name(text, TaskName(number))?;
    put_cell(text, NeedText(need))?;
    put_cell(text, span(design, task.period))?;
    put_cell(text, span(design, task.deadline))?;
    put_cell(text, Count(u64::from(task.work)))?;
    put_cell(text, Count(u64::from(task.writes)))?;
    put(text, "</tr>\n")
}

const ASKED: [&str; 6] = [
    "",
    "needs",
    "period: at most once in",
    "due in",
    "operations",
    "of them writes",
];

/// Adds what the tasks ask for.
fn put_all_asked(text: &mut Vec<u8>, design: &Design<'_>) -> io::Result<()> {
    put_columns(text, &ASKED)?;
    let mut number: u32 = 0;
    for (need, task) in design.sheet.needs.as_slice().iter().zip(design.tasks) {
        put_asked(text, design, number, *need, task)?;
        number = number.saturating_add(1);
    }
    put_table_end(text)
}

/// The least cap that would do: it covers what the task writes in a period, and while a job is held, and two collections.
pub(crate) fn least_cap(alpha: u32, task: &TaskTerms) -> u64 {
    let writes = u64::from(task.writes);
    let period = u64::from(task.period).max(1);
    let held = writes.saturating_mul(u64::from(task.held));
    held.div_ceil(period)
        .saturating_add(writes)
        .saturating_add(u64::from(alpha).saturating_mul(2))
}

/// Adds a number, what it has to be at least, and what is to spare.
fn put_margin(text: &mut Vec<u8>, has: u64, wants: u64) -> io::Result<()> {
    put_cell(text, Count(has))?;
    put_cell(text, Count(wants))?;
    put_cell(text, Count(has.saturating_sub(wants)))
}

/// Adds the row of a task's tokens.
fn put_tokens(
    text: &mut Vec<u8>,
    design: &Design<'_>,
    number: u32,
    cap: u32,
    task: &TaskTerms,
) -> io::Result<()> {
    let alpha = design.plan.alpha;
    put_name(text, TaskName(number))?;
    put_margin(text, u64::from(cap), least_cap(alpha, task))?;
    put_cell(text, span(design, task.collect_period))?;
    put_cell(text, span(design, task.collect_deadline))?;
    let gives = u64::from(alpha).saturating_mul(u64::from(task.period));
    let takes = u64::from(task.writes).saturating_mul(u64::from(task.collect_period));
    put_margin(text, gives, takes)?;
    put(text, "</tr>\n")
}

const TOKENS: [&str; 9] = [
    "",
    "cap",
    "it has to cover",
    "to spare",
    "a collection each",
    "due in",
    "alpha * period",
    "writes * collect period",
    "to spare",
];

/// Adds the tokens of all tasks.
fn put_all_tokens(text: &mut Vec<u8>, design: &Design<'_>) -> io::Result<()> {
    put_columns(text, &TOKENS)?;
    let mut number: u32 = 0;
    for (cap, task) in design.plan.caps.as_slice().iter().zip(design.tasks) {
        put_tokens(text, design, number, *cap, task)?;
        number = number.saturating_add(1);
    }
    put_table_end(text)
}

/// The slots by which the load of a task is counted: a million, or a hyperperiod.
fn base_of(load: Load) -> u64 {
    match load {
        Load::Times { common, .. } => u64::from(common),
        Load::Terms(_) => 1_000_000,
    }
}

/// How many of `base` slots something takes that comes once a period, with `work` slots each time.
fn taken(base: u64, work: u32, period: u32) -> u64 {
    let all = base.saturating_mul(u64::from(work));
    all.checked_div(u64::from(period)).unwrap_or(0)
}

/// Adds the row of what a task takes of the slots.
fn put_taken(
    text: &mut Vec<u8>,
    design: &Design<'_>,
    number: u32,
    task: &TaskTerms,
) -> io::Result<()> {
    let base = base_of(design.load);
    let jobs = taken(base, task.work, task.period);
    let collections = taken(base, design.collection(), task.collect_period);
    put_name(text, TaskName(number))?;
    put_cell(text, Count(jobs))?;
    put_cell(text, Count(collections))?;
    put_cell(text, Count(jobs.saturating_add(collections)))?;
    put(text, "</tr>\n")
}

const TAKEN: [&str; 4] = ["", "jobs", "collections", "both"];

/// Adds what all tasks take of the slots.
pub(crate) fn put_all_taken(text: &mut Vec<u8>, design: &Design<'_>) -> io::Result<()> {
    put_columns(text, &TAKEN)?;
    let mut number: u32 = 0;
    for task in design.tasks {
        put_taken(text, design, number, task)?;
        number = number.saturating_add(1);
    }
    put_table_end(text)
}

/// What the tokens of a task are.
const OF_TOKENS: &str =
    "<p>A task pays a token for each page that a job writes, when the job comes; its collections give \
alpha pages each back. Its cap is the most tokens that it may have: it has to cover what the task writes in a period and \
while a job is held, and two collections. And what collections give in a period, alpha * period, has to be at least \
writes * collect period.</p>\n";

/// Adds the tables of the tasks.
pub(crate) fn put_tasks(text: &mut Vec<u8>, design: &Design<'_>) -> io::Result<()> {
    put_heading(text, "What each task asks for")?;
    put(text, "<div class=\"table asks\">\n")?;
    put_all_asked(text, design)?;
    put(text, "</div>\n")?;
    put_heading(text, "Tokens and collections")?;
    put(text, OF_TOKENS)?;
    put(text, "<div class=\"table\">\n")?;
    put_all_tokens(text, design)?;
    put(text, "</div>\n")
}
