//! The figures of a run, as two tables: of jobs, and of pages.

use crate::facts::{put, put_cell, put_name, put_table_end};
use crate::numbers::{Count, Lateness};
use crate::records::{Records, hundredths_of};
use crate::tasks::TaskName;
use std::io;
use std::io::Write;

/// What a figure is of.
#[derive(Clone, Copy, Drop)]
enum Kind {
    Count,
    /// Slots after a deadline.
    Lateness,
    /// As it stands.
    Text,
}

/// A figure: its name in records, in the table, and what it is of.
type Figure = (&'static str, &'static str, Kind);

const JOBS: [Figure; 7] = [
    ("done", "jobs done", Kind::Count),
    ("waiting", "waiting", Kind::Count),
    ("refused", "refused", Kind::Count),
    ("late", "late", Kind::Count),
    ("worst", "lateness: worst", Kind::Lateness),
    ("mean", "mean", Kind::Lateness),
    ("p99", "99 % at most", Kind::Lateness),
];

const PAGES: [Figure; 8] = [
    ("collected", "collections run", Kind::Count),
    ("waived", "waived", Kind::Count),
    ("written", "pages written", Kind::Count),
    ("copied", "copied", Kind::Count),
    ("amplification", "write amplification", Kind::Text),
    ("erases", "erases", Kind::Count),
    ("least_balance", "least tokens", Kind::Count),
    ("idle_slots", "slots idle", Kind::Count),
];

/// Adds a figure.
fn put_value(text: &mut Vec<u8>, value: &str, kind: Kind, slot_us: u32) -> io::Result<()> {
    match kind {
        Kind::Count => match value.parse::<u64>() {
            Ok(count) => put_cell(text, Count(count)),
            Err(_) => put_cell(text, value),
        },
        Kind::Lateness => match hundredths_of(value) {
            Some(hundredths) => put_cell(
                text,
                Lateness {
                    hundredths,
                    slot_us,
                },
            ),
            None => put_cell(text, value),
        },
        Kind::Text => put_cell(text, value),
    }
}

/// Adds the heads of the columns.
fn put_heads(text: &mut Vec<u8>, figures: &[Figure]) -> io::Result<()> {
    put(text, "<table class=\"wide\">\n<thead><tr><th></th>")?;
    for (_, label, _) in figures {
        write!(text, "<th scope=\"col\">{label}</th>")?;
    }
    put(text, "</tr></thead>\n<tbody>\n")
}

/// Adds the row of a record: the first is of all tasks, and the others of one each.
fn put_row(
    text: &mut Vec<u8>,
    records: &Records<'_>,
    record: usize,
    figures: &[Figure],
    slot_us: u32,
) -> io::Result<()> {
    match record.checked_sub(1) {
        Some(task) => put_name(text, TaskName(u32::try_from(task).unwrap_or(u32::MAX)))?,
        None => put_name(text, "all")?,
    }
    for (name, _, kind) in figures {
        put_value(text, records.value(record, name), *kind, slot_us)?;
    }
    put(text, "</tr>\n")
}

/// Adds a table of figures.
fn put_table(
    text: &mut Vec<u8>,
    records: &Records<'_>,
    figures: &[Figure],
    slot_us: u32,
) -> io::Result<()> {
    put(text, "<div class=\"table\">\n")?;
    put_heads(text, figures)?;
    for record in 0..records.count() {
        put_row(text, records, record, figures, slot_us)?;
    }
    put_table_end(text)?;
    put(text, "</div>\n")
}

/// Adds the figures of a run.
pub(crate) fn put_figures(
    text: &mut Vec<u8>,
    records: &Records<'_>,
    slot_us: u32,
) -> io::Result<()> {
    put_table(text, records, &JOBS, slot_us)?;
    put_table(text, records, &PAGES, slot_us)
}
