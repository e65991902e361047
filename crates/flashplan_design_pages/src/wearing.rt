//! How often blocks are erased, and for how many years they last.

use crate::design_plans::Design;
use crate::facts::{put, put_cell, put_columns, put_heading, put_name, put_table_end};
use crate::numbers::{Count, Thousandths};
use crate::records::Records;
use demand_rules::TaskTerms;
use slot_types::DiePlan;
use std::fmt::{Display, Formatter};
use std::io::Write;
use std::{fmt, io};

/// Thousandths of a day's microseconds.
const DAY: u64 = 86_400_000_000_000;

/// A year of 365.25 days, in thousandths of a day.
const YEAR: u64 = 365_250;

/// What is programmed and erased in a day.
#[derive(Clone, Copy, PartialEq, Eq, Debug, Drop)]
pub struct Wear {
    /// Pages that are programmed for each page that a job writes, in thousandths; none where no job writes.
    pub amplification: Option<u64>,
    /// Thousandths of an erase a day.
    pub erases: u64,
}

/// How much comes in a day, in thousandths, where `count` come once a period.
fn a_day(count: u32, period: u32, slot_us: u32) -> u64 {
    let slots = DAY.checked_div(u64::from(slot_us)).unwrap_or(0);
    let all = slots.saturating_mul(u64::from(count));
    all.checked_div(u64::from(period)).unwrap_or(0)
}

/// The least and the most that blocks of a plan wear where its tasks ask for all that they may, with slots of a length: the
/// least where each block that is erased has no page left, so that none is copied; the most where each collection that the
/// plan has erases a block, and copies all that it may.
pub fn worn_by(plan: &DiePlan, tasks: &[TaskTerms], slot_us: u32) -> (Wear, Wear) {
    let (mut written, mut collections) = (0u64, 0u64);
    for task in tasks {
        written = written.saturating_add(a_day(task.writes, task.period, slot_us));
        collections = collections.saturating_add(a_day(1, task.collect_period, slot_us));
    }
    let pages = u64::from(plan.shape.pages);
    let given = pages.saturating_mul(1000);
    let least = Wear {
        amplification: if written > 0 { Some(1000) } else { None },
        erases: written.checked_div(pages).unwrap_or(0),
    };
    let most = Wear {
        amplification: given.checked_div(u64::from(plan.alpha)),
        erases: collections,
    };
    (least, most)
}

/// What a run of `slots` slots wore, by the day.
fn worn_in(records: &Records<'_>, slots: u32, slot_us: u32) -> Wear {
    let (written, copied) = (records.of_die("written"), records.of_die("copied"));
    let all = written.saturating_add(copied).saturating_mul(1000);
    let erases = u32::try_from(records.of_die("erases")).unwrap_or(u32::MAX);
    Wear {
        amplification: all.checked_div(written),
        erases: a_day(erases, slots, slot_us),
    }
}

/// Thousandths, or a dash.
#[derive(Clone, Copy, Drop)]
struct OrNone(Option<u64>);

impl Display for OrNone {
    fn fmt<W: fmt::Write>(&self, f: &mut Formatter<W>) -> fmt::Result {
        match self.0 {
            Some(parts) => {
                let parts = Thousandths(parts);
                write!(f, "{parts}")
            }
            None => f.write_str("-"),
        }
    }
}

/// For how many thousandths of a year blocks last, where `erases` thousandths of an erase come a day; none where none
/// come.
fn years_of(endurance: u32, blocks: u32, erases: u64) -> Option<u64> {
    let all = u64::from(endurance).saturating_mul(u64::from(blocks));
    // Of at most 10^8 erases of 1,024 blocks, by thousandths of erases and of years.
    let days = all.saturating_mul(1_000_000).checked_div(erases)?;
    Some(days.saturating_mul(1000) / YEAR)
}

/// A number of thousandths, without the digits after the point where there are many before it.
fn rounded(parts: u64) -> Thousandths {
    if parts >= 100_000 {
        Thousandths(parts / 1000 * 1000)
    } else {
        Thousandths(parts / 10 * 10)
    }
}

/// Adds the row of what is worn.
fn put_worn(text: &mut Vec<u8>, design: &Design<'_>, name: &str, wear: Wear) -> io::Result<()> {
    let blocks = design.plan.shape.blocks;
    put_name(text, name)?;
    put_cell(text, OrNone(wear.amplification))?;
    put_cell(text, rounded(wear.erases))?;
    let of_block = wear.erases.checked_div(u64::from(blocks)).unwrap_or(0);
    put_cell(text, rounded(of_block))?;
    if let Some(endurance) = design.part().endurance {
        let years = years_of(endurance, blocks, wear.erases);
        put_cell(text, OrNone(years.map(|parts| parts / 10 * 10)))?;
    }
    put(text, "</tr>\n")
}

const COLUMNS: [&str; 5] = [
    "",
    "programmed for each page written",
    "erases a day",
    "of a block a day, in the mean",
    "years",
];

/// Adds the rows of what is worn.
fn put_rows(
    text: &mut Vec<u8>,
    design: &Design<'_>,
    records: &Records<'_>,
    slots: u32,
) -> io::Result<()> {
    let (least, most) = worn_by(design.plan, design.tasks, design.slot_us);
    let run = worn_in(records, slots, design.slot_us);
    put_worn(text, design, "at least: nothing is copied", least)?;
    put_worn(text, design, "in the run above", run)?;
    put_worn(
        text,
        design,
        "at most: each collection copies all that it may",
        most,
    )
}

const WEAR: &str =
    "<p>Where the tasks ask for all that they may. How much is copied, and so erased, grows with how full \
the die is; it was empty when the run began. The store doesn't level wear: the block that is erased most may be erased \
several times as often as the mean.</p>\n";

/// Adds how often a block may be erased, if the datasheet says so.
fn put_endurance(text: &mut Vec<u8>, design: &Design<'_>) -> io::Result<()> {
    match design.part().endurance {
        Some(endurance) => {
            let endurance = Count(u64::from(endurance));
            write!(text, "<p>A block may be erased {endurance} times. ")?;
            put(
                text,
                "Years have 365.25 days, and all blocks wear evenly.</p>\n",
            )
        }
        None => put(
            text,
            "<p class=\"note\">With <code>endurance</code> in the datasheet years stand here, too.</p>\n",
        ),
    }
}

/// Adds how often blocks are erased.
pub(crate) fn put_wear(
    text: &mut Vec<u8>,
    design: &Design<'_>,
    records: &Records<'_>,
    slots: u32,
) -> io::Result<()> {
    let columns = match design.part().endurance {
        Some(_) => COLUMNS.as_slice(),
        None => &COLUMNS[..4],
    };
    put_heading(text, "Wear")?;
    put(text, WEAR)?;
    put(text, "<div class=\"table\">\n")?;
    put_columns(text, columns)?;
    put_rows(text, design, records, slots)?;
    put_table_end(text)?;
    put(text, "</div>\n")?;
    put_endurance(text, design)
}
