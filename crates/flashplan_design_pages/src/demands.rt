//! The demand: what may be asked of the slots, compared with those that there are.

use crate::design_plans::{Design, Load};
use crate::facts::{put, put_heading};
use crate::numbers::{Count, Span};
use crate::scoped_pictures::put_figure;
use crate::tasks::put_all_taken;
use demand_rules::DemandLoad;
use std::io;
use std::io::Write;

/// Adds how many slots a collection takes.
fn put_collection(text: &mut Vec<u8>, design: &Design<'_>) -> io::Result<()> {
    let slots = Span {
        slots: u64::from(design.collection()),
        slot_us: design.slot_us,
    };
    let copies = design.plan.shape.pages.saturating_sub(design.plan.alpha);
    write!(text, "<p>A collection takes at most {slots}: ")?;
    write!(text, "a read and a program for each of ")?;
    writeln!(text, "{copies} pages, and an erase. ")
}

/// Adds what a plan with times asks for.
fn put_times(text: &mut Vec<u8>, design: &Design<'_>, demand: u64, common: u32) -> io::Result<()> {
    let slots = Span {
        slots: u64::from(common),
        slot_us: design.slot_us,
    };
    let (taken, spare) = (
        Count(demand),
        Count(u64::from(common).saturating_sub(demand)),
    );
    write!(text, "Of each {slots}, all tasks take at most ")?;
    write!(text, "{taken}: {spare} to spare. ")?;
    put(text, "By task, of these slots:</p>\n")
}

/// Adds how much a plan with terms asks for in the long run.
fn put_load(text: &mut Vec<u8>, load: u32) -> io::Result<()> {
    let load = Count(u64::from(load));
    write!(text, "In the long run {load} of each 1,000,000 ")?;
    put(
        text,
        "slots are asked for. By task, of 1,000,000 slots:</p>\n",
    )
}

/// Adds the tightest interval.
fn put_tightest(text: &mut Vec<u8>, design: &Design<'_>, load: &DemandLoad) -> io::Result<()> {
    let tightest = Span {
        slots: u64::from(load.tightest),
        slot_us: design.slot_us,
    };
    let slack = Span {
        slots: u64::from(load.slack),
        slot_us: design.slot_us,
    };
    let demand = load.tightest.saturating_sub(load.slack);
    write!(text, "<p>The tightest interval has {tightest}, ")?;
    write!(text, "of which {demand} slots may be asked for: ")?;
    writeln!(text, "{slack} to spare.</p>")
}

/// Adds what is asked of the slots, before the table by task.
fn put_sentence(text: &mut Vec<u8>, design: &Design<'_>) -> io::Result<()> {
    match design.load {
        Load::Times { demand, common } => put_times(text, design, demand, common),
        Load::Terms(load) => put_load(text, load.load),
    }
}

const CAPTION: &str =
    "How many slots may be asked of an interval, by its length, beside those that it has. The tightest \
interval is marked.";

/// Adds the demand, with its picture, if there is one.
pub(crate) fn put_demand(
    text: &mut Vec<u8>,
    design: &Design<'_>,
    picture: &[u8],
) -> io::Result<()> {
    put_heading(text, "The test of demand")?;
    put_collection(text, design)?;
    put_sentence(text, design)?;
    put(text, "<div class=\"table\">\n")?;
    put_all_taken(text, design)?;
    put(text, "</div>\n")?;
    if let Load::Terms(load) = &design.load {
        put_tightest(text, design, load)?;
        put_figure(text, "demand", picture, CAPTION)?;
    }
    Ok(())
}
