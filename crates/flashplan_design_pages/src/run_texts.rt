//! The run of a page, in words.

use crate::design_plans::Design;
use crate::facts::{put, put_heading};
use crate::figures::put_figures;
use crate::numbers::Span;
use crate::records::Records;
use crate::runs::{Run, RunSlots};
use crate::scoped_pictures::put_figure;
use std::io;
use std::io::Write;

const HEAVIEST: &str =
    "It is the heaviest use that the plan allows: all tasks ask at once in slot 0, and each again as soon as \
it may. The die was empty when it began, so that few collections have to copy; the test reckons with a full one, on which each \
copies as much as it may. With the plan above in plan.toml the same is printed by</p>\n<pre>";

/// Adds a command on the plan and the script of its arrivals, for `slots` slots.
fn put_command(text: &mut Vec<u8>, words: &str, slots: u32) -> io::Result<()> {
    write!(text, "flashplan {words} --slots {slots}")
}

/// Adds the commands that do the same.
fn put_commands(text: &mut Vec<u8>, run: RunSlots) -> io::Result<()> {
    let drawn = run.drawn;
    put_command(text, "arrivals plan.toml", run.slots)?;
    put(text, " -o run.csv\n")?;
    put_command(text, "report plan.toml run.csv", run.slots)?;
    put(text, "\n")?;
    put_command(text, "draw plan.toml run.csv", run.slots)?;
    write!(text, " --to {drawn} -o run.svg")
}

const CAPTION: &str =
    "The first slots of the run, in which all tasks ask at once. An arrow up is a release, an arrow down a \
deadline.";

/// Adds the figures of a run, and its picture.
pub(crate) fn put_run(
    text: &mut Vec<u8>,
    design: &Design<'_>,
    run: RunSlots,
    ran: &Run,
    records: &Records<'_>,
) -> io::Result<()> {
    let span = Span {
        slots: u64::from(run.slots),
        slot_us: design.slot_us,
    };
    put_heading(text, "A run")?;
    write!(text, "<p>This run has {span}, on a die in memory. ")?;
    put(text, HEAVIEST)?;
    put_commands(text, run)?;
    put(text, "</pre>\n")?;
    put_figures(text, records, design.slot_us)?;
    put_figure(text, "run", ran.picture.as_slice(), CAPTION)
}
