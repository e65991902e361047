//! The head of a page: what was found, in a sentence.

use crate::design_plans::{Design, Load};
use crate::facts::put;
use crate::numbers::{Count, Span, Thousandths, Time};
use std::io;
use std::io::Write;

/// How many pages a part has.
pub(crate) fn all_pages(design: &Design<'_>) -> u64 {
    u64::from(design.plan.shape.blocks).saturating_mul(u64::from(design.plan.shape.pages))
}

/// Of each page of the part how many are held, in thousandths of a hundredth.
fn held_share(design: &Design<'_>) -> Thousandths {
    let held = u64::from(design.plan.logical).saturating_mul(100_000);
    Thousandths(held.checked_div(all_pages(design)).unwrap_or(0) / 100 * 100)
}

fn put_heading(text: &mut Vec<u8>, design: &Design<'_>) -> io::Result<()> {
    let shape = design.plan.shape;
    let (blocks, pages) = (Count(u64::from(shape.blocks)), shape.pages);
    let tasks = design.tasks.len();
    let noun = if tasks == 1 { "task" } else { "tasks" };
    write!(text, "<h1>A plan for {tasks} {noun} ")?;
    writeln!(text, "on {blocks} blocks of {pages} pages</h1>")
}

/// What is held, and in slots of which length.
fn put_held(text: &mut Vec<u8>, design: &Design<'_>) -> io::Result<()> {
    let (held, all) = (
        Count(u64::from(design.plan.logical)),
        Count(all_pages(design)),
    );
    let (share, slot_us) = (held_share(design), design.slot_us);
    write!(text, "It holds {held} of {all} pages ({share} %), ")?;
    write!(text, "with a slot of {slot_us} us. ")
}

/// What is to spare.
fn put_spare(text: &mut Vec<u8>, design: &Design<'_>) -> io::Result<()> {
    let slot_us = design.slot_us;
    match design.load {
        Load::Times { demand, common } => {
            let all = u64::from(common);
            let spare = Count(all.saturating_sub(demand));
            let all = Span {
                slots: all,
                slot_us,
            };
            write!(text, "Of each {all}, {spare} slots are to spare.")
        }
        Load::Terms(load) => {
            let (slack, tightest) = (load.slack, u64::from(load.tightest));
            let tightest = Span {
                slots: tightest,
                slot_us,
            };
            write!(text, "Of the tightest interval, ")?;
            write!(text, "{tightest}, {slack} slots are to spare.")
        }
    }
}

/// What a plan that passes promises.
const PASSES: &str =
    "<p class=\"verdict\">The plan passes its test: what its tasks ask for, as they say here, is never \
refused for want of tokens, and is done by its deadline, as long as memory and the device last. ";

/// What else is to be known of it.
const NOTE: &str =
    "<p class=\"note\">That the plan is one of the datasheet and passes is proved of the text below. A job \
that is asked for within a slot is released with the next one: take a slot off a deadline in which the answer has to come \
after the call.</p>\n";

/// Adds the heading, and the verdict.
pub(crate) fn put_verdict(text: &mut Vec<u8>, design: &Design<'_>) -> io::Result<()> {
    put_heading(text, design)?;
    put(text, PASSES)?;
    put_held(text, design)?;
    put_spare(text, design)?;
    put(text, "</p>\n")?;
    put(text, NOTE)
}

/// How long a program or a read takes with the transfer of its page.
pub(crate) fn with_transfer(design: &Design<'_>, command_us: u32) -> Time {
    Time(u64::from(command_us).saturating_add(u64::from(design.part().transfer_us)))
}
