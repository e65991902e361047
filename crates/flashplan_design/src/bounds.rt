//! The bound on a die, in sentences: what it comes to, or what is missing, and with which numbers it would be met.

use crate::sayings::Sayings;
use crate::subjects::Subject;
use crate::trials::{greatest_logical, least_blocks};
use plan_rules::{Figures, bound, figures};
use slot_types::DiePlan;
use std::io;
use std::io::Write;

/// The most pages that are free while fewer than `alpha` of them are spare, of a plan that need not meet its bound.
fn most_free(plan: &DiePlan) -> u64 {
    let reserve = u64::from(plan.shape.pages.saturating_sub(plan.alpha));
    let mut most = u64::from(plan.alpha).saturating_sub(1);
    for cap in plan.caps.as_slice() {
        most = most.saturating_add(reserve).saturating_add(u64::from(*cap));
    }
    most
}

/// Writes how many blocks are closed with no collection at work, and from how many valid pages on none might be worth
/// collecting.
fn put_closed(text: &mut Vec<u8>, of: Subject, closed: u64, live: u64) -> io::Result<()> {
    writeln!(
        text,
        "{of}: the closed blocks that no collection works on are then at least {closed}."
    )?;
    writeln!(
        text,
        "{of}: if none of these were worth collecting, at least {live} pages would be valid."
    )
}

/// Writes the figures of a die that meets its bound.
fn put_met(text: &mut Vec<u8>, of: Subject, found: Figures, logical: u32) -> io::Result<()> {
    let fmax = found.fmax;
    writeln!(
        text,
        "{of}: while fewer than alpha pages are spare, at most {fmax} are free."
    )?;
    put_closed(text, of, u64::from(found.closed), u64::from(found.live))?;
    writeln!(text, "{of}: logical is {logical}, which is below that.")
}

/// Writes that a die has too few blocks for what may be free.
fn put_few_blocks(text: &mut Vec<u8>, of: Subject, blocks: u64, kept: u64) -> io::Result<()> {
    let missing = kept.saturating_sub(blocks).saturating_add(1);
    writeln!(
        text,
        "{of}: blocks is {blocks}, and has to be above {kept}, which may be free or collected: {missing} missing."
    )
}

/// Writes that a die has too many logical pages.
fn put_many_pages(said: &mut Sayings, of: Subject, closed: u64, plan: &DiePlan) -> io::Result<()> {
    let least = u64::from(plan.shape.pages.saturating_sub(plan.alpha)) + 1;
    let live = closed.saturating_mul(least);
    let logical = u64::from(plan.logical);
    let beyond = logical.saturating_sub(live).saturating_add(1);
    put_closed(&mut said.figures, of, closed, live)?;
    writeln!(
        said.faults,
        "{of}: logical is {logical}, and has to be below {live}: {beyond} too many."
    )
}

/// Writes what a die lacks of its bound.
fn put_unmet(said: &mut Sayings, of: Subject, plan: &DiePlan) -> io::Result<()> {
    let fmax = most_free(plan);
    let kept = (fmax / u64::from(plan.shape.pages.max(1))).saturating_add(plan.caps.len() as u64);
    let blocks = u64::from(plan.shape.blocks);
    writeln!(
        said.figures,
        "{of}: while fewer than alpha pages are spare, up to {fmax} may be free."
    )?;
    if blocks <= kept {
        put_few_blocks(&mut said.faults, of, blocks, kept)
    } else {
        put_many_pages(said, of, blocks - kept, plan)
    }
}

/// Writes the least number of blocks with which the bound is met.
fn put_blocks(text: &mut Vec<u8>, of: Subject, plan: &mut DiePlan) -> io::Result<()> {
    match least_blocks(plan) {
        Some(blocks) => writeln!(
            text,
            "{of}: with its other numbers as they are, the least blocks with which it meets the bound is {blocks}."
        ),
        None => writeln!(
            text,
            "{of}: with its other numbers as they are, it meets the bound with no blocks."
        ),
    }
}

/// Writes the greatest `logical` with which the bound is met.
fn put_logical(text: &mut Vec<u8>, of: Subject, plan: &mut DiePlan) -> io::Result<()> {
    match greatest_logical(plan) {
        Some(logical) => writeln!(
            text,
            "{of}: with its other numbers as they are, the greatest logical with which it meets the bound is {logical}."
        ),
        None => writeln!(
            text,
            "{of}: with its other numbers as they are, it meets the bound with no logical."
        ),
    }
}

/// Writes what the bound on a die comes to; or what is missing, and with which numbers it would be met. The plan is
/// afterwards what it was.
pub fn put_bound(said: &mut Sayings, die: u32, plan: &mut DiePlan) -> io::Result<()> {
    let of = Subject::Die(die);
    match bound(plan) {
        Ok(()) => put_met(&mut said.figures, of, figures(plan), plan.logical),
        Err(_) => {
            put_unmet(said, of, plan)?;
            put_blocks(&mut said.faults, of, plan)?;
            put_logical(&mut said.faults, of, plan)
        }
    }
}
