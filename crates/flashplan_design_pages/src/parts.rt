//! The part: what it has, and what a slot holds of it.

use crate::design_plans::Design;
use crate::facts::{put, put_fact, put_heading};
use crate::numbers::{Count, Time};
use crate::verdicts::all_pages;
use flashplan_fit::{Part, Suspends};
use std::fmt::{Display, Formatter};
use std::{fmt, io};

/// A number of microseconds.
#[derive(Clone, Copy, Drop)]
struct Micros(u32);

impl Display for Micros {
    fn fmt<W: fmt::Write>(&self, f: &mut Formatter<W>) -> fmt::Result {
        let us = Count(u64::from(self.0));
        write!(f, "{us} us")
    }
}

/// What a slot holds of a command: `us` microseconds with its transfer and the margin.
#[derive(Clone, Copy, Drop)]
struct PartOfSlot {
    us: u32,
    slot_us: u32,
}

impl Display for PartOfSlot {
    fn fmt<W: fmt::Write>(&self, f: &mut Formatter<W>) -> fmt::Result {
        let (us, slot) = (Micros(self.us), Micros(self.slot_us));
        write!(f, "{us} of a slot of {slot}")
    }
}

/// An erase in its slots.
#[derive(Clone, Copy, Drop)]
struct EraseSlots {
    slots: u32,
    of_each_us: u32,
}

impl Display for EraseSlots {
    fn fmt<W: fmt::Write>(&self, f: &mut Formatter<W>) -> fmt::Result {
        let (slots, each) = (self.slots, Micros(self.of_each_us));
        write!(f, "{slots} slots, each with {each} of it")
    }
}

/// How many erases are suspended at a time.
fn suspends_text(suspends: Suspends) -> &'static str {
    match suspends {
        Suspends::Any => "any number of erases at a time, each of another block",
        Suspends::One => "one erase at a time",
        Suspends::No => "none: a slot holds a whole one",
    }
}

/// Which part of a slot a command takes.
fn held(part: &Part, slot_us: u32, command_us: u32) -> PartOfSlot {
    PartOfSlot {
        us: command_us
            .saturating_add(part.transfer_us)
            .saturating_add(part.margin_us),
        slot_us,
    }
}

fn put_sizes(text: &mut Vec<u8>, design: &Design<'_>) -> io::Result<()> {
    let shape = design.plan.shape;
    put_fact(text, "blocks", Count(u64::from(shape.blocks)))?;
    put_fact(text, "pages of a block", shape.pages)?;
    put_fact(text, "pages in all", Count(all_pages(design)))?;
    put_fact(
        text,
        "pages that are held",
        Count(u64::from(design.plan.logical)),
    )
}

fn put_commands(text: &mut Vec<u8>, design: &Design<'_>) -> io::Result<()> {
    let (part, slot_us) = (design.part(), design.slot_us);
    put_fact(text, "a slot", Micros(slot_us))?;
    put_fact(
        text,
        "a read, its transfer, the margin",
        held(part, slot_us, part.read_us),
    )?;
    put_fact(
        text,
        "a program, its transfer, the margin",
        held(part, slot_us, part.program_us),
    )
}

fn put_erases(text: &mut Vec<u8>, design: &Design<'_>) -> io::Result<()> {
    let part = design.part();
    put_fact(text, "an erase", Time(u64::from(part.erase_us)))?;
    put_fact(text, "suspends", suspends_text(part.suspends))?;
    put_fact(
        text,
        "to suspend and to resume",
        Micros(part.suspend_us.saturating_add(part.resume_us)),
    )?;
    put_fact(
        text,
        "an erase takes",
        EraseSlots {
            slots: design.plan.shape.erase_slots,
            of_each_us: part.erasing(design.slot_us),
        },
    )
}

/// Adds what the part has, and what a slot holds of it.
pub(crate) fn put_part(text: &mut Vec<u8>, design: &Design<'_>) -> io::Result<()> {
    put_heading(text, "The part")?;
    put(text, "<table>\n<tbody>\n")?;
    put_sizes(text, design)?;
    put_commands(text, design)?;
    put_erases(text, design)?;
    put(text, "</tbody>\n</table>\n")
}
