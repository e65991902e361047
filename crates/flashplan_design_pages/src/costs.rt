//! What a die takes of memory, and what a mount would take after a loss of power.

ghost use Rattle.plan_rules.specs.Bound.{MeetsBound};

use crate::design_plans::Design;
use crate::facts::{put, put_cell, put_columns, put_fact, put_heading, put_name, put_table_end};
use crate::memory::{LifeWork, MemoryShape, memory_of};
use crate::mounts::{MountCost, mount_cost};
use crate::numbers::{Count, Time};
use flashplan_terms_arrivals::{comes_in, life_of};
use std::io;
use std::io::Write;

/// What comes in a life at most.
fn work_of(design: &Design<'_>) -> LifeWork {
    let slots = life_of(design.tasks);
    let comes = comes_in(design.tasks, slots);
    let jobs = comes.jobs.saturating_add(comes.collections);
    LifeWork {
        slots,
        jobs: u32::try_from(jobs).unwrap_or(u32::MAX),
        operations: u32::try_from(comes.operations).unwrap_or(u32::MAX),
    }
}

fn shape_of(design: &Design<'_>) -> MemoryShape {
    MemoryShape {
        blocks: design.plan.shape.blocks,
        pages: design.plan.shape.pages,
        logical: design.plan.logical,
        tasks: u32::try_from(design.tasks.len()).unwrap_or(u32::MAX),
        has_times: design.plan.times.is_some(),
    }
}

const MEMORY: &str =
    "<p>Through the library for C, with the names of all pages. What is reserved is never refused for want of \
memory; where less is reserved, the die is renewed more often.</p>\n";

/// Adds how many bytes a die takes.
pub(crate) fn put_memory(text: &mut Vec<u8>, design: &Design<'_>) -> io::Result<()> {
    let memory = memory_of(&shape_of(design), &work_of(design));
    put_heading(text, "Memory")?;
    put(text, MEMORY)?;
    put_columns(text, &["", "bytes"])?;
    put_fact(text, "at its birth, and always", Count(memory.birth))?;
    put_fact(text, "and a whole life reserved", Count(memory.reserved))?;
    put_fact(
        text,
        "a whole life with nothing reserved, at most",
        Count(memory.life),
    )?;
    put_fact(
        text,
        "to resume from a checkpoint, until that is done",
        Count(memory.resume),
    )?;
    put_table_end(text)
}

/// Adds the row of `count` of something, each of `each_us` microseconds.
fn put_cost(text: &mut Vec<u8>, name: &str, count: u64, each_us: u64) -> io::Result<u64> {
    let all = count.saturating_mul(each_us);
    put_name(text, name)?;
    put_cell(text, Count(count))?;
    put_cell(text, Time(all))?;
    put(text, "</tr>\n")?;
    Ok(all)
}

/// Adds the sum of all.
fn put_sum(text: &mut Vec<u8>, all_us: u64) -> io::Result<()> {
    put_name(text, "in all")?;
    put(text, "<td></td>\n")?;
    put_cell(text, Time(all_us))?;
    put(text, "</tr>\n")
}

/// Adds what a mount does at most, and how long that takes by the datasheet.
fn put_rows(text: &mut Vec<u8>, design: &Design<'_>, cost: MountCost) -> io::Result<()> {
    let part = design.part();
    let shape = design.plan.shape;
    let labels = u64::from(shape.blocks).saturating_add(1);
    let labels = labels.saturating_mul(u64::from(shape.pages));
    let read = u64::from(part.read_us).saturating_add(u64::from(part.transfer_us));
    let program = u64::from(part.program_us).saturating_add(u64::from(part.transfer_us));
    let seen = put_cost(text, "labels that are read, one a cell", labels, read)?;
    let erased = put_cost(text, "erases", cost.erases, u64::from(part.erase_us))?;
    let copied = put_cost(text, "copies", cost.copies, read.saturating_add(program))?;
    put_sum(text, seen.saturating_add(erased).saturating_add(copied))
}

const LOSS: &str =
    "<p>Where its driver writes a label beside each page, a part is mounted after a loss of power, through the library for C: \
no finished write is lost. What a mount does at most is proved, call by call. The part has one block more than the plan then, so \
that a plan may have 1,023 at most. Without labels all pages of a die are lost that wrote or erased since its last \
checkpoint.</p>\n";

/// Adds what a mount would cost.
pub(crate) fn put_loss(text: &mut Vec<u8>, design: &Design<'_>) -> io::Result<()>
    requires { MeetsBound design.now.plan.now }
{
    let cost = mount_cost(design.plan);
    let calls = Count(cost.calls);
    put_heading(text, "A loss of power")?;
    put(text, LOSS)?;
    put_columns(text, &["a mount, at most", "how many", "by the datasheet"])?;
    put_rows(text, design, cost)?;
    put_table_end(text)?;
    write!(text, "<p class=\"note\">Beside the labels these are ")?;
    write!(text, "{calls} calls of the device: reads, programs, ")?;
    put(text, "and slots of erases.</p>\n")
}
