//! What a task needs, in words.

use crate::numbers::{Count, Thousandths, Time};
use flashplan_fit::{Asked, Need};
use std::fmt;
use std::fmt::{Display, Formatter};

/// What a task needs, in the units of its datasheet.
#[derive(Clone, Copy, Drop)]
pub(crate) struct NeedText(pub(crate) Need);

/// A noun, as it stands after a count.
fn noun(count: u32, one: &'static str, many: &'static str) -> &'static str {
    if count == 1 { one } else { many }
}

fn write_periodic<W: fmt::Write>(
    f: &mut Formatter<W>,
    period_us: u32,
    reads: u32,
    writes: u32,
) -> fmt::Result {
    let period = Time(u64::from(period_us));
    let read = noun(reads, "read", "reads");
    let write = noun(writes, "write", "writes");
    match (reads, writes) {
        (_, 0) => write!(f, "{reads} {read} each {period}"),
        (0, _) => write!(f, "{writes} {write} each {period}"),
        _ => write!(f, "{reads} {read} and {writes} {write} each {period}"),
    }
}

fn write_burst<W: fmt::Write>(f: &mut Formatter<W>, pages: u32, every_us: u32) -> fmt::Result {
    let (count, every) = (Count(u64::from(pages)), Time(u64::from(every_us)));
    let write = noun(pages, "write", "writes");
    write!(f, "{count} {write} at most once in {every}")
}

fn write_asked<W: fmt::Write>(f: &mut Formatter<W>, asked: Asked) -> fmt::Result {
    match asked {
        Asked::Periodic {
            period_us,
            reads,
            writes,
        } => write_periodic(f, period_us, u32::from(reads), u32::from(writes)),
        Asked::Burst { pages, every_us } => write_burst(f, pages, every_us),
        Asked::Rate { micropages_per_s } => {
            let pages = Thousandths(u64::from(micropages_per_s) / 1000);
            write!(f, "{pages} writes a second")
        }
    }
}

impl Display for NeedText {
    fn fmt<W: fmt::Write>(&self, f: &mut Formatter<W>) -> fmt::Result {
        write_asked(f, self.0.asked)?;
        match self.0.deadline_us {
            Some(deadline_us) => {
                let deadline = Time(u64::from(deadline_us));
                write!(f, ", due in {deadline}")
            }
            None => Ok(()),
        }
    }
}
