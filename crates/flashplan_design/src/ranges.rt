//! From where to where each number of a plan goes.

use slot_types::{
    MAX_BLOCKS, MAX_DIES, MAX_ERASE_SLOTS, MAX_OPS, MAX_PAGES, MAX_SLOT, MIN_BLOCKS, MIN_PAGES,
};
use std::fmt;
use std::fmt::{Display, Formatter, Write};

/// From where to where a number of a plan goes.
#[derive(Clone, Copy, PartialEq, Eq, Debug, Drop)]
pub enum Range {
    Version,
    Between(u32, u32),
    /// From a number to another one of the plan.
    UpTo(u32, &'static str),
    /// Below another number of the plan, and at most this.
    Below(&'static str, u32),
    AtLeast(u32),
}

impl Display for Range {
    fn fmt<W: Write>(&self, f: &mut Formatter<W>) -> fmt::Result {
        match self {
            Range::Version => f.write_str("1 or 2"),
            Range::Between(least, most) => write!(f, "from {least} to {most}"),
            Range::UpTo(least, most) => write!(f, "from {least} to `{most}`"),
            Range::Below(end, most) => write!(f, "from 0 to {most}, and below `{end}`"),
            Range::AtLeast(least) => write!(f, "at least {least}"),
        }
    }
}

/// The range of the number at a key.
pub fn range_of(key: &str) -> Range {
    match key {
        "version" => Range::Version,
        "dies" => Range::Between(1, MAX_DIES),
        "blocks" => Range::Between(MIN_BLOCKS, MAX_BLOCKS),
        "pages" => Range::Between(MIN_PAGES, MAX_PAGES),
        "erase_slots" => Range::Between(1, MAX_ERASE_SLOTS),
        "alpha" => Range::UpTo(1, "pages"),
        "common" | "period" | "collect_period" => Range::Between(1, MAX_SLOT),
        "work" => Range::Between(1, MAX_OPS),
        "writes" => Range::UpTo(0, "work"),
        "die" => Range::Below("dies", MAX_DIES - 1),
        // `logical` and `cap`: the bound says how far they go.
        _ => Range::AtLeast(1),
    }
}
