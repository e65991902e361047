//! Shares, as percentages for eyes.

use std::fmt;
use std::fmt::{Display, Formatter, Write};

/// How many of all some are.
#[derive(Clone, Copy, PartialEq, Eq, Debug, Drop)]
pub(crate) struct Share {
    pub(crate) these: usize,
    pub(crate) all: usize,
}

/// In percent, to the nearest tenth, and up where two are as near. What isn't none is not told as 0.0, and what isn't all
/// not as 100.0.
impl Display for Share {
    fn fmt<W: Write>(&self, f: &mut Formatter<W>) -> fmt::Result {
        let (these, all) = (self.these as u64, self.all.max(1) as u64);
        if these == 0 {
            return f.write_str("0");
        }
        if these >= all {
            return f.write_str("100");
        }
        let tenths = these.saturating_mul(1000).saturating_add(all / 2) / all;
        if tenths == 0 {
            return f.write_str("below 0.1");
        }
        if tenths >= 1000 {
            return f.write_str("above 99.9");
        }
        let (whole, tenth) = (tenths / 10, tenths % 10);
        write!(f, "{whole}.{tenth}")
    }
}
