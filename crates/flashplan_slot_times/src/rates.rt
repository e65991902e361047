//! Rates and shares, as texts.

ghost use Rattle.std.specs.Prelude.{◌*◌, Some};
ghost use Rattle.flashplan_slot_times.specs.Rates.{rate_text, share_text};

use crate::times::Parts;
use std::fmt;
use std::fmt::{Display, Formatter, Write};

/// `pages` pages of `page_bytes` bytes, once in `slots` slots of `slot_us` us: in millions of bytes a second, rounded
/// down to the thousandth. A time of 0 counts as 1 us.
#[derive(Clone, Copy, PartialEq, Eq, Debug, Drop)]
pub struct Rate {
    pub pages: u32,
    pub page_bytes: u32,
    pub slots: u32,
    pub slot_us: u32,
}

impl Display for Rate {
    ghost output = { λ rate. Some
        (rate_text (rate.pages * rate.page_bytes) (rate.slots * rate.slot_us)) };

    fn fmt<W: Write>(&self, f: &mut Formatter<W>) -> fmt::Result {
        let bytes = u64::from(self.pages) * u64::from(self.page_bytes);
        let us = u64::from(self.slots) * u64::from(self.slot_us);
        let parts = Parts {
            parts: u128::from(bytes),
            unit: us,
        };
        write!(f, "{parts} MB/s")
    }
}

/// A part of a whole, in hundredths, rounded down to the thousandth of one. A whole of 0 counts as 1.
#[derive(Clone, Copy, PartialEq, Eq, Debug, Drop)]
pub struct Share {
    pub part: u64,
    pub whole: u64,
}

impl Display for Share {
    ghost output = { λ share. Some (share_text share.part share.whole) };

    fn fmt<W: Write>(&self, f: &mut Formatter<W>) -> fmt::Result {
        let parts = Parts {
            parts: u128::from(self.part) * 100,
            unit: self.whole,
        };
        write!(f, "{parts} %")
    }
}
