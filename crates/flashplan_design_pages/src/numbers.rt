//! Numbers as a page has them.

use std::fmt;
use std::fmt::{Display, Formatter};

/// The units of a count's groups of three digits.
const UNITS: [u64; 7] = [
    1_000_000_000_000_000_000,
    1_000_000_000_000_000,
    1_000_000_000_000,
    1_000_000_000,
    1_000_000,
    1_000,
    1,
];

/// A count, with a comma before each three digits from the right.
#[derive(Clone, Copy, Drop)]
pub struct Count(pub u64);

impl Display for Count {
    fn fmt<W: fmt::Write>(&self, f: &mut Formatter<W>) -> fmt::Result {
        let mut begun = false;
        for unit in UNITS {
            let high = self.0.checked_div(unit).unwrap_or(0);
            let group = high % 1000;
            if begun {
                write!(f, ",{group:03}")?;
            } else if high > 0 || unit == 1 {
                write!(f, "{group}")?;
                begun = true;
            }
        }
        Ok(())
    }
}

/// A number in thousandths, with no more digits after the point than it has.
#[derive(Clone, Copy, Drop)]
pub struct Thousandths(pub u64);

impl Display for Thousandths {
    fn fmt<W: fmt::Write>(&self, f: &mut Formatter<W>) -> fmt::Result {
        let (whole, rest) = (Count(self.0 / 1000), self.0 % 1000);
        let (tenths, hundredths) = (rest / 100, rest / 10);
        if rest == 0 {
            write!(f, "{whole}")
        } else if rest % 100 == 0 {
            write!(f, "{whole}.{tenths}")
        } else if rest % 10 == 0 {
            write!(f, "{whole}.{hundredths:02}")
        } else {
            write!(f, "{whole}.{rest:03}")
        }
    }
}

/// Below this many microseconds a time is said in milliseconds, and from there in seconds.
const IN_SECONDS: u64 = 10_000_000;

/// A time in microseconds.
#[derive(Clone, Copy, Drop)]
pub struct Time(pub u64);

impl Display for Time {
    fn fmt<W: fmt::Write>(&self, f: &mut Formatter<W>) -> fmt::Result {
        if self.0 < IN_SECONDS {
            let parts = Thousandths(self.0);
            write!(f, "{parts} ms")
        } else {
            let parts = Thousandths(self.0 / 1000);
            write!(f, "{parts} s")
        }
    }
}

/// A number of slots, and how long they take.
#[derive(Clone, Copy, Drop)]
pub struct Span {
    pub slots: u64,
    /// Microseconds of a slot.
    pub slot_us: u32,
}

impl Display for Span {
    fn fmt<W: fmt::Write>(&self, f: &mut Formatter<W>) -> fmt::Result {
        let slots = Count(self.slots);
        let time = Time(self.slots.saturating_mul(u64::from(self.slot_us)));
        if self.slots == 1 {
            write!(f, "1 slot, {time}")
        } else {
            write!(f, "{slots} slots, {time}")
        }
    }
}

/// Hundredths of a slot after a deadline, or before it where they are negative; and how long they take.
#[derive(Clone, Copy, Drop)]
pub struct Lateness {
    pub hundredths: i64,
    /// Microseconds of a slot.
    pub slot_us: u32,
}

impl Display for Lateness {
    fn fmt<W: fmt::Write>(&self, f: &mut Formatter<W>) -> fmt::Result {
        let sign = if self.hundredths < 0 { "-" } else { "" };
        let size = self.hundredths.unsigned_abs();
        let slots = Thousandths(size.saturating_mul(10));
        let time = Time(size.saturating_mul(u64::from(self.slot_us)) / 100);
        write!(f, "{sign}{slots} slots, {sign}{time}")
    }
}
