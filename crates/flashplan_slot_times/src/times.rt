//! Times, as texts.

ghost use Rattle.std.specs.Prelude.{Some, max};
ghost use Rattle.flashplan_slot_times.specs.Times.{slots_text, thousandths_text, time_text, units_text};

use std::fmt;
use std::fmt::{Display, Formatter, Write};

/// How many us a ms, a s, a min and an h have.
const MS: u64 = 1_000;

const S: u64 = 1_000_000;

const MIN: u64 = 60_000_000;

const H: u64 = 3_600_000_000;

/// Thousandths of a unit, below 1,000.
#[derive(Clone, Copy, Drop)]
struct Thousandths(u128);

impl Display for Thousandths {
    ghost output = { λ t. Some (thousandths_text t.0) };

    fn fmt<W: Write>(&self, f: &mut Formatter<W>) -> fmt::Result {
        let t = self.0;
        let (first, second, third) = (t / 100, t / 10 % 10, t % 10);
        if t == 0 {
            Ok(())
        } else if t % 100 == 0 {
            write!(f, ".{first}")
        } else if t % 10 == 0 {
            write!(f, ".{first}{second}")
        } else {
            write!(f, ".{first}{second}{third}")
        }
    }
}

/// `parts` parts in units, where a unit has `unit` parts, and at least one: rounded down to the thousandth.
#[derive(Clone, Copy, Drop)]
pub(crate) struct Parts {
    pub(crate) parts: u128,
    pub(crate) unit: u64,
}

impl Display for Parts {
    ghost output = { λ u. Some (units_text u.parts (max u.unit 1)) };

    fn fmt<W: Write>(&self, f: &mut Formatter<W>) -> fmt::Result {
        let unit = u128::from(self.unit.max(1));
        let whole = self.parts / unit;
        let part = Thousandths(self.parts % unit * 1000 / unit);
        write!(f, "{whole}{part}")
    }
}

/// A number of microseconds in a unit by its size: us below 1 ms, ms below 10 s, s below 10 min, min below 10 h, and
/// else h. It is rounded down to the thousandth of its unit, so that us and ms are exact.
#[derive(Clone, Copy, PartialEq, Eq, Debug, Drop)]
pub struct Time {
    pub us: u128,
}

impl Display for Time {
    ghost output = { λ time. Some (time_text time.us) };

    fn fmt<W: Write>(&self, f: &mut Formatter<W>) -> fmt::Result {
        let us = self.us;
        if us < 1_000 {
            write!(f, "{us} us")
        } else if us < 10_000_000 {
            let parts = Parts {
                parts: us,
                unit: MS,
            };
            write!(f, "{parts} ms")
        } else if us < 600_000_000 {
            let parts = Parts { parts: us, unit: S };
            write!(f, "{parts} s")
        } else if us < 36_000_000_000 {
            let parts = Parts {
                parts: us,
                unit: MIN,
            };
            write!(f, "{parts} min")
        } else {
            let parts = Parts { parts: us, unit: H };
            write!(f, "{parts} h")
        }
    }
}

/// A number of slots, and, where the length of one is known, then in brackets how long they take.
#[derive(Clone, Copy, PartialEq, Eq, Debug, Drop)]
pub struct Slots {
    pub count: u64,
    pub slot_us: Option<u32>,
}

impl Display for Slots {
    ghost output = { λ slots. Some (slots_text slots.slot_us slots.count) };

    fn fmt<W: Write>(&self, f: &mut Formatter<W>) -> fmt::Result {
        let count = self.count;
        match self.slot_us {
            None => write!(f, "{count}"),
            Some(slot_us) => {
                let us = u128::from(count) * u128::from(slot_us);
                let time = Time { us };
                write!(f, "{count} ({time})")
            }
        }
    }
}
