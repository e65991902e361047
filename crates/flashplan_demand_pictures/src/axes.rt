//! Where a picture has its slots.

use std::fmt;
use std::fmt::{Display, Formatter};

/// The left end of the field, its lower end, and how wide and high it is.
const LEFT: u64 = 84;

const FLOOR: u64 = 400;

const WIDTH: u64 = 700;

const HEIGHT: u64 = 320;

/// Tenths of a pixel.
#[derive(Clone, Copy, Drop)]
pub(crate) struct Tenths(u64);

impl Display for Tenths {
    fn fmt<W: fmt::Write>(&self, f: &mut Formatter<W>) -> fmt::Result {
        let (whole, tenth) = (self.0 / 10, self.0 % 10);
        if tenth == 0 {
            write!(f, "{whole}")
        } else {
            write!(f, "{whole}.{tenth}")
        }
    }
}

/// Both axes go from 0 to `end` slots.
#[derive(Clone, Copy, Drop)]
pub(crate) struct Axes {
    pub(crate) end: u32,
}

impl Axes {
    /// How far `slots` slots lie from 0, in tenths of a pixel, where the axis has `whole` pixels; the axis ends there.
    fn part(&self, slots: u64, whole: u64) -> u64 {
        let end = u64::from(self.end.max(1));
        slots.min(end).saturating_mul(whole).saturating_mul(10) / end
    }

    /// Where an interval of `slots` slots stands.
    pub(crate) fn x(&self, slots: u32) -> Tenths {
        Tenths((LEFT * 10).saturating_add(self.part(u64::from(slots), WIDTH)))
    }

    /// Where `slots` slots that are asked for stand.
    pub(crate) fn y(&self, slots: u64) -> Tenths {
        Tenths((FLOOR * 10).saturating_sub(self.part(slots, HEIGHT)))
    }

    /// How far the marks of an axis lie apart: 1, 2 or 5, and zeros after it, so that there are 5 to 10 of them.
    pub(crate) fn mark(&self) -> u32 {
        let mut unit: u32 = 1;
        for _ in 0..7 {
            for times in [1u32, 2, 5] {
                let mark = unit.saturating_mul(times);
                if u64::from(mark).saturating_mul(10) >= u64::from(self.end) {
                    return mark;
                }
            }
            unit = unit.saturating_mul(10);
        }
        unit
    }
}
