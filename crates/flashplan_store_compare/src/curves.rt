//! Curves: above each lateness the share of some jobs that are later. The axis of shares is logarithmic.

use crate::shares::Share;
use std::io;
use std::io::Write;

/// How many pixels the axis of lateness is long.
pub(crate) const WIDTH: u32 = 480;

/// How long the axis of shares is, in tenths of a pixel: four decades, from all jobs down to one in 10,000.
pub(crate) const HEIGHT: u64 = 2800;

/// How long a decade is, in tenths of a pixel.
pub(crate) const DECADE: u64 = 700;

/// How many parts a doubling has.
const PARTS: u64 = 1024;

/// A decade in parts of a doubling, times 1,000.
const DECADE_PARTS: u64 = 3_401_654;

/// One, in numbers with 31 binary digits after the point.
const ONE: u64 = 1 << 31;

/// Which lateness an axis shows: from `low`, 0 at most, to `high`, above it.
#[derive(Clone, Copy, PartialEq, Eq, Debug, Drop)]
pub(crate) struct Axis {
    pub(crate) low: i64,
    pub(crate) high: i64,
}

/// The shortest axis, in slots.
const SHORTEST: i64 = 10;

impl Axis {
    /// An axis for these curves: from the least lateness to the greatest served one, but at most four times as far from 0.
    pub(crate) fn of(curves: &[Curve]) -> Axis {
        let (mut low, mut high) = (0i64, 0i64);
        for curve in curves {
            low = low.min(curve.least());
            high = high.max(curve.greatest());
        }
        let most = low.saturating_mul(-4).max(100);
        let high = high.min(most).max(low.saturating_add(SHORTEST));
        Axis { low, high }
    }

    pub(crate) fn span(self) -> i64 {
        self.high.saturating_sub(self.low).max(1)
    }

    /// The pixel at which a lateness stands, from the left end; none beyond either end.
    pub(crate) fn pixel_of(self, lateness: i64) -> Option<i64> {
        if lateness < self.low || lateness > self.high {
            return None;
        }
        let pixels = lateness
            .saturating_sub(self.low)
            .saturating_mul(i64::from(WIDTH));
        pixels.checked_div_euclid(self.span())
    }

    // The greatest lateness that stands at a pixel or before it.
    fn lateness_at(self, pixel: u32) -> i64 {
        let slots = i64::from(pixel).saturating_mul(self.span());
        let late = slots.checked_div_euclid(i64::from(WIDTH)).unwrap_or(0);
        self.low.saturating_add(late)
    }

    /// How far apart ticks stand: 1, 2 or 5 times a power of ten, so that there are at most ten.
    pub(crate) fn tick(self) -> i64 {
        let mut tick: i64 = 1;
        for place in 0..60u32 {
            if self.span().checked_div_euclid(tick).unwrap_or(0) <= 10 {
                break;
            }
            tick = if place % 3 == 1 {
                (tick / 2).saturating_mul(5)
            } else {
                tick.saturating_mul(2)
            };
        }
        tick.max(1)
    }
}

/// How late the counted jobs of a task were by a policy.
#[derive(Drop)]
pub(crate) struct Curve {
    pub(crate) policy: &'static str,
    /// How many slots, rising; of the refused ones [`REFUSED`](crate::figures::REFUSED).
    pub(crate) rising: Vec<i64>,
}

/// A place in a picture, and how far below it a curve goes, in tenths of a pixel.
#[derive(Clone, Copy)]
pub(crate) struct Corner {
    pub(crate) x: u32,
    pub(crate) y: u64,
}

// How often all of some things is twice as many as these, in parts of 1,024, rounded down. These are some.
fn doublings(all: u64, these: u64) -> u64 {
    let mut ratio = all.saturating_mul(ONE) / these.max(1);
    let mut found: u64 = 0;
    for _ in 0..32u32 {
        if ratio < 2 * ONE {
            break;
        }
        ratio /= 2;
        found = found.saturating_add(PARTS);
    }
    let mut part = PARTS;
    for _ in 0..10u32 {
        ratio = ratio.saturating_mul(ratio) / ONE;
        part /= 2;
        if ratio >= 2 * ONE {
            ratio /= 2;
            found = found.saturating_add(part);
        }
    }
    found
}

/// How far below all of them these stand, in tenths of a pixel: at the end of the axis where there are none, or fewer than one
/// in 10,000.
pub(crate) fn depth_of(all: usize, these: usize) -> u64 {
    if these == 0 {
        return HEIGHT;
    }
    let parts = doublings(all as u64, these as u64);
    let tenths = parts.saturating_mul(1000).saturating_mul(DECADE) / DECADE_PARTS;
    tenths.min(HEIGHT)
}

impl Curve {
    fn least(&self) -> i64 {
        match self.rising.first() {
            Some(least) => *least,
            None => 0,
        }
    }

    // The greatest lateness of a job that was served.
    fn greatest(&self) -> i64 {
        let served = self
            .rising
            .partition_point(|late| *late < crate::figures::REFUSED);
        match self.rising.get(served.saturating_sub(1)) {
            Some(greatest) if served > 0 => *greatest,
            _ => 0,
        }
    }

    /// Of the jobs those that are late or refused.
    pub(crate) fn late(&self) -> Share {
        let in_time = self.rising.partition_point(|late| *late <= 0);
        Share {
            these: self.rising.len().saturating_sub(in_time),
            all: self.rising.len(),
        }
    }

    // How many of the jobs are not later than `lateness`, where `known` of them are known not to be.
    fn passed(&self, known: usize, lateness: i64) -> usize {
        let mut passed = known;
        for place in known..self.rising.len() {
            match self.rising.get(place) {
                Some(late) if *late <= lateness => passed = place.saturating_add(1),
                _ => break,
            }
        }
        passed
    }

    /// Adds the path of the curve, which begins with all jobs in the corner where the axes meet, and ends where no job is later.
    pub(crate) fn put_path(
        &self,
        text: &mut Vec<u8>,
        axis: Axis,
        corner: Corner,
    ) -> io::Result<()> {
        let all = self.rising.len();
        let (mut passed, mut depth) = (0usize, u64::MAX);
        for pixel in 0..WIDTH.saturating_add(1) {
            passed = self.passed(passed, axis.lateness_at(pixel));
            let new = depth_of(all, all.saturating_sub(passed));
            if new == depth {
                continue;
            }
            let x = corner.x.saturating_add(pixel);
            let y = corner.y.saturating_mul(10).saturating_add(new);
            let (whole, tenth) = (y / 10, y % 10);
            if pixel == 0 {
                let top = corner.y;
                write!(text, "M{x},{top}V{whole}.{tenth}")?;
            } else {
                write!(text, "H{x}V{whole}.{tenth}")?;
            }
            if passed >= all {
                return Ok(());
            }
            depth = new;
        }
        let end = corner.x.saturating_add(WIDTH);
        write!(text, "H{end}")
    }
}
