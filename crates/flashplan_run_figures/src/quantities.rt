//! Numbers as a designer reads them: behind a number of slots how long they take, and after one of pages how many bytes
//! a second that is, where it is known.

ghost use Rattle.std.specs.Prelude.{◌≡◌, Some};
ghost use Rattle.flashplan_run_figures.specs.declared.figures.Figure.TheVariants as figure;
ghost use Rattle.flashplan_run_figures.specs.declared.quantities.Unit.TheVariants as unit;
ghost use Rattle.flashplan_run_figures.specs.FigureTexts.{count_of};
ghost use Rattle.flashplan_run_figures.specs.Quantities.{quantity_text, rate_after, time_after, unit_text};

use crate::figures::Figure;
use flashplan_slot_times::{Rate, Time, Units};
use std::fmt;
use std::fmt::{Display, Formatter, Write};

/// What a number counts.
#[derive(Clone, Copy, PartialEq, Eq, Debug, Drop)]
pub enum Unit {
    /// Neither slots nor pages.
    One,
    /// Slots: how many, which one, or how many after a deadline.
    Slot,
    /// Pages that were carried in `slots` slots.
    Page { slots: u32 },
}

/// The time of slots, in brackets: nothing where no slots are counted. A slot takes `slot_us` us. Hundredths of a slot,
/// and so their us, are rounded towards 0.
#[derive(Clone, Copy, Drop)]
struct TimeAfter {
    figure: Figure,
    slot_us: u32,
}

impl Display for TimeAfter {
    ghost output = { λ time. Some (time_after time.slot_us time.figure) };

    fn fmt<W: Write>(&self, f: &mut Formatter<W>) -> fmt::Result {
        let slot_us = u128::from(self.slot_us);
        match self.figure {
            Figure::Whole(n) => {
                let sign = if n < 0 { "-" } else { "" };
                let us = u128::from(n.unsigned_abs()) * slot_us;
                let time = Time { us };
                write!(f, " ({sign}{time})")
            }
            Figure::Hundredths(n) => {
                let sign = if n < 0 { "-" } else { "" };
                let us = u128::from(n.unsigned_abs()) * slot_us / 100;
                let time = Time { us };
                write!(f, " ({sign}{time})")
            }
            _ => Ok(()),
        }
    }
}

/// How many bytes a second the pages are, in brackets: nothing where no pages are counted.
#[derive(Clone, Copy, Drop)]
struct RateAfter {
    figure: Figure,
    slots: u32,
    slot_us: u32,
    page_bytes: u32,
}

impl Display for RateAfter {
    ghost output = { λ rate. Some (rate_after rate.slots rate.slot_us rate.page_bytes rate.figure) };

    fn fmt<W: Write>(&self, f: &mut Formatter<W>) -> fmt::Result {
        let Figure::Whole(n) = self.figure else {
            return Ok(());
        };
        let Ok(pages) = u32::try_from(n) else {
            return Ok(());
        };
        let rate = Rate {
            pages,
            page_bytes: self.page_bytes,
            slots: self.slots,
            slot_us: self.slot_us,
        };
        write!(f, " ({rate})")
    }
}

/// What stands behind a number.
#[derive(Clone, Copy, Drop)]
struct After {
    figure: Figure,
    unit: Unit,
    units: Units,
}

impl Display for After {
    ghost output = { λ after. Some (unit_text after.units after.unit after.figure) };

    fn fmt<W: Write>(&self, f: &mut Formatter<W>) -> fmt::Result {
        let figure = self.figure;
        let Some(slot_us) = self.units.slot_us else {
            return Ok(());
        };
        match (self.unit, self.units.page_bytes) {
            (Unit::Slot, _) => {
                let time = TimeAfter { figure, slot_us };
                write!(f, "{time}")
            }
            (Unit::Page { slots }, Some(page_bytes)) => {
                let rate = RateAfter {
                    figure,
                    slots,
                    slot_us,
                    page_bytes,
                };
                write!(f, "{rate}")
            }
            _ => Ok(()),
        }
    }
}

/// A number, and after it in brackets what it comes to, where the length of a slot, and of pages their payload, are
/// known. Slots come to a time, written as [`Slots`](flashplan_slot_times::Slots) are, with a sign where they come before a
/// deadline. Pages come to a [`Rate`].
#[derive(Clone, Copy, PartialEq, Eq, Debug, Drop)]
pub struct Quantity {
    pub figure: Figure,
    pub unit: Unit,
    pub units: Units,
}

impl Quantity {
    /// How many pages were carried in `slots` slots.
    pub fn pages(count: u32, slots: u32, units: Units) -> Quantity
        ensures { result ≡ record { figure = count_of count; unit = unit.Page slots; units = units } }
    {
        Quantity {
            figure: Figure::count(count),
            unit: Unit::Page { slots },
            units,
        }
    }

    /// How many slots after a deadline, or before it.
    pub fn lateness(slots: i64, units: Units) -> Quantity
        ensures { result ≡ record { figure = figure.Whole slots; unit = unit.Slot; units = units } }
    {
        Quantity {
            figure: Figure::Whole(slots),
            unit: Unit::Slot,
            units,
        }
    }
}

impl Display for Quantity {
    ghost output = { λ quantity. Some (quantity_text quantity) };

    fn fmt<W: Write>(&self, f: &mut Formatter<W>) -> fmt::Result {
        let figure = self.figure;
        let after = After {
            figure,
            unit: self.unit,
            units: self.units,
        };
        write!(f, "{figure}{after}")
    }
}
