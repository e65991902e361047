//! The table: a record of each task of each die by each policy, and one of all tasks.

use crate::figures::{Figures, REFUSED, figures_from};
use crate::plays::{Counted as CountedJobs, Play};
use crate::store_dies::Carried;
use flashplan_run_figures::{Figure, Quantity, Unit};
use flashplan_slot_times::Units;
use slot_types::Refusal;
use std::alloc::Global;
use std::io;
use std::io::Write;

/// How many numbers a record has.
const NUMBERS: usize = 12;

/// What stands in front of a record's numbers, and how wide it is in a table.
const KEYS: [(&str, usize); 3] = [("policy", 9), ("die", 4), ("task", 6)];

/// What the numbers of a column count.
#[derive(Clone, Copy, Drop)]
enum Counted {
    /// Neither slots nor pages.
    Others,
    Slots,
    Pages,
}

/// The numbers of a record, how wide each is in a table, and what it counts.
const NAMES: [(&str, usize, Counted); NUMBERS] = [
    ("jobs", 7, Counted::Others),
    ("refused", 9, Counted::Others),
    ("late", 7, Counted::Others),
    ("unfinished", 12, Counted::Others),
    ("worst", 8, Counted::Slots),
    ("mean", 10, Counted::Slots),
    ("p99", 9, Counted::Slots),
    ("p999", 9, Counted::Slots),
    ("written", 9, Counted::Pages),
    ("copied", 8, Counted::Pages),
    ("amplification", 15, Counted::Others),
    ("idle", 8, Counted::Slots),
];

/// How much wider a column is with times, and with rates.
const WITH_TIMES: usize = 14;

const WITH_RATES: usize = 17;

/// Puts fields into a text: by commas, or each as wide as its column. Records count slots and pages; in a table each
/// number of slots is followed by its time, and each of pages by how many bytes a second that is, where it is known.
#[derive(Drop)]
pub(crate) struct Sheet {
    pub(crate) text: Vec<u8>,
    as_csv: bool,
    units: Units,
    /// In how many slots pages are counted.
    slots: u32,
}

impl Sheet {
    /// An empty one, whose pages are counted in `slots` slots.
    pub(crate) fn new(alloc: Global, as_csv: bool, units: Units, slots: u32) -> Sheet {
        Sheet {
            text: Vec::new(alloc),
            as_csv,
            units: if as_csv { Units::NONE } else { units },
            slots,
        }
    }

    // How wide a column is that counts this.
    fn width(&self, width: usize, counted: Counted) -> usize {
        match (counted, self.units.slot_us, self.units.page_bytes) {
            (Counted::Slots, Some(_), _) => width.saturating_add(WITH_TIMES),
            (Counted::Pages, Some(_), Some(_)) => width.saturating_add(WITH_RATES),
            _ => width,
        }
    }

    // A number with its unit.
    fn quantity(&self, figure: Figure, counted: Counted) -> Quantity {
        let unit = match counted {
            Counted::Others => Unit::One,
            Counted::Slots => Unit::Slot,
            Counted::Pages => Unit::Page { slots: self.slots },
        };
        Quantity {
            figure,
            unit,
            units: self.units,
        }
    }

    // Adds a field after others.
    fn put(&mut self, field: &str, width: usize) -> io::Result<()> {
        if self.as_csv {
            self.text.write_all(b",")?;
        } else {
            for _ in field.len()..width {
                self.text.write_all(b" ")?;
            }
        }
        self.text.write_all(field.as_bytes())
    }

    // Adds the first field of a line.
    fn put_first(&mut self, field: &str, width: usize) -> io::Result<()> {
        self.text.write_all(field.as_bytes())?;
        if !self.as_csv {
            for _ in field.len()..width {
                self.text.write_all(b" ")?;
            }
        }
        Ok(())
    }

    fn put_header(&mut self) -> io::Result<()> {
        let [(first, wide), die, task] = KEYS;
        self.put_first(first, wide)?;
        for (name, width) in [die, task] {
            self.put(name, width)?;
        }
        for (name, width, counted) in NAMES {
            self.put(name, self.width(width, counted))?;
        }
        self.text.write_all(b"\n")
    }

    fn put_figure(&mut self, alloc: Global, figure: Figure, width: usize) -> io::Result<()> {
        let field = figure.to_string(alloc)?;
        self.put(field.as_str(), width)
    }

    fn put_number(
        &mut self,
        alloc: Global,
        figure: Figure,
        width: usize,
        counted: Counted,
    ) -> io::Result<()> {
        let field = self.quantity(figure, counted).to_string(alloc)?;
        self.put(field.as_str(), self.width(width, counted))
    }

    fn put_record(
        &mut self,
        alloc: Global,
        play: &Play<'_>,
        task: Option<u32>,
        numbers: [Figure; NUMBERS],
    ) -> io::Result<()> {
        let [(_, policy), (_, die), (_, wide)] = KEYS;
        self.put_first(play.policy, policy)?;
        self.put_figure(alloc, Figure::count(play.die), die)?;
        self.put_figure(alloc, Figure::whole(task.map(i64::from)), wide)?;
        for (number, (_, width, counted)) in numbers.into_iter().zip(NAMES) {
            self.put_number(alloc, number, width, counted)?;
        }
        self.text.write_all(b"\n")
    }
}

// A count, which fits.
fn count(count: usize) -> Figure {
    Figure::Whole(i64::try_from(count).unwrap_or(i64::MAX))
}

// A lateness, or the word that the job was refused; nothing where there is no job.
fn rank(lateness: Option<i64>) -> Figure {
    match lateness {
        None => Figure::Nothing,
        Some(REFUSED) => Figure::Refused,
        Some(lateness) => Figure::Whole(lateness),
    }
}

fn numbers_of(figures: &Figures, carried: Option<Carried>) -> [Figure; NUMBERS] {
    let [written, copied, amplification, idle] = match carried {
        Some(carried) => [
            Figure::count(carried.written),
            Figure::count(carried.copied),
            Figure::amplification(carried.written, carried.copied),
            Figure::count(carried.idle),
        ],
        None => [Figure::Nothing; 4],
    };
    [
        count(figures.jobs),
        count(figures.refused),
        count(figures.late),
        count(figures.unfinished),
        Figure::whole(figures.worst),
        Figure::hundredths(figures.mean),
        rank(figures.p99),
        rank(figures.p999),
        written,
        copied,
        amplification,
        idle,
    ]
}

// What a text in memory answers.
fn kept(put: io::Result<()>) -> Result<(), Refusal> {
    match put {
        Ok(()) => Ok(()),
        Err(_) => Err(Refusal::NoMemory),
    }
}

// Adds the record of a task, where it has a counted job, or of all, which is there without one, too.
fn put_task(
    alloc: Global,
    sheet: &mut Sheet,
    play: &Play<'_>,
    counted: CountedJobs,
    task: Option<u32>,
    carried: Option<Carried>,
) -> Result<(), Refusal> {
    let (lateness, unfinished) = play.lateness(alloc, counted, task)?;
    if lateness.is_empty() && task.is_some() {
        return Ok(());
    }
    let figures = figures_from(alloc, lateness, unfinished)?;
    let numbers = numbers_of(&figures, carried);
    kept(sheet.put_record(alloc, play, task, numbers))
}

/// Adds the header.
pub(crate) fn put_header(sheet: &mut Sheet) -> Result<(), Refusal> {
    kept(sheet.put_header())
}

/// Adds the records of a die: one of each of its tasks that has a counted job, and one of all of them with what was carried,
/// whether or not a job is counted.
pub(crate) fn put_die(
    alloc: Global,
    sheet: &mut Sheet,
    play: &Play<'_>,
    counted: CountedJobs,
) -> Result<(), Refusal> {
    for task in 0..play.tasks {
        put_task(alloc, sheet, play, counted, Some(task), None)?;
    }
    put_task(alloc, sheet, play, counted, None, Some(play.carried))
}
