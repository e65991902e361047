//! What was found of a plan: with which numbers it would do, one at a time.

ghost use Rattle.std.specs.Prelude.{Some};
ghost use Rattle.flashplan_design.specs.Findings.{alpha_text, finding_text, numbers_text, own_text, periods_text, taken_text, task_text, work_text};

use crate::subjects::TaskName;
use flashplan_slot_times::Slots;
use std::fmt;
use std::fmt::{Display, Formatter, Write};

/// Something with the length of a slot in us, if that is known: each of its numbers of slots is followed by its time.
#[derive(Clone, Copy, Drop)]
pub(crate) struct Timed<T> {
    pub(crate) of: T,
    pub(crate) slot_us: Option<u32>,
}

/// What each number of a task could be; none where no number would do.
#[derive(Clone, Copy, PartialEq, Eq, Debug, Drop)]
pub struct TaskFinding {
    pub name: TaskName,
    /// The least period, and the greatest collect period.
    pub periods: OwnPeriods,
    /// The least cap, and the most operations and writes of a job.
    pub work: OwnWork,
}

/// An alpha with which the plan would do, and how many slots are then taken of a die.
#[derive(Clone, Copy, PartialEq, Eq, Debug, Drop)]
pub struct AlphaFinding {
    pub die: u32,
    pub alpha: u32,
    pub taken: Taken,
}

/// What was found of a plan, its other numbers being as they are.
#[derive(Clone, Copy, PartialEq, Eq, Debug, Drop)]
pub enum Finding {
    /// The least number of blocks; none where no number would do, as also below.
    Blocks(Option<u32>),
    /// The greatest number of logical pages.
    Logical(Option<u32>),
    /// The least hyperperiod.
    Common(Option<u32>),
    Alpha(AlphaFinding),
    Task(TaskFinding),
}

/// What a number of a task could be.
#[derive(Clone, Copy, PartialEq, Eq, Debug, Drop)]
pub enum OwnNumber {
    Period(Option<u32>),
    CollectPeriod(Option<u32>),
    Cap(Option<u32>),
    Work(Option<u32>),
    Writes(Option<u32>),
}

impl Display for Timed<OwnNumber> {
    ghost output = { λ number. Some (own_text number.slot_us number.of) };

    fn fmt<W: Write>(&self, f: &mut Formatter<W>) -> fmt::Result {
        let slot_us = self.slot_us;
        match self.of {
            OwnNumber::Period(Some(n)) => {
                let count = u64::from(n);
                let slots = Slots { count, slot_us };
                write!(f, "least period {slots}")
            }
            OwnNumber::Period(None) => f.write_str("no period"),
            OwnNumber::CollectPeriod(Some(n)) => {
                let count = u64::from(n);
                let slots = Slots { count, slot_us };
                write!(f, "greatest collect_period {slots}")
            }
            OwnNumber::CollectPeriod(None) => f.write_str("no collect_period"),
            OwnNumber::Cap(Some(n)) => write!(f, "least cap {n}"),
            OwnNumber::Cap(None) => f.write_str("no cap"),
            OwnNumber::Work(Some(n)) => write!(f, "greatest work {n}"),
            OwnNumber::Work(None) => f.write_str("no work"),
            OwnNumber::Writes(Some(n)) => write!(f, "greatest writes {n}"),
            OwnNumber::Writes(None) => f.write_str("no writes"),
        }
    }
}

/// The periods of a task.
#[derive(Clone, Copy, PartialEq, Eq, Debug, Drop)]
pub struct OwnPeriods {
    pub period: Option<u32>,
    pub collect_period: Option<u32>,
}

impl Display for Timed<OwnPeriods> {
    ghost output = { λ own. Some (periods_text own.slot_us own.of) };

    fn fmt<W: Write>(&self, f: &mut Formatter<W>) -> fmt::Result {
        let slot_us = self.slot_us;
        let period = Timed {
            of: OwnNumber::Period(self.of.period),
            slot_us,
        };
        let collect_period = Timed {
            of: OwnNumber::CollectPeriod(self.of.collect_period),
            slot_us,
        };
        write!(f, "{period}, {collect_period}")
    }
}

/// The cap of a task, and what its jobs do.
#[derive(Clone, Copy, PartialEq, Eq, Debug, Drop)]
pub struct OwnWork {
    pub cap: Option<u32>,
    pub work: Option<u32>,
    pub writes: Option<u32>,
}

impl Display for Timed<OwnWork> {
    ghost output = { λ own. Some (work_text own.slot_us own.of) };

    fn fmt<W: Write>(&self, f: &mut Formatter<W>) -> fmt::Result {
        let slot_us = self.slot_us;
        let cap = Timed {
            of: OwnNumber::Cap(self.of.cap),
            slot_us,
        };
        let work = Timed {
            of: OwnNumber::Work(self.of.work),
            slot_us,
        };
        let writes = Timed {
            of: OwnNumber::Writes(self.of.writes),
            slot_us,
        };
        write!(f, "{cap}, {work}, {writes}")
    }
}

impl Display for Timed<(OwnPeriods, OwnWork)> {
    ghost output = { λ own. Some (numbers_text own.slot_us own.of.0 own.of.1) };

    fn fmt<W: Write>(&self, f: &mut Formatter<W>) -> fmt::Result {
        let slot_us = self.slot_us;
        let periods = Timed {
            of: self.of.0,
            slot_us,
        };
        let work = Timed {
            of: self.of.1,
            slot_us,
        };
        write!(f, "{periods}, {work}")
    }
}

impl Display for Timed<TaskFinding> {
    ghost output = { λ found. Some (task_text found.slot_us found.of) };

    fn fmt<W: Write>(&self, f: &mut Formatter<W>) -> fmt::Result {
        let name = self.of.name;
        let numbers = Timed {
            of: (self.of.periods, self.of.work),
            slot_us: self.slot_us,
        };
        write!(f, "{name}: one at a time, these would do: {numbers}.")
    }
}

/// How many slots of each `common` ones are taken of a die.
#[derive(Clone, Copy, PartialEq, Eq, Debug, Drop)]
pub struct Taken {
    pub demand: u64,
    pub common: u32,
}

impl Display for Timed<Taken> {
    ghost output = { λ taken. Some (taken_text taken.slot_us taken.of) };

    fn fmt<W: Write>(&self, f: &mut Formatter<W>) -> fmt::Result {
        let slot_us = self.slot_us;
        let common = Slots {
            count: u64::from(self.of.common),
            slot_us,
        };
        let demand = Slots {
            count: self.of.demand,
            slot_us,
        };
        write!(f, "of each {common} slots {demand} are taken")
    }
}

impl Display for Timed<AlphaFinding> {
    ghost output = { λ found. Some (alpha_text found.slot_us found.of) };

    fn fmt<W: Write>(&self, f: &mut Formatter<W>) -> fmt::Result {
        let (die, alpha) = (self.of.die, self.of.alpha);
        let taken = Timed {
            of: self.of.taken,
            slot_us: self.slot_us,
        };
        write!(
            f,
            "die {die}: with its other numbers as they are, alpha {alpha} would do: {taken}."
        )
    }
}

impl Display for Timed<Finding> {
    ghost output = { λ finding. Some (finding_text finding.slot_us finding.of) };

    fn fmt<W: Write>(&self, f: &mut Formatter<W>) -> fmt::Result {
        let slot_us = self.slot_us;
        match self.of {
            Finding::Blocks(Some(n)) => write!(
                f,
                "plan: with its other numbers as they are, the least blocks that would do is {n}."
            ),
            Finding::Blocks(None) => {
                f.write_str("plan: with its other numbers as they are, no blocks would do.")
            }
            Finding::Logical(Some(n)) => write!(
                f,
                "plan: with its other numbers as they are, the greatest logical that would do is {n}."
            ),
            Finding::Logical(None) => {
                f.write_str("plan: with its other numbers as they are, no logical would do.")
            }
            Finding::Common(Some(n)) => {
                let count = u64::from(n);
                let slots = Slots { count, slot_us };
                write!(
                    f,
                    "plan: with its other numbers as they are, the least common that would do is {slots}."
                )
            }
            Finding::Common(None) => {
                f.write_str("plan: with its other numbers as they are, no common would do.")
            }
            Finding::Alpha(of) => {
                let found = Timed { of, slot_us };
                write!(f, "{found}")
            }
            Finding::Task(of) => {
                let found = Timed { of, slot_us };
                write!(f, "{found}")
            }
        }
    }
}
