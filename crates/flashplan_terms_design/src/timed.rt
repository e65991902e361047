//! What a task asks for, as texts: each number of slots is followed by its time, where it is known how
//! many us a slot takes.

ghost use Rattle.std.specs.Prelude.{Some, ◌+◌};
ghost use Rattle.flashplan_slot_times.specs.Times.{slots_text};
ghost use Rattle.flashplan_terms_design.specs.DieTexts.{coming_text, collections_text, due_text};

use demand_rules::TaskTerms;
use flashplan_slot_times::{Slots, Time};
use std::fmt;
use std::fmt::{Display, Formatter, Write};

/// A cap, and when the jobs of a task come.
#[derive(Clone, Copy, Drop)]
pub struct ComingJobs {
    pub cap: u32,
    pub terms: TaskTerms,
    pub slot_us: Option<u32>,
}

impl Display for ComingJobs {
    ghost output = { λ a. Some (coming_text a.slot_us a.cap a.terms) };

    fn fmt<W: Write>(&self, f: &mut Formatter<W>) -> fmt::Result {
        let (cap, slot_us) = (self.cap, self.slot_us);
        let period = Slots {
            count: u64::from(self.terms.period),
            slot_us,
        };
        write!(f, "cap {cap}, period {period}")
    }
}

/// When a job is due, and how long it may be held.
#[derive(Clone, Copy, Drop)]
pub struct DueJobs {
    pub terms: TaskTerms,
    pub slot_us: Option<u32>,
}

impl Display for DueJobs {
    ghost output = { λ h. Some (due_text h.slot_us h.terms) };

    fn fmt<W: Write>(&self, f: &mut Formatter<W>) -> fmt::Result {
        let slot_us = self.slot_us;
        let deadline = Slots {
            count: u64::from(self.terms.deadline),
            slot_us,
        };
        let held = Slots {
            count: u64::from(self.terms.held),
            slot_us,
        };
        write!(f, ", deadline {deadline}, held {held}")
    }
}

/// What a task's jobs write, and when its collections come and are due.
#[derive(Clone, Copy, Drop)]
pub struct Collections {
    pub terms: TaskTerms,
    pub slot_us: Option<u32>,
}

impl Display for Collections {
    ghost output = { λ c. Some (collections_text c.slot_us c.terms) };

    fn fmt<W: Write>(&self, f: &mut Formatter<W>) -> fmt::Result {
        let (writes, slot_us) = (self.terms.writes, self.slot_us);
        let every = Slots {
            count: u64::from(self.terms.collect_period),
            slot_us,
        };
        let within = Slots {
            count: u64::from(self.terms.collect_deadline),
            slot_us,
        };
        write!(
            f,
            ", writes {writes}, collect_period {every}, collect_deadline {within}"
        )
    }
}

/// How many slots may be asked of an interval that is overfull: its `slots` slots, and `excess` more.
#[derive(Clone, Copy, Drop)]
pub struct AskedSlots {
    pub slots: u32,
    pub excess: u64,
    pub slot_us: Option<u32>,
}

impl Display for AskedSlots {
    ghost output = { λ a. Some (slots_text a.slot_us (a.slots + a.excess)) };

    fn fmt<W: Write>(&self, f: &mut Formatter<W>) -> fmt::Result {
        let count = u128::from(self.slots) + u128::from(self.excess);
        match self.slot_us {
            None => write!(f, "{count}"),
            Some(slot_us) => {
                let us = count * u128::from(slot_us);
                let time = Time { us };
                write!(f, "{count} ({time})")
            }
        }
    }
}
