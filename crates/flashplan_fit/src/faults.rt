//! Why a datasheet has no plan.

ghost use Rattle.std.specs.Prelude.{Some};
ghost use Rattle.flashplan_fit.specs.Texts.{lack_text, over_text, reason_text};

use crate::decimals::Decimal;
use crate::sheet_faults::SheetFault;
use flashplan_slot_times::Slots;
use slot_types::Refusal;
use std::fmt;
use std::fmt::{Display, Formatter, Write};

/// Why no plan was found: what stood against the closest that was tried.
#[derive(Clone, Copy, Drop)]
pub enum Reason {
    /// Even with the longest slot that was tried an erase takes more than 64.
    Erase {
        slots: u32,
    },
    /// A slot is to be shorter than the least that would do.
    Slot {
        slot_us: u32,
        least: u32,
    },
    /// A period or a deadline is shorter than the shortest slot that is tried.
    Period {
        slot_us: u32,
    },
    /// No alpha meets the bound.
    Bound,
    /// The least demand that was found is `demand` of `common` slots.
    Demand {
        demand: u64,
        common: u32,
        slot_us: u32,
    },
    /// In the long run `load` of a million slots are asked for.
    Load {
        load: u64,
        slot_us: u32,
    },
    /// An interval of `slots` slots may be asked for `excess` slots more than it has.
    Overfull {
        slots: u32,
        excess: u64,
        slot_us: u32,
    },
    /// A collection in each slot doesn't give back what a task writes.
    Writes {
        slot_us: u32,
    },
}

/// Why a slot has to hold a whole erase.
#[derive(Clone, Copy, Drop)]
pub enum WholeErase {
    /// The part suspends no erase.
    No,
    /// It suspends one at a time, and `tasks` tasks collect.
    One { tasks: usize },
}

/// A longer time of a task with which a plan is found.
#[derive(Clone, Copy, Drop)]
pub struct LongerTime {
    /// The task's place in the text, the first being 1.
    pub nth: u32,
    pub key: &'static str,
    pub time: Decimal,
}

/// With which numbers, one at a time, a plan is found. Each was tried.
#[derive(Drop)]
pub struct Advice {
    /// The length of a slot, where another one is asked for.
    pub slot_us: Option<u32>,
    /// The greatest such.
    pub logical: Option<u32>,
    /// The least such.
    pub blocks: Option<u32>,
    pub times: Vec<LongerTime>,
}

impl Advice {
    /// Whether there is none.
    fn is_empty(&self) -> bool {
        self.slot_us.is_none()
            && self.logical.is_none()
            && self.blocks.is_none()
            && self.times.is_empty()
    }
}

/// Why no plan was found, and what would do.
#[derive(Drop)]
pub struct Unfound {
    pub reason: Reason,
    pub whole_erase: Option<WholeErase>,
    pub advice: Advice,
}

/// Why there is no plan.
#[derive(Drop)]
pub enum FitFault {
    Refused(Refusal),
    Sheet(SheetFault),
    NotFound(Unfound),
}

impl From<Refusal> for FitFault {
    fn from(refusal: Refusal) -> FitFault {
        FitFault::Refused(refusal)
    }
}

/// Of each `common` slots, `demand` are taken.
#[derive(Clone, Copy, Drop)]
struct Over {
    demand: u64,
    common: u32,
    slot_us: Option<u32>,
}

impl Display for Over {
    ghost output = { λ over. Some (over_text over.slot_us over.demand over.common) };

    fn fmt<W: Write>(&self, f: &mut Formatter<W>) -> fmt::Result {
        let slot_us = self.slot_us;
        let demand = Slots {
            count: self.demand,
            slot_us,
        };
        let all = Slots {
            count: u64::from(self.common),
            slot_us,
        };
        write!(f, "{demand} of each {all} slots")
    }
}

/// An interval of `slots` slots lacks `excess`.
#[derive(Clone, Copy, Drop)]
struct Lacking {
    slots: u32,
    excess: u64,
    slot_us: Option<u32>,
}

impl Display for Lacking {
    ghost output = { λ lacking. Some (lack_text lacking.slot_us lacking.slots lacking.excess) };

    fn fmt<W: Write>(&self, f: &mut Formatter<W>) -> fmt::Result {
        let slot_us = self.slot_us;
        let slots = Slots {
            count: u64::from(self.slots),
            slot_us,
        };
        let excess = Slots {
            count: self.excess,
            slot_us,
        };
        write!(f, "an interval of {slots} slots lacks {excess}")
    }
}

impl Display for Reason {
    ghost output = { λ reason. Some (reason_text reason) };

    fn fmt<W: Write>(&self, f: &mut Formatter<W>) -> fmt::Result {
        match *self {
            Reason::Erase { slots } => {
                write!(f, "an erase takes {slots} slots, and may take 64")
            }
            Reason::Slot { slot_us, least } => write!(
                f,
                "`slot_us` is {slot_us}, and has to be at least {least}: a slot holds a read, a program, and a 64th of an erase"
            ),
            Reason::Period { slot_us } => {
                write!(
                    f,
                    "a period or a deadline is shorter than the shortest slot, {slot_us} us"
                )
            }
            Reason::Bound => f.write_str("no alpha meets the bound"),
            Reason::Demand {
                demand,
                common,
                slot_us,
            } => {
                let over = Over {
                    demand,
                    common,
                    slot_us: Some(slot_us),
                };
                write!(
                    f,
                    "the tasks need too much: with slots of {slot_us} us {over}"
                )
            }
            Reason::Load { load, slot_us } => write!(
                f,
                "the tasks need too much: with slots of {slot_us} us {load} of each 1000000 slots"
            ),
            Reason::Overfull {
                slots,
                excess,
                slot_us,
            } => {
                let lacking = Lacking {
                    slots,
                    excess,
                    slot_us: Some(slot_us),
                };
                write!(
                    f,
                    "the tasks need too much at once: with slots of {slot_us} us {lacking}"
                )
            }
            Reason::Writes { slot_us } => write!(
                f,
                "a task writes too much: with slots of {slot_us} us a collection in each slot gives back less"
            ),
        }
    }
}

impl Display for WholeErase {
    fn fmt<W: Write>(&self, f: &mut Formatter<W>) -> fmt::Result {
        match *self {
            WholeErase::No => {
                f.write_str("\na slot has to hold a whole erase: the part suspends none")
            }
            WholeErase::One { tasks } => write!(
                f,
                "\na slot has to hold a whole erase: the part suspends one at a time, and each of {tasks} tasks collects"
            ),
        }
    }
}

impl Display for LongerTime {
    fn fmt<W: Write>(&self, f: &mut Formatter<W>) -> fmt::Result {
        let LongerTime { nth, key, time } = *self;
        let article = if key.starts_with("a") { "an" } else { "a" };
        write!(
            f,
            "\nwith {article} {key} of {time} in [[task]] {nth} a plan is found"
        )
    }
}

impl Display for Advice {
    fn fmt<W: Write>(&self, f: &mut Formatter<W>) -> fmt::Result {
        if self.is_empty() {
            return f.write_str(
                "\nwith no other logical or blocks, and no longer time of one task, a plan is found",
            );
        }
        if let Some(slot_us) = self.slot_us {
            write!(f, "\nwith a slot_us of {slot_us} a plan is found")?;
        }
        if let Some(logical) = self.logical {
            write!(f, "\nwith a logical of at most {logical} a plan is found")?;
        }
        if let Some(blocks) = self.blocks {
            write!(f, "\nwith blocks of at least {blocks} a plan is found")?;
        }
        for longer in self.times.as_slice() {
            write!(f, "{longer}")?;
        }
        Ok(())
    }
}

impl Display for Unfound {
    fn fmt<W: Write>(&self, f: &mut Formatter<W>) -> fmt::Result {
        let (reason, advice) = (&self.reason, &self.advice);
        write!(f, "{reason}")?;
        if let Some(whole) = self.whole_erase {
            write!(f, "{whole}")?;
        }
        write!(f, "{advice}")
    }
}
