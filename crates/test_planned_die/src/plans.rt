//! The plans on which tables are played: two tasks on ten blocks of four pages, where a collection gives three pages at
//! most and takes four slots at most (two for a copy, two for an erase).

use demand_rules::{TaskTerms, Terms, TermsList};
use slot_types::{Caps, DiePlan, Refusal, Shape};
use std::alloc::Global;

/// A plan, by terms and the cap of its first task, and the terms of its second one.
#[derive(Clone, Copy, Drop)]
pub(crate) struct Plan {
    pub(crate) period: u32,
    pub(crate) deadline: u32,
    pub(crate) work: u32,
    pub(crate) cap: u32,
    pub(crate) second: TaskTerms,
    /// The most slots of a life.
    pub(crate) longest: u32,
}

pub(crate) const SHAPE: Shape = Shape {
    blocks: 10,
    pages: 4,
    erase_slots: 2,
};

/// Two operations in 10 slots, due 6 slots later, and of them one write. What it writes in 16 slots and two collections
/// come to 7.6 pages.
pub(crate) const PLAN: Plan = Plan {
    period: 10,
    deadline: 6,
    work: 2,
    cap: 8,
    second: SECOND,
    longest: 95,
};

/// Bursts: 150 operations in 400 slots, due 300 slots later, and of them one write. What it writes in 400 + 300 slots and
/// two collections come to 7.75 pages. Of 300 slots at most 222 are asked for: 150 and 15 collections of four by the first
/// task, and 3 collections by the second one; of 400 at most 316, with 70 operations of the second task.
pub(crate) const BURSTS: Plan = Plan {
    period: 400,
    deadline: 300,
    work: 150,
    cap: 8,
    second: SECOND_BURSTS,
    longest: 1000,
};

/// Four operations in 12 slots, of them two writes: 10 pages.
pub(crate) const SECOND: TaskTerms = TaskTerms {
    period: 12,
    deadline: 12,
    held: 12,
    work: 4,
    writes: 2,
    collect_period: 16,
    collect_deadline: 16,
};

/// Seventy operations in 400 slots, of them one write: 8 pages.
const SECOND_BURSTS: TaskTerms = TaskTerms {
    period: 400,
    deadline: 400,
    held: 400,
    work: 70,
    writes: 1,
    collect_period: 100,
    collect_deadline: 100,
};

impl Plan {
    /// The plan as a die takes it. It keeps five logical pages.
    pub(crate) fn of_die(self, alloc: Global) -> Result<DiePlan, Refusal> {
        Ok(DiePlan {
            shape: SHAPE,
            logical: 5,
            alpha: 3,
            caps: Caps::from_vec(Vec::from_slice(alloc, &[self.cap, 10])?),
            times: None,
        })
    }

    /// What its tasks ask for. Of the first 96 slots of `PLAN` as much may be asked for as there are: 20, 32, 20 and 24
    /// slots of jobs and collections of the first task, and of the second one.
    pub(crate) fn terms(self, alloc: Global) -> Result<Terms, Refusal> {
        let first = TaskTerms {
            period: self.period,
            deadline: self.deadline,
            held: self.deadline,
            work: self.work,
            writes: 1,
            collect_period: 20,
            collect_deadline: 15,
        };
        Ok(Terms {
            tasks: TermsList::from_vec(Vec::from_slice(alloc, &[first, self.second])?),
        })
    }
}
