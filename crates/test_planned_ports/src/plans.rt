//! The plans of the tests: two tasks on ten blocks of four pages, and three on thirteen.

use demand_rules::{TaskTerms, Terms, TermsList};
use slot_types::{Caps, DiePlan, Op, PageData, Refusal, Shape};
use std::alloc::Global;

const TEN_BLOCKS: Shape = Shape {
    blocks: 10,
    pages: 4,
    erase_slots: 2,
};

const THIRTEEN_BLOCKS: Shape = Shape {
    blocks: 13,
    pages: 4,
    erase_slots: 2,
};

/// What tasks may ask for, of which the last one may babble.
#[derive(Clone, Copy, Drop)]
pub(crate) struct Plan {
    pub(crate) shape: Shape,
    pub(crate) caps: &'static [u32],
    pub(crate) tasks: &'static [TaskTerms],
    /// The most slots of a life.
    pub(crate) longest: u32,
    /// The slots of a life: the longest one within `longest` in which the periods of all collections end.
    pub(crate) life: u32,
    /// All that the last task may ask for in a period.
    pub(crate) all: &'static [Op],
    /// An operation more than that.
    pub(crate) more: &'static [Op],
}

/// Two operations in 10 slots, of them one write, due 6 slots later.
const TWO_IN_TEN: TaskTerms = TaskTerms {
    period: 10,
    deadline: 6,
    held: 6,
    work: 2,
    writes: 1,
    collect_period: 20,
    collect_deadline: 15,
};

/// And four operations in 12 slots, of them two writes. Lives have 80 slots.
pub(crate) const PLAN: Plan = Plan {
    shape: TEN_BLOCKS,
    caps: &[8, 10],
    tasks: &[
        TWO_IN_TEN,
        TaskTerms {
            period: 12,
            deadline: 12,
            held: 12,
            work: 4,
            writes: 2,
            collect_period: 16,
            collect_deadline: 16,
        },
    ],
    longest: 95,
    life: 80,
    all: FOUR,
    more: &[Op::Read(0); 5],
};

/// Two writes and two reads.
const FOUR: &[Op] = &[
    Op::Write(0, PageData([1; 16])),
    Op::Write(1, PageData([1; 16])),
    Op::Read(2),
    Op::Read(3),
];

/// Seventy operations in 400 slots, of them one write: bursts of two jobs.
const SEVENTY: TaskTerms = TaskTerms {
    period: 400,
    deadline: 400,
    held: 400,
    work: 70,
    writes: 1,
    collect_period: 100,
    collect_deadline: 100,
};

/// A task of few operations, and one that asks for bursts. Lives have 500 slots.
pub(crate) const LOUD_BURSTS: Plan = Plan {
    tasks: &[TWO_IN_TEN, SEVENTY],
    longest: 500,
    life: 500,
    all: &[Op::Read(2); 70],
    more: &[Op::Read(2); 71],
    ..PLAN
};

/// Two tasks that ask for bursts, the first one for 150 operations in 400 slots, due 300 slots later. Lives have 1,000
/// slots.
pub(crate) const BURSTS: Plan = Plan {
    tasks: &[
        TaskTerms {
            period: 400,
            deadline: 300,
            held: 300,
            work: 150,
            writes: 1,
            collect_period: 20,
            collect_deadline: 15,
        },
        SEVENTY,
    ],
    longest: 1000,
    life: 1000,
    ..LOUD_BURSTS
};

/// Two operations in 20 slots, of them one write, due 12 slots later.
pub(crate) const TWO_IN_TWENTY: TaskTerms = TaskTerms {
    period: 20,
    deadline: 12,
    held: 12,
    work: 2,
    writes: 1,
    collect_period: 40,
    collect_deadline: 30,
};

/// Three operations in 30 slots, of them one write, due 30 slots later.
pub(crate) const THREE_IN_THIRTY: TaskTerms = TaskTerms {
    period: 30,
    deadline: 30,
    held: 30,
    work: 3,
    writes: 1,
    collect_period: 60,
    collect_deadline: 60,
};

/// These two, and four operations in 24 slots, of them two writes. Lives have 480 slots.
pub(crate) const THREE: Plan = Plan {
    shape: THIRTEEN_BLOCKS,
    caps: &[8, 8, 10],
    tasks: &[
        TWO_IN_TWENTY,
        THREE_IN_THIRTY,
        TaskTerms {
            period: 24,
            deadline: 24,
            held: 24,
            work: 4,
            writes: 2,
            collect_period: 32,
            collect_deadline: 32,
        },
    ],
    longest: 500,
    life: 480,
    all: FOUR,
    more: &[Op::Read(0); 5],
};

impl Plan {
    /// The plan as a die takes it. It keeps five logical pages.
    pub(crate) fn of_die(&self, alloc: Global) -> Result<DiePlan, Refusal> {
        Ok(DiePlan {
            shape: self.shape,
            logical: 5,
            alpha: 3,
            caps: Caps::from_vec(Vec::from_slice(alloc, self.caps)?),
            times: None,
        })
    }

    /// Where this slot of the clock lies in its life.
    pub(crate) fn slot_in_life(&self, clock: u64) -> u64 {
        match clock.checked_rem(u64::from(self.life)) {
            Some(slot) => slot,
            None => 0,
        }
    }

    /// What its tasks ask for.
    pub(crate) fn terms(&self, alloc: Global) -> Result<Terms, Refusal> {
        Ok(Terms {
            tasks: TermsList::from_vec(Vec::from_slice(alloc, self.tasks)?),
        })
    }
}
