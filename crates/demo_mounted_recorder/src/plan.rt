//! What the recorder's die is planned for, and which tasks write on it.

ghost use Rattle.std.specs.Prelude.{◌≡◌, IfOk};
ghost use Rattle.demo_mounted_recorder.specs.Plan.{die_plan};

use demand_rules::{TaskTerms, Terms, TermsList};
use slot_types::{Caps, DiePlan, Refusal, Shape, TaskNo};
use std::alloc::Global;

/// The part: the die's blocks, and one that stands aside.
pub(crate) const PART: Shape = Shape {
    blocks: 16,
    pages: 4,
    erase_slots: 3,
};

const SHAPE: Shape = Shape { blocks: 15, ..PART };

/// How many pages the die has.
pub(crate) const PAGES: usize = 16;

/// How many pages each task may have.
pub(crate) const CAPS: [u32; 3] = [6, 6, 4];

/// No life of the die is longer.
pub(crate) const LONGEST: u32 = 4096;

/// A task that asks for a write each period: of its pages, by turns.
#[derive(Clone, Copy, Drop)]
pub(crate) struct Writer {
    pub(crate) task: TaskNo,
    pub(crate) terms: TaskTerms,
    first_page: u32,
    pages: u32,
}

/// It writes page 0, each 8 slots.
pub(crate) const CONTROL: Writer = Writer {
    task: TaskNo(0),
    terms: TaskTerms {
        period: 8,
        deadline: 8,
        held: 8,
        work: 1,
        writes: 1,
        collect_period: 16,
        collect_deadline: 16,
    },
    first_page: 0,
    pages: 1,
};

/// It writes one of the other pages, each 32 slots.
pub(crate) const LOGGER: Writer = Writer {
    task: TaskNo(1),
    terms: TaskTerms {
        period: 32,
        deadline: 32,
        held: 32,
        work: 1,
        writes: 1,
        collect_period: 64,
        collect_deadline: 64,
    },
    first_page: 1,
    pages: 15,
};

/// The task that reads all pages, once in 128 slots.
pub(crate) const READER: TaskNo = TaskNo(2);

const READER_TERMS: TaskTerms = TaskTerms {
    period: 128,
    deadline: 128,
    held: 128,
    work: 16,
    writes: 0,
    collect_period: 128,
    collect_deadline: 128,
};

impl Writer {
    /// The page of its write of this number, from 1 on.
    pub(crate) fn page(&self, number: u64) -> u32 {
        let turn = number.checked_rem(u64::from(self.pages)).unwrap_or(0);
        self.first_page
            .saturating_add(u32::try_from(turn).unwrap_or(0))
    }

    /// Whether it writes this page.
    pub(crate) fn has(&self, page: u32) -> bool {
        page >= self.first_page && page - self.first_page < self.pages
    }
}

pub(crate) fn terms(alloc: Global) -> Result<Terms, Refusal> {
    let tasks = [CONTROL.terms, LOGGER.terms, READER_TERMS];
    Ok(Terms {
        tasks: TermsList::from_vec(Vec::from_slice(alloc, &tasks)?),
    })
}

pub(crate) fn die_plan(alloc: Global) -> Result<DiePlan, Refusal>
    ensures { IfOk result (λ plan. plan ≡ die_plan) }
{
    Ok(DiePlan {
        shape: SHAPE,
        logical: 16,
        alpha: 2,
        caps: Caps::from_vec(Vec::from_slice(alloc, &CAPS)?),
        times: None,
    })
}
