//! The words of a test: what a pass asks of its die, what comes of it, and what stands of the die then.
//!
//! A test is a table of steps, such as
//!
//! ```text
//! Submit { release: 0, due: 5, op: Op::Write(3, TWOS), want: Ok(0) },
//! Slot { want: Ok(Some(0)) },
//! Is(Done { job: 0, completion: 1, lateness: -4 }),
//! ```
//!
//! Jobs and slots go by their numbers, which begin at 0. Every job is one of task 0, with one operation.

use die_service::RefusedAt;
use slot_types::{Op, PageData, Refusal};

/// A step of a table. A `want` is the answer of the die.
pub(crate) enum Step {
    /// A job is submitted. It gets a number, or is refused.
    Submit {
        release: u32,
        due: u32,
        op: Op,
        want: Result<u32, Refusal>,
    },
    /// The present slot is asked for. A job is done with it, or none, or it is refused.
    Slot {
        want: Result<Option<u32>, RefusedAt>,
    },
    /// A second pass is split off. This one submits a job, which gets this number, and carries it out. It is joined
    /// into the second one then, which takes its place.
    HandOver {
        release: u32,
        due: u32,
        op: Op,
        job: u32,
    },
    /// A second pass is split off. This one submits a job, which gets this number, and carries it out. The second one
    /// takes its place then, and this one is dropped.
    PassOn {
        release: u32,
        due: u32,
        op: Op,
        job: u32,
    },
    /// A second pass is split off and takes the place of this one, which is dropped.
    LetGo,
    /// Reads are submitted and slots carried out, and where memory is refused, that is reported and makes no entry.
    Grows,
    /// This stands of the die.
    Is(Fact),
}

/// What may stand of a die.
pub(crate) enum Fact {
    /// The job is done.
    Done {
        job: u32,
        completion: u32,
        lateness: i64,
    },
    /// The job is done, and its first read gave this page.
    Read {
        job: u32,
        page: PageData,
    },
    /// The job is neither done nor waived.
    Waiting {
        job: u32,
    },
    /// The worst job is this one.
    Worst {
        job: u32,
        lateness: i64,
    },
    /// The certificate is of this job alone, which fills the slots from its start to its completion.
    Certified(Bounds),
    /// The log has `count` entries, as the pass has seen it.
    Entries {
        count: u64,
    },
    /// The present slot is this one.
    Now {
        slot: u32,
    },
    /// `passes` passes other than this one are out.
    Out {
        passes: u32,
    },
}

/// A certificate of one job.
#[derive(Clone, Copy, Debug)]
pub(crate) struct Bounds {
    pub(crate) job: u32,
    pub(crate) start: u32,
    pub(crate) due: u32,
    pub(crate) completion: u32,
}
