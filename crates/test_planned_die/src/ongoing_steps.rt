//! The words of a test of a die that goes on by itself.

use ongoing_die::{AskAtStop, AskStop, OngoingCheckpointRefusal, SlotStop};
use slot_types::{Op, PageData};

/// What an ask is answered that isn't refused, with the numbers of its jobs in their life.
#[derive(Clone, Copy, PartialEq, Eq, Debug, Drop)]
pub(crate) enum Answer {
    /// One job.
    Enters {
        release: u64,
        due: u64,
        number: u32,
    },
    /// Several.
    EnterAll {
        release: u64,
        due: u64,
        first: u32,
        jobs: u32,
    },
    Waits {
        release: u64,
        due: u64,
    },
}

/// A step of a table. A `want` is the answer.
#[derive(Drop)]
pub(crate) enum Turn<'a> {
    /// A task asks for a job.
    Asks {
        task: u32,
        ops: &'a [Op],
        want: Result<Answer, AskStop>,
    },
    /// A task asks for a burst.
    AsksAll {
        task: u32,
        ops: &'a [Op],
        want: Result<Answer, AskStop>,
    },
    /// A task asks for a job that is released in slot `at` of the clock.
    AsksAt {
        task: u32,
        ops: &'a [Op],
        at: u64,
        want: Result<Answer, AskAtStop>,
    },
    /// And for such a burst.
    AsksAllAt {
        task: u32,
        ops: &'a [Op],
        at: u64,
        want: Result<Answer, AskAtStop>,
    },
    /// The next slots carry out these jobs or collections, one a slot, or are idle.
    Carries {
        jobs: &'a [Option<u32>],
    },
    /// `count` slots are carried out.
    Slots {
        count: u32,
    },
    /// In each of `slots` slots the second task asks for more than it ever may, and for as much as it may at once,
    /// whatever it is answered. The first task asks for a read each 10 slots, from the fifth on: it is taken, and is
    /// done by its deadline.
    Babbles {
        slots: u32,
    },
    /// The present slot is refused.
    NoSlot {
        want: SlotStop,
    },
    /// The task's ask that waits has `ops` operations; 0 where none waits.
    Waiting {
        task: u32,
        ops: usize,
    },
    /// The present slot of the clock of all lives.
    Clock {
        slot: u64,
    },
    /// The job of the present life is done.
    Done {
        job: u32,
        completion: u32,
        lateness: i64,
    },
    /// The job of the present life is done, and its reads gave this, in order.
    Gave {
        job: u32,
        reads: &'a [PageData],
    },
    /// No checkpoint is taken, and nothing changes.
    Untaken {
        want: OngoingCheckpointRefusal,
    },
    /// Nothing was done late in the present life.
    InTime,
}
