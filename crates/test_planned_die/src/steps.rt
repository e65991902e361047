//! The words of a test: what the tasks ask of a die, what its slots carry out, and what stands of it then.
//!
//! A test is a table of steps, such as
//!
//! ```text
//! Asks { task: 0, ops: &[READ], want: Ok(0) },
//! Carries { jobs: &[Some(0)] },
//! Is(Done { job: 0, completion: 1, lateness: -5 }),
//! ```
//!
//! Jobs and collections go by their numbers, which begin at 0 in each life; collections have theirs in the slot in which
//! they come, the first task's before the second one's.

use planned_die::{AskRefusal, LifeRefusal};
use slot_types::{Op, Refusal};

/// The jobs of a burst: the number of the first one, and how many they are.
#[derive(Clone, Copy, PartialEq, Eq, Debug, Drop)]
pub(crate) struct Jobs {
    pub(crate) first: u32,
    pub(crate) jobs: u32,
}

/// A step of a table. A `want` is the answer: the number of the job, the jobs of a burst, or why it is refused.
#[derive(Drop)]
pub(crate) enum Step<'a> {
    /// A task asks for a job.
    Asks {
        task: u32,
        ops: &'a [Op],
        want: Result<u32, AskRefusal>,
    },
    /// A task asks for a burst.
    AsksAll {
        task: u32,
        ops: &'a [Op],
        want: Result<Jobs, AskRefusal>,
    },
    /// The next slots carry out these jobs or collections, one a slot, or are idle.
    Carries {
        jobs: &'a [Option<u32>],
    },
    /// `count` slots are carried out.
    Slots {
        count: u32,
    },
    /// In each of `slots` slots the second task asks for a burst of one operation more than it ever may, and for one of
    /// as many as it may in a period, whatever it is answered; then the slot is carried out.
    Bursts {
        slots: u32,
    },
    /// The present slot is refused.
    NoSlot {
        want: Refusal,
    },
    /// The next life begins, or doesn't.
    Renews {
        want: Result<(), LifeRefusal>,
    },
    /// This stands of the die.
    Is(Fact),
}

/// What may stand of a die.
#[derive(Drop)]
pub(crate) enum Fact {
    /// The job is done.
    Done {
        job: u32,
        completion: u32,
        lateness: i64,
    },
    /// The present slot of the life is this one, and the life began in this slot of the clock.
    Now {
        slot: u32,
        first: u64,
    },
    /// Nothing was done late.
    NothingLate,
}
