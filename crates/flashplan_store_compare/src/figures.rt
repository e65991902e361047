//! How late jobs were.

use flashplan_run_figures::{mean, nearest_rank};
use std::alloc::{AllocError, Global};

/// What became of a job by the end of a run.
#[derive(Clone, Copy, PartialEq, Eq, Debug, Drop)]
pub(crate) enum End {
    /// It was refused, for lack of tokens.
    Refused,
    /// It wasn't done.
    Unfinished,
    Done { completion: u32 },
}

/// The lateness of a job that was refused: above every other.
pub(crate) const REFUSED: i64 = i64::MAX;

impl End {
    /// What became of a job of a plain layer, which refuses none.
    pub(crate) fn of_play(completion: Option<u32>) -> End {
        match completion {
            None => End::Unfinished,
            Some(completion) => End::Done { completion },
        }
    }

    /// How late a job was that is due then: completion minus deadline. What isn't done in a run of `slots` slots counts
    /// as completed one slot after it, which is the least that it can be.
    pub(crate) fn lateness(self, due: u32, slots: u32) -> i64 {
        let completion = match self {
            End::Refused => return REFUSED,
            End::Unfinished => slots.saturating_add(1),
            End::Done { completion } => completion,
        };
        i64::from(completion).saturating_sub(i64::from(due))
    }
}

/// How late some jobs were.
#[derive(Clone, Copy, PartialEq, Eq, Debug, Drop)]
pub(crate) struct Figures {
    pub(crate) jobs: usize,
    pub(crate) refused: usize,
    /// Served, with a lateness above 0.
    pub(crate) late: usize,
    /// Among the late, those that weren't done.
    pub(crate) unfinished: usize,
    /// The greatest lateness of those that were served.
    pub(crate) worst: Option<i64>,
    /// Their mean lateness, in hundredths of a slot, rounded down.
    pub(crate) mean: Option<i64>,
    /// The least lateness that 99 % of the jobs don't exceed, and that 99.9 % don't; none where there are no jobs.
    pub(crate) p99: Option<i64>,
    pub(crate) p999: Option<i64>,
}

/// The figures of jobs by their lateness, of which `unfinished` weren't done.
pub(crate) fn figures_from(
    alloc: Global,
    mut lateness: Vec<i64>,
    unfinished: usize,
) -> Result<Figures, AllocError> {
    lateness.as_mut_slice().sort(alloc)?;
    let rising = lateness.as_slice();
    let served = rising.partition_point(|late| *late < REFUSED);
    let in_time = rising.partition_point(|late| *late <= 0);
    let served = served.min(rising.len());
    let (done, _) = rising.split_at(served);
    Ok(Figures {
        jobs: rising.len(),
        refused: rising.len().saturating_sub(served),
        late: served.saturating_sub(in_time),
        unfinished,
        worst: done.last().copied(),
        mean: mean(done),
        p99: nearest_rank(rising, 990),
        p999: nearest_rank(rising, 999),
    })
}
