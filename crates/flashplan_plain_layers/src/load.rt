//! The jobs of a script, as a layer runs them.

use crate::lists::{at, set};
use slot_types::Op;
use std::alloc::{AllocError, Global};

/// A job: its operations are `count` of the load's from `first` on.
#[derive(Clone, Copy, Debug, Drop)]
pub struct PlainJob {
    pub task: u32,
    /// The slot from which on it may run.
    pub release: u32,
    /// Its deadline: the slot before which it is to be done.
    pub due: u32,
    pub(crate) first: usize,
    pub(crate) count: usize,
}

/// Jobs in the order of their rows. A row may come before its release, so releases may fall. A list of theirs has their
/// operations.
#[derive(Drop)]
pub struct Load {
    jobs: Vec<PlainJob>,
    ops: Vec<Op>,
}

impl Load {
    /// No job. It takes no memory.
    pub fn new(alloc: Global) -> Load {
        Load {
            jobs: Vec::new(alloc),
            ops: Vec::new(alloc),
        }
    }

    /// Adds a job after the others.
    pub fn push(
        &mut self,
        task: u32,
        release: u32,
        due: u32,
        ops: &[Op],
    ) -> Result<(), AllocError> {
        let first = self.ops.len();
        self.jobs.reserve(1)?;
        for op in ops {
            self.ops.push(*op)?;
        }
        self.jobs.push_reserved(PlainJob {
            task,
            release,
            due,
            first,
            count: ops.len(),
        });
        Ok(())
    }

    /// The jobs.
    pub fn jobs(&self) -> &[PlainJob] {
        self.jobs.as_slice()
    }

    /// An operation of a job, by its place among the job's.
    pub(crate) fn op(&self, job: &PlainJob, place: u32) -> Option<Op> {
        if place as usize >= job.count {
            return None;
        }
        self.ops
            .get(job.first.saturating_add(place as usize))
            .copied()
    }

    /// The places of the jobs in the order in which they come: by release, then by row.
    pub(crate) fn arrivals(&self, alloc: Global) -> Result<Vec<(u32, u32)>, AllocError> {
        let mut arrivals = Vec::new(alloc);
        for (place, job) in self.jobs.as_slice().iter().enumerate() {
            let place = u32::try_from(place).unwrap_or(u32::MAX);
            arrivals.push((job.release, place))?;
        }
        arrivals.as_mut_slice().sort(alloc)?;
        Ok(arrivals)
    }

    /// By task the least time from release to deadline that a job of it has.
    pub(crate) fn spans(&self, alloc: Global, tasks: usize) -> Result<Vec<u32>, AllocError> {
        let mut spans = vec![in alloc; u32::MAX; tasks]?;
        for job in self.jobs.as_slice() {
            let task = job.task as usize;
            let span = job.due.saturating_sub(job.release);
            if span < at(spans.as_slice(), task, 0) {
                set(spans.as_mut_slice(), task, span);
            }
        }
        Ok(spans)
    }
}
