//! What a policy made of the jobs of a die.

use crate::figures::End;
use crate::store_dies::Carried;
use flashplan_plain_layers::{Load, PlainJob};
use std::alloc::{AllocError, Global};

/// Which jobs are counted: those that are released from the first slot on, and due by the last.
#[derive(Clone, Copy, PartialEq, Eq, Debug, Drop)]
pub(crate) struct Counted {
    pub(crate) from: u32,
    pub(crate) slots: u32,
}

impl Counted {
    fn has(self, job: &PlainJob) -> bool {
        job.release >= self.from && job.due <= self.slots
    }
}

/// What a policy made of the jobs of a die.
#[derive(Clone, Copy)]
pub(crate) struct Play<'a> {
    pub(crate) policy: &'static str,
    pub(crate) die: u32,
    /// How many tasks the die has.
    pub(crate) tasks: u32,
    pub(crate) load: &'a Load,
    /// By job of the load.
    pub(crate) ends: &'a [End],
    pub(crate) carried: Carried,
}

impl<'a> Play<'a> {
    /// How late the counted jobs of a task were, or of all; and how many of them weren't done.
    pub(crate) fn lateness(
        &self,
        alloc: Global,
        counted: Counted,
        task: Option<u32>,
    ) -> Result<(Vec<i64>, usize), AllocError> {
        let mut lateness = Vec::new(alloc);
        let mut unfinished: usize = 0;
        for (job, end) in self.load.jobs().iter().zip(self.ends) {
            if !counted.has(job) || (task.is_some() && task != Some(job.task)) {
                continue;
            }
            if *end == End::Unfinished {
                unfinished = unfinished.saturating_add(1);
            }
            lateness.push(end.lateness(job.due, counted.slots))?;
        }
        Ok((lateness, unfinished))
    }
}
