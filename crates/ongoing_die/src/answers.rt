//! What an ask is answered that isn't refused.

use slot_types::JobNo;

/// What an ask is answered that isn't refused. Slots are those of the clock of all lives.
#[derive(Clone, Copy, PartialEq, Eq, Debug, Drop)]
pub enum Taken {
    /// Its jobs are jobs of the present life, released now. An ask for one job has one.
    Enters {
        release: u64,
        due: u64,
        /// The number of the first one; each next one has the next number.
        first: JobNo,
        /// How many jobs, from 1 on.
        jobs: u32,
    },
    /// It waits until its release, and its jobs are due then as a job is that is asked for then. That is the first slot of the
    /// next life, if they would be due after the present one; else the slot that was asked for.
    Waits {
        release: u64,
        due: u64,
    },
}
