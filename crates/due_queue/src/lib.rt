//! Queues of waiting jobs in memory reserved beforehand: by deadline, and by release.
#![tactic(auto)]

mod job_queue;
mod keys;
mod pair_heap;

pub use job_queue::{DueQueue, JobQueue, WaitList};
pub use keys::{JobKey, Key, WaitKey};
