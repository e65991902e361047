//! The jobs and collections of a die by number: who of them is ready, who is next, and who was done latest.
#![tactic(auto)]

mod changes;
mod counted_ops;
mod flat_jobs;
mod job_table;
mod jobs;
mod queues;
mod rows;
mod stages;
mod worst;

pub use counted_ops::CountedOps;
pub use job_table::JobTable;
pub use jobs::Job;
pub use stages::Stage;
