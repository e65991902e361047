//! What became of the jobs of each task of a die that goes on by itself, kept until the task takes it, beyond the end of the
//! life in which they were done.
#![tactic(auto)]

mod die_outcomes;
mod done_job;
mod laws;
mod outcome_die;
mod outcome_queue;
mod task_outcome;

pub use die_outcomes::DieOutcomes;
pub use done_job::DoneJob;
pub use laws::outcomes_are_told_once;
pub use ongoing_die::{AskAtStop, AskKind, AskRefusal, AskStop, LifeStop, SlotStop, Taken};
pub use outcome_die::OutcomeDie;
pub use outcome_queue::OutcomeQueue;
pub use task_outcome::TaskOutcome;
