//! One die: its jobs and collections, its flash, and its log.
#![tactic(auto)]

mod admission;
mod certificates;
mod devices;
mod die_core;
mod events;
mod faults;
mod head_step;
mod head_steps;
mod job_records;
mod laws;
mod memory;
mod next_calls;
mod next_slot;
mod notes;
mod operations;
mod outcomes;
mod overdues;
mod places;
mod readings;
pub mod renewal_laws;
mod renewals;
mod resumptions;
mod runs;
mod slot_note;
mod slots;

pub use die_core::DieCore;
pub use events::{EventHead, ReplyNote};
pub use job_table::{Job, Stage};
pub use laws::{a_call_has_one_answer, a_run_has_one_answer};
pub use memory::DieMemory;
pub use next_slot::{NextAct, NextSlot};
pub use notes::new_reply;
pub use outcomes::{Outcome, Worst};
pub use overdues::Overdue;
pub use renewals::RenewalRefusal;
pub use resumptions::{CheckpointRefusal, NotResumed, ResumeRefusal};
pub use runs::Replies;
pub use slot_note::SlotNote;
