//! A die that keeps its plan itself and goes on by itself, for any number of threads: each task has a port, which asks for
//! that task alone, and the clock has one, which carries the slots out. What they are granted is one list, and the laws of
//! such a die are laws of it.
#![tactic(auto)]

mod as_opened;
mod book;
mod calls;
mod closing;
mod history;
mod laws;
mod opening;
mod pages;
mod ports;
mod refusals;

pub use calls::{Granted, Query, Refused, Request};
pub use closing::{StillOpen, close};
pub use laws::{
    ports_go_to_threads, shared_dies_are_in_time, tasks_are_answered_for_their_own_asks,
    tasks_take_their_own_outcomes,
};
pub use opening::{NotOpened, Opened, open};
pub use pages::PageRange;
pub use ports::{ClockPort, SharedPlannedDie, TaskPort};
pub use refusals::{AskAtRefused, AskRefused, OutcomeRefused, SlotRefused};
pub use task_outcomes::{OutcomeDie, TaskOutcome};
