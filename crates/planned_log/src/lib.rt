//! The log of a die that keeps a plan with deadlines and bursts itself: what its tasks are answered and what is
//! promised, as definitions and laws about them, apart from any body.
//!
//! - `Asks`: when a task may ask for a job or a burst, and why not;
//! - `Bursts`: the jobs of a burst;
//! - `AskKinds`: an ask for a job or for a burst, by its kind;
//! - `Lives`: how long a life is, and what came in all lives, on one clock;
//! - `KeptLogs`: the collections that the plan has in a slot; which logs keep the plan so far;
//! - `Moves`: all that callers may do;
//! - `Laws`: what a law speaks of; jobs that are done in time; what a task is answered.
//!
//! Each law is a function that does nothing, whose contract is the law.
#![tactic(auto)]

mod ask_kinds;
mod laws;
mod refusals;

pub use ask_kinds::AskKind;
pub use laws::{
    asks_are_accepted, bursts_are_asks, bursts_are_cut_into_jobs, kept_lives_end_quiet,
    kept_lives_go_on, kept_logs_are_in_time, kept_logs_begin,
    lives_have_no_more_arrivals_than_slots, own_collections_are_accepted, slots_are_accepted,
    tasks_are_answered_for_their_own_asks, too_soon_says_from_when,
    whatever_is_asked_the_plan_is_kept,
};
pub use refusals::AskRefusal;
