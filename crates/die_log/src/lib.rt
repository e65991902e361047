//! What the log of a die says: definitions, and laws about them, apart from any body.
//!
//! A log is the list of the accepted calls of a die with their answers, the newest first: after an entry lies
//! the log as it was before it, so an earlier moment is what is left without the last entries. The definitions
//! stand in `specs/`, to be read in this order:
//!
//! - `Start`: where a log starts: the plan, and what its pages, cells and accounts are then; a fresh die's start;
//! - `Log`: entries; the jobs and collections that were taken; what each slot carried; the waivers;
//! - `Flash`: the contents of the logical pages; blocks, places and free pages;
//! - `Work`: what is done, what waits and what goes first; completion, lateness and the worst job; the block of
//!   a collection; what is owed;
//! - `Accounts`: tokens along a log, by the moves of `plan_rules`;
//! - `Answers`: what a call is answered, by the refusals in their order and by the rules that choose the head of
//!   a slot, waivers, victims and acts. A log is *exact* where each entry has this answer and none is a refusal;
//! - `Legal`: what an outsider may ask of a log, said without any rule that chooses;
//! - `Rows`: a log as the rows and slots that certificates of lateness are about;
//! - `Certificates`: what is said of a certificate of a log;
//! - `Promises`: all that is promised of a log, in one record;
//! - `InTime`: the logs that events leave, and what a plan with times promises of them;
//! - `Opening`: from which starts a log may begin; when all is done, and what stands then, as a start;
//! - `Supply`: what a task may write, what is held for it, and its collections;
//! - `Victims`: when a collection begins, and what it finds;
//! - `Lives`: all logs of a die, each of which starts at what the one before it left: what was last written, the rows
//!   and slots of them all, the erases;
//! - `PlannedLives`: planned work over all of them;
//! - `Windows`, `Covered`, `DemandedLives`: the same of plans with deadlines and bursts: windows that have the slots that
//!   are asked of them, what a task's balance lacks at most, and all lives on one clock;
//! - `Overdue`: what is overdue, and the work that it waits for;
//! - `Laws`: what a law speaks of: every exact log, each life, all lives.
//!
//! `Limits`, `SoundCells`, `RunningCollections`, `TrueAccounts` and `TrueAndLegal` say what else holds of every exact
//! log. The definitions run: `proofs/Worked` has small logs whose answers, cells, accounts and lateness are computed,
//! `proofs/Wrong` logs that break one rule each and are refused.
//!
//! Each law is a function that does nothing, whose contract is the law.
#![tactic(auto)]

mod demands;
mod laws;
mod lives;
mod overdue;

pub use demands::{
    demanded_lives_go_on, demanded_work_goes_on, demanded_work_is_accepted,
    demanded_work_is_in_time, fitting_work_is_in_time, fresh_dies_are_stocked,
    full_starts_are_stocked, roomy_logs_are_in_time, short_lives_leave_out_none,
    stocked_starts_stay_stocked,
};
pub use laws::{
    collections_are_bounded, collections_find_victims, equal_calls_have_one_answer,
    exact_carries_least_keys, exact_is_certified, exact_is_least_late, exact_is_legal,
    exact_keeps_limits, exact_keeps_promises, exact_stands, fresh_is_opening, holds_are_owed,
    moments_are_exact, planned_work_goes_on, planned_work_is_accepted, planned_work_is_in_time,
    quiet_moments_are_openings, worst_is_worst,
};
pub use lives::{
    few_erases, lives_are_least_late, lives_keep_promises, lives_report_the_last_write,
    planned_lives_go_on, wear_adds_up,
};
pub use overdue::waiting_work_had_too_much;
