//! Certificates that a lateness was unavoidable.
//!
//! A *certificate* lists jobs that leave no slot idle from a start to a completion, none of them released before
//! the start and none due after the certificate's deadline. Whoever schedules these jobs, one of them is then at least
//! as late as the completion is for the deadline: all of them fit below the completion only if they fill every slot.
//! The argument is Horn's (W. A. Horn, Some simple scheduling algorithms, 1974), for jobs that may be preempted.
//!
//! [`build`] reads the certificate of a done job off what the slots carried, and [`check`] says of any
//! certificate whether it holds. The laws say why the two agree wherever each slot carried the least key.
#![tactic(auto)]

mod busy_intervals;
mod carried;
mod certificates;
mod checks;
mod laws;
mod lookups;
mod rows;
mod verdicts;

pub use busy_intervals::build;
pub use carried::Carried;
pub use certificates::{Certificate, JobList};
pub use checks::check;
pub use laws::{
    busy_intervals_are_certificates, busy_intervals_carry_what_was_released_in_them,
    certificates_bind_every_schedule, done_jobs_have_certificates, least_keys_are_joined,
    least_keys_are_kept, least_keys_are_least_late,
};
pub use rows::{JobRow, JobRows, lateness, rows_rise};
pub use verdicts::Verdict;
