//! What of events breaks a plan with times, and where: conditions that don't hold, found and put to the test.
#![tactic(auto)]

mod any_breach;
mod breaches;
mod coming;
mod found;
mod laws;
mod rules;

pub use breaches::Breach;
pub use coming::{Arrived, arrivals_in};
pub use found::first_breach;
pub use laws::breaches_break_plans;
pub use rules::{CollectionRule, JobRule, task_times};
