//! The arrivals of a plan with times: a script of all that its tasks may ask for, which is proved to keep the plan.
#![tactic(auto)]

mod askers;
mod chances;
mod die_events;
mod faults;
mod fillings;
mod jobs;
mod keeping;
mod laws;
mod makers;
mod manners;
mod ops;
mod pages;
mod scripts;

pub use askers::life;
pub use chances::Chance;
pub use die_events::{Events, events_on};
pub use faults::Fault;
pub use fillings::{Filling, fillings_from, fillings_of};
pub use keeping::keeps_plans;
pub use laws::planned_scripts_go_as_planned;
pub use manners::Manner;
pub use ops::{put_other, put_write};
pub use pages::Share;
pub use scripts::{arrivals, arrivals_from, test_all};
