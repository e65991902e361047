//! The arrivals of a plan with deadlines and bursts: a script of all that its tasks may ask for, which is proved to keep
//! the plan.
#![tactic(auto)]

mod askers;
mod bursts;
mod counts;
mod makers;
mod scripts;

pub use counts::{Comes, comes_in, life_of};
pub use scripts::arrivals;
