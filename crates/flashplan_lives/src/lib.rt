//! How long a die lives by a plan with times: until the numbers for jobs and collections of one life are used up.
#![tactic(auto)]

mod lives;

pub use lives::{are_tasks, asked_in, life_of};
