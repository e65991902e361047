//! Whether allocations are refused from outside while tests are played, which several crates of tests ask.
#![tactic(auto)]

mod memory;

pub use memory::{Memory, is_scarce};
