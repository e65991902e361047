//! The turn lock at work: a list of numbers behind a lock, for the tests of the lock.
#![tactic(auto)]

mod numbers;
#[cfg(test)]
mod tests;

pub use numbers::{NumberReply, Numbers};
