//! What stands on a die at a quiet moment, as a value that outlives it, and whether such a value fits a plan.
#![tactic(auto)]

mod accounts;
mod blocks;
mod checkpoint;
mod fault;
mod fits;
pub mod laws;
mod pages;

pub use checkpoint::{BlockCounts, Checkpoint};
pub use fault::CheckpointFault;
