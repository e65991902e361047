//! Where the log of a die starts: a value that only clauses read.
#![tactic(auto)]

mod log_start;
mod mark;

pub use log_start::LogStart;
