//! Texts that the program and the tests share: the plan and the script of the run without words, and what came of it;
//! the same with a second die; a plan with times.
#![tactic(auto)]

pub mod built_in;
mod timed;
mod two_dies;

pub use built_in::{PLAN, REPORT, SCRIPT, SLOTS};
pub use timed::TIMED;
pub use two_dies::{TWO_DIES, TWO_REPORT, TWO_SCRIPT};
