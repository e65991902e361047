//! fio's I/O logs as a script for dies, and a plan without times for them. What is made is tested, and not proved.
#![tactic(auto)]

mod faults;
mod imports;
mod traces;

pub use faults::{ImportFault, LineFault, TraceFault};
pub use imports::{Made, Measure, import};
