//! Scripts that are run row by row on dies, each row once the slots before it are carried out, and then the slots that
//! are left.
#![tactic(auto)]

mod boxes;
mod counted;
mod die_cores;
mod refused;
mod rows;
mod script_dies;
mod script_runs;

pub use counted::RefusedRows;
pub use die_cores::arrive;
pub use refused::{Asker, RefusedRow};
pub use script_dies::ScriptDie;
pub use script_runs::{run_die, run_dies};
