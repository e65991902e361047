//! Scripts that are run on dies that keep their plans themselves: a row of a job is an ask of its task, the die enters its
//! collections, and what it takes is done by its deadline, whatever the other rows ask.
#![tactic(auto)]

mod fresh_dies;
mod lists;
mod memory_dies;
mod plans;
mod refusals;
mod row_counts;
mod rows;
mod script_dies;
mod script_runs;
mod store_runs;

pub use fresh_dies::fresh_die;
pub use memory_dies::MemoryDie;
pub use plans::{kept_plans, terms_of_times};
pub use refusals::{KeptFault, KeptReason, RowReason, RowRefusal};
pub use row_counts::{KIND_COUNT, KindCount, RowCounts};
pub use script_dies::KeptScriptDie;
pub use script_runs::run_dies;
pub use store_runs::{KeptRun, run_kept};
