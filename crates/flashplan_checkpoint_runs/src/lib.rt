//! Runs of scripts that go on from a checkpoint, and end with one.
#![tactic(auto)]

mod devices;
mod dies;
mod explained;
mod failing_runs;
mod faults;
mod lines;
mod saving;
mod settling;
mod starts;
mod stocks;
mod store_runs;
mod texts;
mod watched_runs;

pub use dies::{DiesOn, StoreDies};
pub use explained::{check_store, explain};
pub use failing_runs::{FailingRun, run_failing};
pub use faults::{RunFault, Unsaved};
pub use saving::save_dies;
pub use store_runs::{StoreRun, run_script, started_store};
pub use texts::save;
pub use watched_runs::{draw_from, report_from, wear_from};
