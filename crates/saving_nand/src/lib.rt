//! Devices that keep what a clean shutdown saves.
#![tactic(auto)]

mod saved;
mod saving;

pub use saved::{NotSaved, Saved};
pub use saving::SavingNand;
