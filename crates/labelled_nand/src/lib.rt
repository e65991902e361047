//! Devices that keep labels: what one does, and one in memory.
#![tactic(auto)]

mod labelled;
mod look;
mod memory;

pub use labelled::LabelledNand;
pub use look::Look;
pub use memory::{LabelledMemory, MarkedCell};
