//! Dies on devices that keep labels.
#![tactic(auto)]

mod beside;
mod laws;
mod scanning;

pub use beside::BesideNand;
pub use laws::{calls_keep_labels, slots_label_as_the_log};
pub use scanning::{PartFault, look_at, scan};
